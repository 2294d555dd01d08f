// What is left of the answer given. Each method takes the next word and gives what is left after it; where another word stands
// there it gives none, so that a lost answer stays lost.
ghost use Rattle.std.specs.Prelude.{◌≡◌, ◌↔◌, ◌<◌, ◌≤◌, IsTrue, IsNone, IfSome};
ghost use Rattle.protocol.specs.Left.{left};

use crate::words::{Value, cut, text_of};
use answer::{Refusal, number_of};
use std::num::f64_to_bits_with_nan;

#[derive(Drop)]
pub struct Answer<'a> {
    rest: Option<&'a [u8]>,
}

impl<'a> Answer<'a> {
    pub fn new(line: &'a [u8]) -> Answer<'a>
        ensures { result.rest ≡ Some line.entry }
    {
        Answer { rest: Some(line) }
    }

    fn word(self) -> Option<(&'a [u8], Answer<'a>)>
        ensures { IfSome result (λ p. left p.1 < left self.entry) }
    {
        let (word, rest) = cut(self.rest?, b' ');
        Some((word, Answer { rest }))
    }

    fn value(self, value: Value) -> Option<Answer<'a>>
        ensures { IfSome result (λ a. left a < left self.entry) }
    {
        let (word, rest) = self.word()?;
        if Value::of(word) == Some(value) {
            Some(rest)
        } else {
            None
        }
    }

    // The text itself, or a word that says it.
    pub fn text(self, text: &[u8]) -> Option<Answer<'a>>
        ensures { IfSome result (λ a. left a < left self.entry) }
    {
        let (word, rest) = self.word()?;
        if word == text || text_of(word) == Some(text) {
            Some(rest)
        } else {
            None
        }
    }

    pub fn count(self, n: u64) -> Option<Answer<'a>>
        ensures { IfSome result (λ a. left a < left self.entry) }
    {
        self.value(Value::Whole(n))
    }

    // 0, or the refusal's number: what C is told, here as in `told`.
    pub fn status(self, outcome: Result<(), Refusal>) -> Option<Answer<'a>>
        ensures { IfSome result (λ a. left a < left self.entry) }
    {
        self.count(u64::from(number_of(outcome)))
    }

    pub fn numbers(self, found: &[f64]) -> Option<Answer<'a>>
        ensures { IfSome result (λ a. left a ≤ left self.entry) }
    {
        let mut left = self;
        for x in found {
            left = left.value(Value::Number(f64_to_bits_with_nan(*x)))?;
        }
        Some(left)
    }

    // `ok` and the numbers found, or `refused` and the refusal's number.
    pub fn told(self, outcome: Result<(), Refusal>, found: &[f64]) -> Option<Answer<'a>>
        ensures { IfSome result (λ a. left a < left self.entry) }
    {
        match number_of(outcome) {
            0 => self.text(b"ok")?.numbers(found),
            _ => self.text(b"refused")?.status(outcome),
        }
    }

    pub fn is_end(&self) -> bool
        ensures { IsTrue result ↔ IsNone self.now.rest }
    {
        self.rest.is_none()
    }
}

// Which words are taken as a text is in no clause.
#[cfg(test)]
mod tests {
    use super::*;

    #[test]
    fn texts(rt: HostRuntime) {
        for (word, text, is_taken) in [
            ("ok", "ok", true),
            ("ok", "refused", false),
            ("\0\0ok", "ok", true),
            ("\0\0ok", "\0\0ok", true),
            ("singular-matrix", "singular-matrix", true),
            ("singular-matrix", "r-matrix", true),
            ("singular-matrix", "regular-matrix", false),
            ("sixteen-bytes-so", "sixteen-bytes-so", true),
            ("sixteen-bytes-so", "bytes-so", false),
            ("3rd", "3rd", true),
            ("\03rd", "3rd", true),
            ("", "", true),
        ] {
            let taken = Answer::new(word.as_bytes()).text(text.as_bytes());
            assert_eq!(rt; taken.is_some(), is_taken, "{word} for {text}");
        }
    }
}

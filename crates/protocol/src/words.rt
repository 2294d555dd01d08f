// The words of a line and the value of each. A call's values are kept as the f64s with those bits, so that the C functions take
// their numbers as slices of them.
ghost use Rattle.std.specs.Prelude.{◌≡◌, ◌+◌, ◌<◌, ◌≤◌, length, IfSome};

use crate::filter::Letter;
use std::num::f64_from_bits_with_nan;

// The sign bit of a word's value, and the bits of every NaN.
pub const SIGN: u64 = 0x8000_0000_0000_0000;

const NAN: u64 = 0x7ff8_0000_0000_0000;

// A number of 16 hexadecimal digits or `nan`, by its bits; a decimal whole number, its magnitude with the sign bit; the letter of a step.
#[derive(Clone, Copy, PartialEq, Eq)]
pub(crate) enum Value {
    Number(u64),
    Whole(u64),
    Letter(Letter),
}

// The bytes up to the next `stop`, and those after it, where there is one.
pub fn cut(text: &[u8], stop: u8) -> (&[u8], Option<&[u8]>)
    ensures first { length result.0.now ≤ length text.now }
    ensures rest { IfSome result.1 (λ rest. length result.0.now + 1 + length rest.now ≡ length text.now) }
{
    match text.iter().position(|b| *b == stop) {
        Some(end) => (&text[..end], Some(&text[end + 1..])),
        None => (text, None),
    }
}

// A digit's value, if it is below the base; a letter is a digit in upper case alone.
fn digit(b: u8, base: u32) -> Option<u32>
    requires { (2 ≤ base) × (base ≤ 36) }
    ensures { IfSome result (λ d. d < base) }
{
    if b.is_ascii_lowercase() {
        None
    } else {
        char::from(b).to_digit(base)
    }
}

// The number of a word's digits in that base, modulo 2^64.
fn whole(word: &[u8], base: u32) -> Option<u64>
    requires { (2 ≤ base) × (base ≤ 36) }
{
    word.iter().try_fold(0_u64, |n, b| {
        Some(
            n.wrapping_mul(u64::from(base))
                .wrapping_add(u64::from(digit(*b, base)?)),
        )
    })
}

// A decimal whole number; of more than 19 digits the first are dropped.
fn decimal(word: &[u8]) -> Option<u64> {
    let (dropped, kept) = word.split_at(word.len().saturating_sub(19));
    if dropped.iter().all(|b| b.is_ascii_digit()) {
        whole(kept, 10)
    } else {
        None
    }
}

// What a text says: its last eight bytes, without the NULs that lead. A word that is a number by its length or its first byte is none.
pub(crate) fn text_of(word: &[u8]) -> Option<&[u8]> {
    if word.len() == 16 {
        return None;
    }
    match word {
        [] | [b'0'..=b'9' | b'-', ..] => None,
        _ => {
            let last = &word[word.len().saturating_sub(8)..];
            let nuls = last.iter().position(|b| *b != 0).unwrap_or(last.len());
            Some(&last[nuls..])
        }
    }
}

impl Value {
    // The value of a word, if it is one of the protocol's calls.
    pub(crate) fn of(word: &[u8]) -> Option<Value> {
        if word.len() == 16 {
            return Some(Value::Number(whole(word, 16)?));
        }
        match word {
            [b'0'..=b'9', ..] => Some(Value::Whole(decimal(word)?)),
            [b'-', _, ..] => Some(Value::Whole(SIGN + decimal(&word[1..])? % SIGN)),
            _ => match text_of(word)? {
                b"nan" => Some(Value::Number(NAN)),
                [letter] => Some(Value::Letter(Letter::try_from(*letter).ok()?)),
                _ => None,
            },
        }
    }

    fn bits(self) -> u64 {
        match self {
            Value::Number(bits) | Value::Whole(bits) => bits,
            Value::Letter(letter) => letter as u64,
        }
    }
}

// Reads the values of the words after the first; how many there are. It is no call where a word is none of a call, or there is
// no room for all.
pub fn read_values(line: &[u8], values: &mut [f64]) -> Option<usize>
    ensures { IfSome result (λ count. count ≤ length values.new) }
{
    // Counted here, since the count is what is handed back.
    let mut count = 0;
    for word in line.split(|b| *b == b' ').skip(1) {
        let value = Value::of(word)?;
        *values.get_mut(count)? = f64_from_bits_with_nan(value.bits());
        count += 1;
    }
    Some(count)
}

// r times c, for sizes up to 4; 0 for others.
pub fn cells(r: usize, c: usize) -> usize
    ensures { result ≤ 16 }
{
    if r <= 4 && c <= 4 { r * c } else { 0 }
}

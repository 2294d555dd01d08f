// What is left of the values of a call, from which each method takes the next.
ghost use Rattle.std.specs.Prelude.{◌≡◌, ◌↔◌, ◌≤◌, IsTrue, length, map, take, drop, IfSome, slice_get, get_or};
ghost use Rattle.std.specs.Option.{option_map};
ghost use Rattle.std.specs.Float.{binary64, nan};
ghost use Rattle.std.specs.Float.Ieee.{to_bits};

use crate::filter::Letter;
use std::num::f64_to_bits_with_nan;

#[derive(Clone, Copy)]
pub struct Values<'a> {
    rest: &'a [f64],
}

impl<'a> Values<'a> {
    pub fn new(all: &'a [f64]) -> Values<'a>
        ensures { result.rest ≡ all.entry }
    {
        Values { rest: all }
    }

    pub fn number(&mut self) -> Option<f64>
        ensures value { result ≡ slice_get self.old.rest.now 0 }
        ensures rest { self.new.rest.now ≡ drop 1 self.old.rest.now }
    {
        let (first, rest) = self.rest.split_first()?;
        self.rest = rest;
        Some(*first)
    }

    pub fn whole(&mut self) -> Option<u64>
        ensures value { result ≡ option_map (to_bits binary64) (slice_get self.old.rest.now 0) }
        ensures rest { self.new.rest.now ≡ drop 1 self.old.rest.now }
    {
        Some(f64_to_bits_with_nan(self.number()?))
    }

    pub fn size(&mut self) -> Option<usize>
        ensures value { result ≡ option_map (to_bits binary64) (slice_get self.old.rest.now 0) }
        ensures rest { self.new.rest.now ≡ drop 1 self.old.rest.now }
    {
        Some(self.whole()? as usize)
    }

    // The next number; a NaN where there is none.
    pub fn number_or_nan(&mut self) -> f64
        ensures value { result ≡ get_or self.old.rest.now 0 nan }
        ensures rest { self.new.rest.now ≡ drop 1 self.old.rest.now }
    {
        self.number().unwrap_or(f64::NAN)
    }

    // The next size; the bits of a NaN where there is none.
    pub fn size_or_nan(&mut self) -> usize
        ensures value { result ≡ to_bits binary64 (get_or self.old.rest.now 0 nan) }
        ensures rest { self.new.rest.now ≡ drop 1 self.old.rest.now }
    {
        f64_to_bits_with_nan(self.number_or_nan()) as usize
    }

    // The next three.
    pub fn sizes(&mut self) -> Option<[usize; 3]>
        ensures value { IfSome result (λ sizes. sizes ≡ map (to_bits binary64) (take 3 self.old.rest.now)) }
        ensures rest { self.new.rest.now ≡ drop 3 self.old.rest.now }
    {
        Some([self.size()?, self.size()?, self.size()?])
    }

    // A count; all that is above 999 is 999.
    pub fn count(&mut self) -> Option<usize>
        ensures value { IfSome result (λ n. n ≤ 999) }
        ensures rest { self.new.rest.now ≡ drop 1 self.old.rest.now }
    {
        Some(self.size()?.min(999))
    }

    pub fn take(&mut self, n: usize) -> Option<&'a [f64]>
        ensures value { IfSome result (λ part. length part.now ≡ n) }
        ensures rest { length self.new.rest.now ≤ length self.old.rest.now }
    {
        let (part, rest) = self.rest.split_at_checked(n)?;
        self.rest = rest;
        Some(part)
    }

    // What there is of the next n.
    pub fn part(&mut self, n: usize) -> &'a [f64]
        ensures value { result.now ≡ take n self.old.rest.now }
        ensures rest { self.new.rest.now ≡ drop n self.old.rest.now }
    {
        let (part, rest) = self.rest.split_at(n.min(self.rest.len()));
        self.rest = rest;
        part
    }

    pub fn letter(&mut self) -> Option<Letter>
        ensures { self.new.rest.now ≡ drop 1 self.old.rest.now }
    {
        let byte = u8::try_from(self.whole()?).ok()?;
        Letter::try_from(byte).ok()
    }

    // All that is left.
    pub fn numbers(self) -> &'a [f64]
        ensures { result ≡ self.entry.rest }
    {
        self.rest
    }

    pub fn is_end(&self) -> bool
        ensures { IsTrue result ↔ (length self.now.rest.now ≡ 0) }
    {
        self.rest.is_empty()
    }
}

// The correctly rounded square root of an f64. A guess in floats is taken where integers show that it is the root; of the
// guess nothing is assumed, and elsewhere the root is found digit by digit.
#![tactic(auto)]

ghost use Rattle.std.specs.Prelude.{◌≡◌, true, false, ◌+◌, ◌*◌, ◌^◌, ◌≤◌, ◌<◌};
ghost use Rattle.std.specs.Float.{binary64};
ghost use Rattle.std.specs.Float.Ieee.{of_bits, odd};
ghost use Rattle.root.specs.Weights.{hidden, past53, past54, infinity};
ghost use Rattle.root.specs.Root.{root, root_of, isqrt, nearest_root};
ghost use Rattle.root.specs.Nearest.{CorrectlyRounded};
ghost use Rattle.root.specs.Part.{Ready, Step};

// The leading digit of a significand, which a pattern does not hold.
const HIDDEN: u64 = 0x10_0000_0000_0000;

const SIGN: u64 = 0x8000_0000_0000_0000;

const INFINITY: u64 = 0x7ff0_0000_0000_0000;

// ---- the whole root of m * 2^54, digit by digit

// The digits found, the remainder, and the radicand's digits that are not used yet, in units of 2^-54.
#[derive(Clone, Copy)]
pub struct Part {
    pub root: u64,
    pub rest: u64,
    pub left: u64,
}

// One binary digit more of the root.
fn digit(p: Part) -> Part
    requires { Ready p }
    ensures { Step p result }
{
    let rest = p.rest * 4 + p.left / HIDDEN;
    let left = p.left % HIDDEN * 4;
    let trial = p.root * 4 + 1;
    if trial <= rest {
        Part {
            root: p.root * 2 + 1,
            rest: rest - trial,
            left,
        }
    } else {
        Part {
            root: p.root * 2,
            rest,
            left,
        }
    }
}

fn digits(m: u64) -> u64
    requires { m < past54 }
    ensures { result ≡ isqrt 54 (m * past54) }
{
    let mut p = Part {
        root: 0,
        rest: 0,
        left: m,
    };
    // A count of turns and no index: a digit each.
    for _ in 0..54_u64 {
        p = digit(p);
    }
    p.root
}

// ---- the root of a significand, rounded

// The float q * 2^k * 2^-1074, for a q of 53 digits.
#[tactic(auto, using(crate::proofs::Patterns::no_nan, crate::proofs::Patterns::at_normal))]
fn pack(q: u64, k: u64) -> f64
    requires { (hidden ≤ q) × (q < past53) × (k < 2045) }
    ensures { result ≡ odd 53 false q k 1074 }
{
    f64::from_bits(k * HIDDEN + q)
}

// q is nearest the root of m * 2^52: -q < m * 2^52 - q * q <= q. With q = h * 2^26 + l, m * 2^52 - q * q is
// ((m - h * h) * 2^25 - h * l) * 2^27 - l * l; where that is far from zero, q is not nearest. Each difference is tested before
// it is taken: with `checked_sub` a root takes 2 to 5 ns more.
fn is_nearest(m: u64, q: u64) -> bool
    requires { (m < past54) × (hidden ≤ q) × (q < past53) }
    ensures { result ≡ true → nearest_root (m * hidden) ≡ q }
{
    let h = q / 0x400_0000;
    let l = q % 0x400_0000;
    let hh = h * h;
    if m < hh {
        return false;
    }
    let d = m - hh;
    if 0x1000_0000 <= d {
        return false;
    }
    let t = d * 0x200_0000 + 0x800_0000;
    let hl = h * l;
    if t < hl {
        return false;
    }
    let g = t - hl;
    if 0x2000_0000 <= g {
        return false;
    }
    let u = g * 0x800_0000 + q;
    let v = l * l + 0x40_0000_0000_0000;
    v < u && u <= v + q * 2
}

// r is the root of m * 2^e * 2^-2096, for an m of 53 digits: of m or 2 * m, whichever leaves an even exponent.
fn is_root(m: u64, e: u64, r: f64) -> bool
    requires { (hidden ≤ m) × (m < past53) × (e < 4090) }
    ensures { result ≡ true → r ≡ root_of (m * 2 ^ (e + 52)) }
{
    if r.is_nan() {
        return false;
    }
    let c = r.to_bits();
    let up = e / 2 * HIDDEN;
    if c < up {
        return false;
    }
    let q = c - up;
    q / HIDDEN == 1 && is_nearest(m * (1 + e % 2), q)
}

// The same root: the guess, if it is the root.
#[tactic(auto, using(crate::proofs::Scaled::as_coded))]
fn rounded(m: u64, e: u64, guess: f64) -> f64
    requires { (hidden ≤ m) × (m < past53) × (e < 4090) }
    ensures { result ≡ root_of (m * 2 ^ (e + 52)) }
{
    if is_root(m, e, guess) {
        return guess;
    }
    let s = digits(m * (1 + e % 2));
    pack((s + 1) / 2, e / 2)
}

// ---- by the bits of the number

// A guess at the root of x, whose bits are b: 0.4 / √x from the bits, two steps of Newton's method, the root's upper half s,
// and a correction by what x is above s * s.
fn near(x: f64, b: u64) -> f64
    requires { b < infinity }
{
    let y = f64::from_bits(0x5fe4_0700_0000_0000 - b / 2);
    let w = y - x * 0.41758760410933576 * y * (y * y);
    let v = w - x * 0.9407937043729621 * w * (w * w);
    let t = x * 2.519992366717168 * v;
    if t.is_nan() {
        return t;
    }
    let c = t.to_bits();
    let s = f64::from_bits(c - c % 0x800_0000);
    let p = s * s;
    s + (x - p) * v * (1.889994275037876 - 2.000357822155326 * (v * v) * (x + p))
}

// A positive normal number.
#[tactic(auto, using(crate::proofs::Roots::normal_roots))]
fn normal(x: f64, b: u64) -> f64
    requires { (hidden ≤ b) × (b < infinity) }
    ensures { result ≡ root (of_bits binary64 b) }
{
    rounded(HIDDEN + b % HIDDEN, b / HIDDEN + 1021, near(x, b))
}

// A positive subnormal number, moved up to 53 digits; the guess is at 2^54 times the root.
#[tactic(auto, using(crate::proofs::Shift::shifted, crate::proofs::Patterns::no_nan, crate::proofs::Roots::subnormal_root))]
fn subnormal(b: u64) -> f64
    requires { (0 < b) × (b < hidden) }
    ensures { result ≡ root (of_bits binary64 b) }
{
    let shift = u64::leading_zeros(b) - 11;
    let m = b << shift;
    let e = 1022 - shift as u64;
    let c = m + (e - 914) * HIDDEN;
    rounded(m, e, near(f64::from_bits(c), c) * 5.551115123125783e-17)
}

pub fn sqrt(x: f64) -> f64
    ensures { result ≡ root x }
{
    if x.is_nan() {
        return x;
    }
    let b = x.to_bits();
    if b < HIDDEN {
        if b == 0 { x } else { subnormal(b) }
    } else if b < INFINITY {
        normal(x, b)
    } else if b == INFINITY || b == SIGN {
        x
    } else {
        f64::NAN
    }
}

// ---- a promise: nothing is done, and the crate is not proved without the law

// The root is the correctly rounded one, for every f64.
pub fn correctly_rounded()
    ensures { CorrectlyRounded root }
{}

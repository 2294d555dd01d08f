// src/core/scalar.rs at f64: the constants and functions that belong to the number type. The numbers
// themselves are plain f64; the root is the crate `root`'s.
#![tactic(auto)]

ghost use Rattle.std.specs.Prelude.{◌≡◌};
ghost use Rattle.root.specs.Root.{root as root_of_number};
ghost use Rattle.scalar.specs.Promise.{EpsilonPremise};
ghost use Rattle.scalar.specs.Number.{abs as abs_of, clamp, saturated, of_whole};
ghost use Rattle.scalar.specs.Constants.{constants as constants_of};

use std::f64::consts;

// The number type of the estimators. The port is at f64 alone, and a trait with one impl would be no plainer than this.
#[derive(Clone, Copy)]
pub struct ControlScalar;

// The associated constants, as one value that a contract can speak of.
#[derive(Clone, Copy)]
pub struct Constants {
    pub zero: f64,
    pub one: f64,
    pub two: f64,
    pub half: f64,
    pub pi: f64,
    pub epsilon: f64,
    pub states: usize,
    pub measurements: usize,
    pub inputs: usize,
    pub models: usize,
    pub slots: usize,
}

impl ControlScalar {
    pub const ZERO: f64 = 0.0;

    pub const ONE: f64 = 1.0;

    pub const TWO: f64 = 2.0;

    pub const HALF: f64 = 0.5;

    pub const PI: f64 = consts::PI;

    // Bits 3CB0000000000000, read off the running Rust (docs/DIFFERENCES.md).
    pub const EPSILON: f64 = f64::EPSILON;

    // The largest sizes: state N, measurement M, input I, models K, and slots T of a smoother.
    pub const MAX_STATES: usize = 4;

    pub const MAX_MEASUREMENTS: usize = 4;

    pub const MAX_INPUTS: usize = 4;

    pub const MAX_MODELS: usize = 4;

    pub const MAX_SLOTS: usize = 64;

    pub fn constants() -> Constants
        ensures { result ≡ constants_of }
    {
        Constants {
            zero: Self::ZERO,
            one: Self::ONE,
            two: Self::TWO,
            half: Self::HALF,
            pi: Self::PI,
            epsilon: Self::EPSILON,
            states: Self::MAX_STATES,
            measurements: Self::MAX_MEASUREMENTS,
            inputs: Self::MAX_INPUTS,
            models: Self::MAX_MODELS,
            slots: Self::MAX_SLOTS,
        }
    }

    pub fn from_f64(v: f64) -> f64
        ensures { result ≡ v }
    {
        v
    }

    pub fn to_f64(x: f64) -> f64
        ensures { result ≡ x }
    {
        x
    }

    // The sign cleared, also of -0; a NaN stays.
    #[tactic(auto, using(crate::proofs::Abs::sign_cleared))]
    pub fn abs(x: f64) -> f64
        ensures { result ≡ abs_of x }
    {
        x.abs()
    }

    pub fn sqrt(x: f64) -> f64
        ensures { result ≡ root_of_number x }
    {
        root::sqrt(x)
    }

    // A NaN passes: it is neither below min nor above max. `f64::clamp` requires that min is at most max.
    #[tactic(auto, unfolding(crate::specs::Number::clamp))]
    pub fn clamp_val(x: f64, min: f64, max: f64) -> f64
        ensures { result ≡ clamp x min max }
    {
        if x < min {
            min
        } else if x > max {
            max
        } else {
            x
        }
    }

    #[tactic(auto, unfolding(crate::specs::Number::saturated))]
    pub fn saturate(x: f64, limit: f64) -> f64
        ensures { result ≡ saturated x limit }
    {
        Self::clamp_val(x, -limit, limit)
    }
}

// The part of the number type that PID control uses.
#[derive(Clone, Copy)]
pub struct PidScalar;

impl PidScalar {
    pub const ZERO: f64 = ControlScalar::ZERO;

    pub const ONE: f64 = ControlScalar::ONE;

    pub const EPSILON: f64 = ControlScalar::EPSILON;

    pub fn from_int(v: i32) -> f64
        ensures { result ≡ of_whole v }
    {
        v as f64
    }

    pub fn abs(x: f64) -> f64
        ensures { result ≡ abs_of x }
    {
        ControlScalar::abs(x)
    }

    pub fn clamp_pid(x: f64, min: f64, max: f64) -> f64
        ensures { result ≡ clamp x min max }
    {
        ControlScalar::clamp_val(x, min, max)
    }
}

// A promise: nothing is done, and the crate is not proved without the premise.
pub fn epsilon_premise()
    ensures { EpsilonPremise }
{}

// The names for C of src/core/scalar.rs: the functions of the number type, which stand in an impl and so are called, and its constants in a slice.
ghost use Rattle.std.specs.Prelude.{◌≡◌, length};
ghost use Rattle.root.specs.Root.{root as root_of};
ghost use Rattle.scalar.specs.Number.{abs, clamp, saturated, of_whole};
ghost use Rattle.answer.specs.Told.{written};
ghost use Rattle.c_slices.specs.Calls.{constants_in};

use answer::Refusal;
use scalar::{ControlScalar, PidScalar};

pub fn estimators_scalar_sqrt(x: f64) -> f64
    ensures { result ≡ root_of x }
{
    ControlScalar::sqrt(x)
}

pub fn estimators_scalar_abs(x: f64) -> f64
    ensures { result ≡ abs x }
{
    ControlScalar::abs(x)
}

pub fn estimators_scalar_clamp_val(x: f64, min: f64, max: f64) -> f64
    ensures { result ≡ clamp x min max }
{
    ControlScalar::clamp_val(x, min, max)
}

pub fn estimators_scalar_saturate(x: f64, limit: f64) -> f64
    ensures { result ≡ saturated x limit }
{
    ControlScalar::saturate(x, limit)
}

pub fn estimators_scalar_from_f64(v: f64) -> f64
    ensures { result ≡ v }
{
    ControlScalar::from_f64(v)
}

pub fn estimators_scalar_to_f64(x: f64) -> f64
    ensures { result ≡ x }
{
    ControlScalar::to_f64(x)
}

pub fn estimators_scalar_from_int(v: i32) -> f64
    ensures { result ≡ of_whole v }
{
    PidScalar::from_int(v)
}

pub fn estimators_scalar_pid_abs(x: f64) -> f64
    ensures { result ≡ abs x }
{
    PidScalar::abs(x)
}

pub fn estimators_scalar_clamp_pid(x: f64, min: f64, max: f64) -> f64
    ensures { result ≡ clamp x min max }
{
    PidScalar::clamp_pid(x, min, max)
}

// ZERO, ONE, TWO, HALF, PI and EPSILON. Refused with 1: a slice of another length than 6.
pub fn estimators_scalar_constants(out: &mut [f64]) -> Result<(), Refusal>
    ensures { (result, out.new) ≡ written out.old (constants_in (length out.old)) }
{
    c_matrix::numbers::scalar_constants(out)
}

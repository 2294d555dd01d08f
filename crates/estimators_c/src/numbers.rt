// src/core/scalar.rs for C: each export calls the function of its name, and has its contract.
ghost use Rattle.std.specs.Prelude.{◌≡◌, length};
ghost use Rattle.root.specs.Root.{root as root_of};
ghost use Rattle.scalar.specs.Number.{abs, clamp, saturated, of_whole};
ghost use Rattle.answer.specs.Told.{given};
ghost use Rattle.c_slices.specs.Calls.{constants_in};

use answer::number_of;
use estimators::numbers;

#[unsafe(no_mangle)]
pub extern "C" fn estimators_scalar_sqrt(x: f64) -> f64
    ensures { result ≡ root_of x }
{
    numbers::estimators_scalar_sqrt(x)
}

#[unsafe(no_mangle)]
pub extern "C" fn estimators_scalar_abs(x: f64) -> f64
    ensures { result ≡ abs x }
{
    numbers::estimators_scalar_abs(x)
}

#[unsafe(no_mangle)]
pub extern "C" fn estimators_scalar_clamp_val(x: f64, min: f64, max: f64) -> f64
    ensures { result ≡ clamp x min max }
{
    numbers::estimators_scalar_clamp_val(x, min, max)
}

#[unsafe(no_mangle)]
pub extern "C" fn estimators_scalar_saturate(x: f64, limit: f64) -> f64
    ensures { result ≡ saturated x limit }
{
    numbers::estimators_scalar_saturate(x, limit)
}

#[unsafe(no_mangle)]
pub extern "C" fn estimators_scalar_from_f64(v: f64) -> f64
    ensures { result ≡ v }
{
    numbers::estimators_scalar_from_f64(v)
}

#[unsafe(no_mangle)]
pub extern "C" fn estimators_scalar_to_f64(x: f64) -> f64
    ensures { result ≡ x }
{
    numbers::estimators_scalar_to_f64(x)
}

#[unsafe(no_mangle)]
pub extern "C" fn estimators_scalar_from_int(v: i32) -> f64
    ensures { result ≡ of_whole v }
{
    numbers::estimators_scalar_from_int(v)
}

#[unsafe(no_mangle)]
pub extern "C" fn estimators_scalar_pid_abs(x: f64) -> f64
    ensures { result ≡ abs x }
{
    numbers::estimators_scalar_pid_abs(x)
}

#[unsafe(no_mangle)]
pub extern "C" fn estimators_scalar_clamp_pid(x: f64, min: f64, max: f64) -> f64
    ensures { result ≡ clamp x min max }
{
    numbers::estimators_scalar_clamp_pid(x, min, max)
}

// ZERO, ONE, TWO, HALF, PI and EPSILON. Refused with 1: a slice of another length than 6.
#[unsafe(no_mangle)]
pub extern "C" fn estimators_scalar_constants(out: &mut [f64]) -> u8
    ensures { (result, out.new) ≡ given out.old (constants_in (length out.old)) }
{
    number_of(numbers::estimators_scalar_constants(out))
}

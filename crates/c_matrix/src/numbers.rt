// src/core/scalar.rs: the constants of the number type in a slice. Its functions on numbers need no call of their own.
ghost use Rattle.std.specs.Prelude.{◌≡◌, length};
ghost use Rattle.answer.specs.Told.{written};
ghost use Rattle.c_slices.specs.Calls.{constants_in};

use answer::Refusal;
use scalar::ControlScalar;

// ZERO, ONE, TWO, HALF, PI and EPSILON. Refused with 1: a slice of another length than 6.
pub fn scalar_constants(out: &mut [f64]) -> Result<(), Refusal>
    ensures { (result, out.new) ≡ written out.old (constants_in (length out.old)) }
{
    sizes::fits(out.len() == 6)?;
    let k = ControlScalar::constants();
    layout::put_slice(out, 0, &[k.zero, k.one, k.two, k.half, k.pi, k.epsilon]);
    Ok(())
}

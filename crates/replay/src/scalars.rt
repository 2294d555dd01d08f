// The operations of src/core/scalar.rs, as replay_matrices has those of matrices.

ghost use Rattle.std.specs.Prelude.{◌<◌, IfSome};
ghost use Rattle.protocol.specs.Left.{left};

use estimators::numbers;
use protocol::given::Answer;
use protocol::names::Scalar;
use protocol::values::Values;
use protocol::words::SIGN;

// The whole number of 32 bits with that magnitude and sign bit; 0 for one outside.
fn int_of(bits: u64) -> i32 {
    let magnitude = (bits % SIGN) as i64;
    let n = if bits < SIGN { magnitude } else { -magnitude };
    i32::try_from(n).unwrap_or(0)
}

fn consts<'a>(given: Answer<'a>) -> Option<Answer<'a>>
    ensures { IfSome result (λ a. left a < left given.entry) }
{
    let mut all = [0.0; 6];
    let outcome = numbers::estimators_scalar_constants(&mut all);
    let left = given.told(outcome, &all)?;
    left.numbers(&[all[5] * 1000000.0])
}

fn result(op: Scalar, mut words: Values<'_>) -> Option<f64> {
    if op == Scalar::FromInt {
        let n = int_of(words.whole()?);
        return if words.is_end() {
            Some(numbers::estimators_scalar_from_int(n))
        } else {
            None
        };
    }
    match (op, words.numbers()) {
        (Scalar::Sqrt, [x]) => Some(numbers::estimators_scalar_sqrt(*x)),
        (Scalar::Abs, [x]) => Some(numbers::estimators_scalar_abs(*x)),
        (Scalar::ClampVal, [x, min, max]) => {
            Some(numbers::estimators_scalar_clamp_val(*x, *min, *max))
        }
        (Scalar::Saturate, [x, limit]) => Some(numbers::estimators_scalar_saturate(*x, *limit)),
        (Scalar::FromF64, [x]) => Some(numbers::estimators_scalar_from_f64(*x)),
        (Scalar::ToF64, [x]) => Some(numbers::estimators_scalar_to_f64(*x)),
        (Scalar::PidAbs, [x]) => Some(numbers::estimators_scalar_pid_abs(*x)),
        (Scalar::ClampPid, [x, min, max]) => {
            Some(numbers::estimators_scalar_clamp_pid(*x, *min, *max))
        }
        _ => None,
    }
}

pub fn answer<'a>(op: Scalar, words: Values<'_>, given: Answer<'a>) -> Option<Answer<'a>>
    ensures { IfSome result (λ a. left a < left given.entry) }
{
    if op == Scalar::Consts {
        return if words.is_end() { consts(given) } else { None };
    }
    let x = result(op, words)?;
    given.told(Ok(()), &[x])
}

// `inv` of src/core/matrix.rs at the sizes 1 and 2, by its numbers and straight-line; and the test of a pivot, for every size.
#![tactic(auto)]

ghost use Rattle.std.specs.Prelude.{◌≡◌};
ghost use Rattle.std.specs.Float.Ieee.{lt};
ghost use Rattle.scalar.specs.Number.{abs as abs_of};
ghost use Rattle.algebra.specs.Matrix.{two_by_two};
ghost use Rattle.algebra.specs.Inverse.{no_pivot, inv as inv_of};
ghost use Rattle.small_inverse.specs.Two.{over, inv_number, from_diagonal};

use answer::Refusal;
use scalar::ControlScalar;

// A magnitude below EPSILON times 1,000,000, one product. A NaN is not below.
#[tactic(auto, unfolding(algebra::specs::Inverse::no_pivot))]
pub fn no_pivot(x: f64) -> bool
    ensures { result ≡ no_pivot (abs_of x) }
{
    ControlScalar::abs(x) < ControlScalar::EPSILON * 1000000.0
}

// The magnitude of x is larger than that of y. No NaN is larger than another number, or smaller.
fn is_larger(x: f64, y: f64) -> bool
    ensures { result ≡ lt (abs_of y) (abs_of x) }
{
    ControlScalar::abs(x) > ControlScalar::abs(y)
}

// One over a pivot.
fn over(x: f64) -> Result<f64, Refusal>
    ensures { result ≡ over x }
{
    if no_pivot(x) {
        return Err(Refusal::SingularMatrix);
    }
    Ok(1.0 / x)
}

// The inverse of a matrix of one cell, as a number. Refused as singular: no pivot.
#[tactic(auto, using(crate::proofs::Two::inv_number_is))]
pub fn inverse_number(x: f64) -> Result<f64, Refusal>
    ensures { result ≡ inv_number x }
{
    Ok(1.0 * over(x)?)
}

// The right part in the end, of rows whose left part's first cell is the first column's pivot.
#[tactic(auto, using(crate::proofs::Two::diagonal_is))]
fn diagonal_two(left: [[f64; 2]; 2], right: [[f64; 2]; 2]) -> Result<[[f64; 2]; 2], Refusal>
    ensures { result ≡ from_diagonal left right }
{
    let [[a, b], [p, q]] = left;
    let [[e, f], [g, h]] = right;
    let s = over(a)?;
    let u = b * s;
    let t = over(q - p * u)?;
    let v = (g - p * (e * s)) * t;
    let w = (h - p * (f * s)) * t;
    Ok([[e * s - u * v, f * s - u * w], [v, w]])
}

// The inverse of the rows (a, b) and (c, d). The rows are exchanged number by number, and the rest stands once: that is short
// enough to be inlined.
#[tactic(auto, using(crate::proofs::Two::exchange_two))]
pub fn inverse_two(a: f64, b: f64, c: f64, d: f64) -> Result<[[f64; 2]; 2], Refusal>
    ensures { result ≡ inv_of 2 (two_by_two a b c d) }
{
    let t = is_larger(c, a);
    let e = rows::pick(t, 0.0, 1.0);
    let f = rows::pick(t, 1.0, 0.0);
    let first = [rows::pick(t, c, a), rows::pick(t, d, b)];
    let second = [rows::pick(t, a, c), rows::pick(t, b, d)];
    diagonal_two([first, second], [[e, f], [f, e]])
}

// `cholesky` of src/core/matrix.rs at f64: the lower triangle l with l × transposed l = a. Only the
// lower triangle of a is read.
#![tactic(auto)]

ghost use Rattle.std.specs.Prelude.{◌≡◌, ◌<◌, cond, eqb};
ghost use Rattle.scalar.specs.Number.{◌⊖◌, ◌⊘◌};
ghost use Rattle.answer.specs.Answer.{mapped, if_sized};
ghost use Rattle.answer.specs.Table.{table};
ghost use Rattle.algebra.specs.Matrix.{at, dot};
ghost use Rattle.algebra.specs.Array.{used};
ghost use Rattle.algebra.specs.Cholesky.{no_diagonal, diagonal_of, cholesky as cholesky_of};
ghost use Rattle.sizes.specs.Size.{count, part, sized};
ghost use Rattle.matrix.specs.Result.{as_matrix};

use answer::Refusal;
use scalar::ControlScalar;
use sizes::Size;

// What is left of a diagonal cell is at or below zero. A NaN is not.
#[tactic(auto, unfolding(algebra::specs::Cholesky::no_diagonal))]
pub fn no_diagonal(d: f64) -> bool
    ensures { result ≡ no_diagonal d }
{
    d <= 0.0
}

// The cell on a diagonal: the root of what is left of the matrix's. Refused as not positive definite.
#[tactic(auto, unfolding(algebra::specs::Cholesky::diagonal_of))]
#[inline(always)]
pub fn diagonal(d: f64) -> Result<f64, Refusal>
    ensures { result ≡ diagonal_of d }
{
    if no_diagonal(d) {
        return Err(Refusal::NotPositiveDefinite);
    }
    Ok(ControlScalar::sqrt(d))
}

// ---- a row v of the factor: a is the row of the matrix, and l a row of the factor above. The places are literals where they are
// called, so that a compiler writes the sums out.

// With its cell j, left of the diagonal.
#[tactic(auto, unfolding(algebra::specs::Matrix::dot, algebra::specs::Matrix::sum_from))]
#[inline(always)]
fn with_cell(v: [f64; 4], a: [f64; 4], l: [f64; 4], j: usize) -> [f64; 4]
    requires { j < 4 }
    ensures { result ≡ table 4 (λ t. cond (eqb j t) ((at a j ⊖ dot j v l) ⊘ at l j) (at v t)) }
{
    rows::row_with(v, j, (a[j] - kernel::dot(&v, &l, j)) / l[j])
}

// With its cell i, on the diagonal.
#[tactic(auto, unfolding(algebra::specs::Matrix::dot, algebra::specs::Matrix::sum_from))]
#[inline(always)]
fn with_diagonal(v: [f64; 4], a: [f64; 4], i: usize) -> Result<[f64; 4], Refusal>
    requires { i < 4 }
    ensures { result ≡ mapped (λ x. table 4 (λ t. cond (eqb i t) x (at v t))) (diagonal_of (at a i ⊖ dot i v v)) }
{
    let d = diagonal(a[i] - kernel::dot(&v, &v, i))?;
    Ok(rows::row_with(v, i, d))
}

// The factor of the n × n part of a, row after row, each from the rows above it. Refused as not positive definite: a diagonal.
pub fn factor_of(a: &[[f64; 4]; 4], n: Size) -> Result<[[f64; 4]; 4], Refusal>
    ensures { result ≡ as_matrix (cholesky_of (count n) (part n n a.now)) }
{
    let rows = usize::from(n);
    let none = [0.0; 4];
    let r0 = with_diagonal(none, a[0], 0)?;
    if rows < 2 {
        return Ok([r0, none, none, none]);
    }
    let v1 = with_cell(none, a[1], r0, 0);
    let r1 = with_diagonal(v1, a[1], 1)?;
    if rows < 3 {
        return Ok([r0, r1, none, none]);
    }
    let u2 = with_cell(none, a[2], r0, 0);
    let v2 = with_cell(u2, a[2], r1, 1);
    let r2 = with_diagonal(v2, a[2], 2)?;
    if rows < 4 {
        return Ok([r0, r1, r2, none]);
    }
    let t3 = with_cell(none, a[3], r0, 0);
    let u3 = with_cell(t3, a[3], r1, 1);
    let v3 = with_cell(u3, a[3], r2, 2);
    let r3 = with_diagonal(v3, a[3], 3)?;
    Ok([r0, r1, r2, r3])
}

// The same, of a matrix by value. Refused too: n is no size.
#[tactic(auto, using(matrix::proofs::Results::size_given))]
pub fn cholesky(a: [[f64; 4]; 4], n: usize) -> Result<[[f64; 4]; 4], Refusal>
    ensures { result ≡ as_matrix (if_sized (sized n) (cholesky_of n (used n n a))) }
{
    factor_of(&a, Size::try_from(n)?)
}

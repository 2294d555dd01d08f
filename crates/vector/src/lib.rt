// src/core/matrix.rs at f64, the functions on vectors: vectors of at most 4 components as arrays by value, with
// the used size beside them. Components outside are ignored on entry and +0 in a result.
#![tactic(auto)]

ghost use Rattle.std.specs.Prelude.{◌≡◌};
ghost use Rattle.answer.specs.Answer.{where_sized};
ghost use Rattle.answer.specs.Table.{table};
ghost use Rattle.algebra.specs.Matrix.{at, matvec as matvec_of, outer as outer_of, vec_add, vec_sub, vec_scale, dot, vec_norm};
ghost use Rattle.algebra.specs.Array.{cut, used};
ghost use Rattle.rows.specs.Row.{pairwise};
ghost use Rattle.matrix.specs.Result.{as_matrix, as_vector};
ghost use Rattle.sizes.specs.Size.{sized, shaped, paired, applicable};

use answer::Refusal;
use rows::{Difference, Operation, Sum};
use scalar::ControlScalar;
use sizes::Size;

// ---- products

// a, of r rows and c columns, times v, of n components. Refused with 1: a size, or c is not n.
pub fn matvec(
    a: [[f64; 4]; 4],
    r: usize,
    c: usize,
    v: [f64; 4],
    n: usize,
) -> Result<[f64; 4], Refusal>
    ensures { result ≡ as_vector (where_sized (applicable r c n) (matvec_of r c (used r c a) (cut c v))) }
{
    let (rows, cols) = sizes::applied(r, c, n)?;
    Ok(kernel::product_vector(&a, &v, rows, cols))
}

// Row i is w times number i of v.
fn outer_rows(v: [f64; 4], w: [f64; 4]) -> [[f64; 4]; 4]
    ensures { result ≡ table 4 (λ i. vec_scale 4 w (at v i)) }
{
    let r0 = rows::row_scaled(w, v[0]);
    let r1 = rows::row_scaled(w, v[1]);
    let r2 = rows::row_scaled(w, v[2]);
    let r3 = rows::row_scaled(w, v[3]);
    [r0, r1, r2, r3]
}

// v, of r components, times transposed w, of c. Refused with 1: a size.
pub fn outer(v: [f64; 4], r: usize, w: [f64; 4], c: usize) -> Result<[[f64; 4]; 4], Refusal>
    ensures { result ≡ as_matrix (where_sized (shaped r c) (outer_of r c (cut r v) (cut c w))) }
{
    let (rows, cols) = sizes::shape(r, c)?;
    let m = outer_rows(v, w);
    Ok(rows::used_part(&m, rows, cols))
}

// ---- componentwise

// The operation, number by number. Refused with 1, as what follows: a size, or n is not m.
fn vec_pairwise<O: Operation>(
    a: [f64; 4],
    n: usize,
    b: [f64; 4],
    m: usize,
) -> Result<[f64; 4], Refusal>
    ensures { result ≡ as_vector (where_sized (paired n m) (pairwise O.op n (cut n a) (cut n b))) }
{
    let k = sizes::pair(n, m)?;
    Ok(kernel::pairwise::<O>(a, b, k))
}

#[tactic(auto, unfolding(algebra::specs::Matrix::vec_add))]
pub fn vec_add(a: [f64; 4], n: usize, b: [f64; 4], m: usize) -> Result<[f64; 4], Refusal>
    ensures { result ≡ as_vector (where_sized (paired n m) (vec_add n (cut n a) (cut n b))) }
{
    vec_pairwise::<Sum>(a, n, b, m)
}

#[tactic(auto, unfolding(algebra::specs::Matrix::vec_sub))]
pub fn vec_sub(a: [f64; 4], n: usize, b: [f64; 4], m: usize) -> Result<[f64; 4], Refusal>
    ensures { result ≡ as_vector (where_sized (paired n m) (vec_sub n (cut n a) (cut n b))) }
{
    vec_pairwise::<Difference>(a, n, b, m)
}

// Refused with 1, as vec_norm: a size.
pub fn vec_scale(a: [f64; 4], n: usize, s: f64) -> Result<[f64; 4], Refusal>
    ensures { result ≡ as_vector (where_sized (sized n) (vec_scale n (cut n a) s)) }
{
    let k = Size::try_from(n)?;
    Ok(rows::leading(rows::row_scaled(a, s), k))
}

// ---- sums

#[tactic(auto, using(crate::proofs::Sized::dots))]
pub fn vec_dot(a: [f64; 4], n: usize, b: [f64; 4], m: usize) -> Result<f64, Refusal>
    ensures { result ≡ where_sized (paired n m) (dot n (cut n a) (cut n b)) }
{
    sizes::pair(n, m)?;
    Ok(kernel::dot(&a, &b, n))
}

#[tactic(auto, using(crate::proofs::Sized::dots), unfolding(algebra::specs::Matrix::vec_norm))]
pub fn vec_norm(a: [f64; 4], n: usize) -> Result<f64, Refusal>
    ensures { result ≡ where_sized (sized n) (vec_norm n (cut n a)) }
{
    Size::try_from(n)?;
    Ok(ControlScalar::sqrt(kernel::dot(&a, &a, n)))
}

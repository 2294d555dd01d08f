// src/core/matrix.rs on slices that the caller lends, the functions on vectors: each is a slice of its numbers. Refused with 1: a
// size, or a slice of another length.
#![tactic(auto)]

ghost use Rattle.std.specs.Prelude.{◌≡◌, length};
ghost use Rattle.answer.specs.Told.{written};
ghost use Rattle.sizes.specs.Size.{count, front};
ghost use Rattle.c_slices.specs.Calls.{matvec_in, outer_in, pairwise_in, vec_add_in, vec_sub_in, vec_scale_in, dot_in, vec_norm_in};

use answer::Refusal;
use c_slices::{give, give_part, matrix, part_in, vector};
use layout::put_vector;
use rows::{Difference, Operation, Sum};
use sizes::Size;

// The n numbers of v, which has just so many.
fn numbers_in(v: &[f64], n: Size) -> [f64; 4]
    ensures { length v.now ≡ count n → front n result ≡ v.now }
{
    layout::vector_at(v, 0, n)
}

// r rows and c columns times a vector of c numbers.
pub fn matrix_matvec(
    r: usize,
    c: usize,
    a: &[f64],
    v: &[f64],
    out: &mut [f64],
) -> Result<(), Refusal>
    ensures { (result, out.new) ≡ written out.old (matvec_in r c a.now v.now (length out.old)) }
{
    let (rows, cols) = matrix(r, c, a.len())?;
    vector(c, v.len())?;
    vector(r, out.len())?;
    let x = part_in(a, rows, cols);
    let y = numbers_in(v, cols);
    put_vector(out, 0, kernel::product_vector(&x, &y, rows, cols), rows);
    Ok(())
}

// A vector of r numbers times a transposed one of c.
pub fn matrix_outer(
    r: usize,
    c: usize,
    v: &[f64],
    w: &[f64],
    out: &mut [f64],
) -> Result<(), Refusal>
    ensures { (result, out.new) ≡ written out.old (outer_in r c v.now w.now (length out.old)) }
{
    let rows = vector(r, v.len())?;
    let cols = vector(c, w.len())?;
    matrix(r, c, out.len())?;
    let x = numbers_in(v, rows);
    let y = numbers_in(w, cols);
    give_part(out, vector::outer(x, r, y, c), rows, cols)
}

// The operation, number by number.
fn pairwise<O: Operation>(n: usize, v: &[f64], w: &[f64], out: &mut [f64]) -> Result<(), Refusal>
    ensures { (result, out.new) ≡ written out.old (pairwise_in O.op n v.now w.now (length out.old)) }
{
    let size = vector(n, v.len())?;
    vector(n, w.len())?;
    vector(n, out.len())?;
    let x = numbers_in(v, size);
    let y = numbers_in(w, size);
    put_vector(out, 0, kernel::pairwise::<O>(x, y, size), size);
    Ok(())
}

#[tactic(auto, unfolding(algebra::specs::Matrix::vec_add))]
pub fn matrix_vec_add(n: usize, v: &[f64], w: &[f64], out: &mut [f64]) -> Result<(), Refusal>
    ensures { (result, out.new) ≡ written out.old (vec_add_in n v.now w.now (length out.old)) }
{
    pairwise::<Sum>(n, v, w, out)
}

#[tactic(auto, unfolding(algebra::specs::Matrix::vec_sub))]
pub fn matrix_vec_sub(n: usize, v: &[f64], w: &[f64], out: &mut [f64]) -> Result<(), Refusal>
    ensures { (result, out.new) ≡ written out.old (vec_sub_in n v.now w.now (length out.old)) }
{
    pairwise::<Difference>(n, v, w, out)
}

pub fn matrix_vec_scale(n: usize, v: &[f64], s: f64, out: &mut [f64]) -> Result<(), Refusal>
    ensures { (result, out.new) ≡ written out.old (vec_scale_in n v.now s (length out.old)) }
{
    let size = vector(n, v.len())?;
    vector(n, out.len())?;
    let x = numbers_in(v, size);
    put_vector(out, 0, rows::row_scaled(x, s), size);
    Ok(())
}

pub fn matrix_vec_dot(n: usize, v: &[f64], w: &[f64], out: &mut f64) -> Result<(), Refusal>
    ensures { (result, out.new) ≡ written out.old (dot_in n v.now w.now) }
{
    let size = vector(n, v.len())?;
    vector(n, w.len())?;
    let x = numbers_in(v, size);
    let y = numbers_in(w, size);
    give(out, vector::vec_dot(x, n, y, n))
}

pub fn matrix_vec_norm(n: usize, v: &[f64], out: &mut f64) -> Result<(), Refusal>
    ensures { (result, out.new) ≡ written out.old (vec_norm_in n v.now) }
{
    let size = vector(n, v.len())?;
    give(out, vector::vec_norm(numbers_in(v, size), n))
}

// src/core/matrix.rs, the functions on matrices: each is a slice of its cells by rows. Refused with 1: a size, or a slice of
// another length. What has a kernel goes from slice to slice; the rest goes through the functions by value.
ghost use Rattle.std.specs.Prelude.{◌≡◌, ◌*◌, ◌<◌, ◌≤◌, ℕ, length};
ghost use Rattle.answer.specs.Answer.{mapped};
ghost use Rattle.answer.specs.Told.{written};
ghost use Rattle.algebra.specs.Array.{used, pad_row};
ghost use Rattle.sizes.specs.Size.{count, front};
ghost use Rattle.layout.specs.Layout.{vector_in, put_at};
ghost use Rattle.c_slices.specs.Slices.{rows};
ghost use Rattle.c_slices.specs.Told.{single};
ghost use Rattle.c_slices.specs.Calls.{transpose_in, scale_in, neg_in, frob_norm_in, trace_in, inv_in, cholesky_in};
ghost use Rattle.c_slices.specs.Calls.{cellwise_in, add_in, sub_in, eq_in, product_in, mul_in};

use answer::Refusal;
use c_slices::{give, give_part, matrix, part_in};
use layout::{put_matrix, put_vector, vector_at};
use rows::{Difference, Operation, Sum};
use sizes::Size;

// ---- one matrix

// From r rows and c columns to c rows and r columns.
pub fn matrix_transpose(r: usize, c: usize, a: &[f64], out: &mut [f64]) -> Result<(), Refusal>
    ensures { (result, out.new) ≡ written out.old (transpose_in r c a.now (length out.old)) }
{
    let (rows, cols) = matrix(r, c, a.len())?;
    matrix(c, r, out.len())?;
    let x = part_in(a, rows, cols);
    put_matrix(out, 0, &rows::transposed(&x, rows, cols), cols, rows);
    Ok(())
}

pub fn matrix_scale(r: usize, c: usize, a: &[f64], s: f64, out: &mut [f64]) -> Result<(), Refusal>
    ensures { (result, out.new) ≡ written out.old (scale_in r c a.now s (length out.old)) }
{
    let (rows, cols) = matrix(r, c, a.len())?;
    matrix(r, c, out.len())?;
    let x = part_in(a, rows, cols);
    give_part(out, elementwise::scale(x, r, c, s), rows, cols)
}

#[tactic(auto, unfolding(algebra::specs::Matrix::negated))]
pub fn matrix_neg(r: usize, c: usize, a: &[f64], out: &mut [f64]) -> Result<(), Refusal>
    ensures { (result, out.new) ≡ written out.old (neg_in r c a.now (length out.old)) }
{
    matrix_scale(r, c, a, -1.0, out)
}

pub fn matrix_frob_norm(r: usize, c: usize, a: &[f64], out: &mut f64) -> Result<(), Refusal>
    ensures { (result, out.new) ≡ written out.old (frob_norm_in r c a.now) }
{
    let (rows, cols) = matrix(r, c, a.len())?;
    give(out, elementwise::frob_norm(part_in(a, rows, cols), r, c))
}

pub fn matrix_trace(n: usize, a: &[f64], out: &mut f64) -> Result<(), Refusal>
    ensures { (result, out.new) ≡ written out.old (trace_in n a.now) }
{
    let (size, _) = matrix(n, n, a.len())?;
    give(out, elementwise::trace(part_in(a, size, size), n))
}

// A matrix of one number into a lent place; a refusal writes nothing.
fn give_number(out: &mut [f64], answer: Result<f64, Refusal>) -> Result<(), Refusal>
    requires { length out.old ≡ 1 }
    ensures { (result, out.new) ≡ written out.old (mapped single answer) }
{
    give(&mut out[0], answer)
}

// The inverse. Refused with 3: inversion rejects the matrix.
pub fn matrix_inv(n: usize, a: &[f64], out: &mut [f64]) -> Result<(), Refusal>
    ensures { (result, out.new) ≡ written out.old (inv_in n a.now (length out.old)) }
{
    let (size, _) = matrix(n, n, a.len())?;
    matrix(n, n, out.len())?;
    if n == 1 {
        return give_number(out, small_inverse::inverse_number(a[0]));
    }
    let x = part_in(a, size, size);
    give_part(out, inverse::inverse_of(&x, size), size, size)
}

// ---- rows that are read and written one by one, so that they stay in registers

// Row i of a matrix of c columns; a row that is not there is all +0.
#[inline(always)]
fn row_in(b: &[f64], i: usize, c: Size) -> [f64; 4]
    requires { i < 4 }
    ensures { result ≡ pad_row (vector_in (count c) b.now (i * count c)) }
{
    vector_at(b, i * usize::from(c), c)
}

#[inline(always)]
fn put_row(b: &mut [f64], i: usize, v: [f64; 4], c: Size)
    requires { i < 4 }
    ensures { b.new ≡ put_at (i * count c) (front c v) b.old }
{
    put_vector(b, i * usize::from(c), v, c);
}

// The matrix of c columns in b, however many rows it has.
#[inline(always)]
fn four_rows(b: &[f64], c: Size) -> [[f64; 4]; 4]
    ensures { (r : ℕ) → r ≤ 4 → length b.now ≡ r * count c → used r (count c) result ≡ rows r (count c) b.now }
{
    [
        row_in(b, 0, c),
        row_in(b, 1, c),
        row_in(b, 2, c),
        row_in(b, 3, c),
    ]
}

// The lower factor. Refused with 4: a reduced diagonal at or below zero.
pub fn matrix_cholesky(n: usize, a: &[f64], out: &mut [f64]) -> Result<(), Refusal>
    ensures { (result, out.new) ≡ written out.old (cholesky_in n a.now (length out.old)) }
{
    let (size, _) = matrix(n, n, a.len())?;
    matrix(n, n, out.len())?;
    let x = four_rows(a, size);
    give_part(out, cholesky::factor_of(&x, size), size, size)
}

// ---- two matrices

// The operation, cell by cell.
fn cellwise<O: Operation>(
    r: usize,
    c: usize,
    a: &[f64],
    b: &[f64],
    out: &mut [f64],
) -> Result<(), Refusal>
    ensures { (result, out.new) ≡ written out.old (cellwise_in O.op r c a.now b.now (length out.old)) }
{
    let (rows, cols) = matrix(r, c, a.len())?;
    matrix(r, c, b.len())?;
    matrix(r, c, out.len())?;
    let x = part_in(a, rows, cols);
    let y = part_in(b, rows, cols);
    put_matrix(
        out,
        0,
        &kernel::cellwise::<O>(&x, &y, rows, cols),
        rows,
        cols,
    );
    Ok(())
}

#[tactic(auto, unfolding(algebra::specs::Matrix::add))]
pub fn matrix_add_mat(
    r: usize,
    c: usize,
    a: &[f64],
    b: &[f64],
    out: &mut [f64],
) -> Result<(), Refusal>
    ensures { (result, out.new) ≡ written out.old (add_in r c a.now b.now (length out.old)) }
{
    cellwise::<Sum>(r, c, a, b, out)
}

#[tactic(auto, unfolding(algebra::specs::Matrix::sub))]
pub fn matrix_sub_mat(
    r: usize,
    c: usize,
    a: &[f64],
    b: &[f64],
    out: &mut [f64],
) -> Result<(), Refusal>
    ensures { (result, out.new) ≡ written out.old (sub_in r c a.now b.now (length out.old)) }
{
    cellwise::<Difference>(r, c, a, b, out)
}

// Equal cell by cell: -0 equals +0, and a NaN equals nothing.
pub fn matrix_eq(r: usize, c: usize, a: &[f64], b: &[f64], out: &mut bool) -> Result<(), Refusal>
    ensures { (result, out.new) ≡ written out.old (eq_in r c a.now b.now) }
{
    let (rows, cols) = matrix(r, c, a.len())?;
    matrix(r, c, b.len())?;
    let x = part_in(a, rows, cols);
    let y = part_in(b, rows, cols);
    give(out, elementwise::eq(x, r, c, y, r, c))
}

// a, r rows of k numbers, times b, k rows of c, into out: row by row, so that no matrix is stored in between.
fn put_product(out: &mut [f64], a: &[f64], b: &[f64], r: Size, k: Size, c: Size)
    requires out_whole { length out.old ≡ count r * count c }
    requires a_whole { length a.now ≡ count r * count k }
    requires b_whole { length b.now ≡ count k * count c }
    ensures { out.new ≡ product_in (count r) (count k) (count c) a.now b.now }
{
    let m = four_rows(b, c);
    // The index is a row of a, and the same row of out.
    for i in 0..usize::from(r) {
        let p = rows::row_product(row_in(a, i, k), &m, k);
        put_row(out, i, p, c);
    }
}

// r rows and k columns times k rows and c columns.
pub fn matrix_matmul(
    r: usize,
    k: usize,
    c: usize,
    a: &[f64],
    b: &[f64],
    out: &mut [f64],
) -> Result<(), Refusal>
    ensures { (result, out.new) ≡ written out.old (mul_in r k c a.now b.now (length out.old)) }
{
    let (rows, inner) = matrix(r, k, a.len())?;
    let (_, cols) = matrix(k, c, b.len())?;
    matrix(r, c, out.len())?;
    put_product(out, a, b, rows, inner, cols);
    Ok(())
}

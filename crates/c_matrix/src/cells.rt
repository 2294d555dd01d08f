// src/core/matrix.rs, the constructors and the functions on one cell: a matrix is a slice of its cells by rows. Refused with 1: a
// size, or a slice of another length.
ghost use Rattle.std.specs.Prelude.{◌≡◌, length};
ghost use Rattle.answer.specs.Told.{written};
ghost use Rattle.c_slices.specs.Calls.{zeros_in, filled_in, identity_in, get_in, set_in};

use answer::Refusal;
use c_slices::{give, give_part, matrix, part_in};
use elementwise::Matrix;

// ---- constructors

#[tactic(auto, unfolding(algebra::specs::Matrix::zeros))]
pub fn matrix_zeros(r: usize, c: usize, out: &mut [f64]) -> Result<(), Refusal>
    ensures { (result, out.new) ≡ written out.old (zeros_in r c (length out.old)) }
{
    matrix_filled(r, c, 0.0, out)
}

pub fn matrix_default(r: usize, c: usize, out: &mut [f64]) -> Result<(), Refusal>
    ensures { (result, out.new) ≡ written out.old (zeros_in r c (length out.old)) }
{
    matrix_zeros(r, c, out)
}

pub fn matrix_filled(r: usize, c: usize, val: f64, out: &mut [f64]) -> Result<(), Refusal>
    ensures { (result, out.new) ≡ written out.old (filled_in r c val (length out.old)) }
{
    let (rows, cols) = matrix(r, c, out.len())?;
    give_part(out, Matrix::filled(r, c, val), rows, cols)
}

pub fn matrix_identity(n: usize, out: &mut [f64]) -> Result<(), Refusal>
    ensures { (result, out.new) ≡ written out.old (identity_in n (length out.old)) }
{
    let (size, _) = matrix(n, n, out.len())?;
    give_part(out, Matrix::identity(n), size, size)
}

// ---- one cell

// Row i, column j, from 0. Refused with 1 outside, as matrix_set.
pub fn matrix_get(
    r: usize,
    c: usize,
    i: usize,
    j: usize,
    a: &[f64],
    out: &mut f64,
) -> Result<(), Refusal>
    ensures { (result, out.new) ≡ written out.old (get_in r c i j a.now) }
{
    let (rows, cols) = matrix(r, c, a.len())?;
    give(out, elementwise::get(part_in(a, rows, cols), r, c, i, j))
}

// The matrix with val in row i, column j.
pub fn matrix_set(
    r: usize,
    c: usize,
    i: usize,
    j: usize,
    a: &[f64],
    val: f64,
    out: &mut [f64],
) -> Result<(), Refusal>
    ensures { (result, out.new) ≡ written out.old (set_in r c i j a.now val (length out.old)) }
{
    let (rows, cols) = matrix(r, c, a.len())?;
    matrix(r, c, out.len())?;
    let x = part_in(a, rows, cols);
    give_part(out, elementwise::set(x, r, c, i, j, val), rows, cols)
}

// src/core/matrix.rs at f64, the functions cell by cell: matrices of at most 4 rows and 4 columns as arrays of
// arrays by value, with the used sizes beside them. Cells outside are ignored on entry and +0 in a result.
#![tactic(auto)]

ghost use Rattle.std.specs.Prelude.{◌≡◌};
ghost use Rattle.std.specs.Float.Ieee.{eq};
ghost use Rattle.scalar.specs.Number.{◌⊗◌};
ghost use Rattle.answer.specs.Answer.{where_sized};
ghost use Rattle.algebra.specs.Matrix.{at, cell, zeros, filled, identity, transpose, add, sub, scale, negated};
ghost use Rattle.algebra.specs.Matrix.{set_cell, sum_from, squares, frob_norm, trace, every, equal};
ghost use Rattle.algebra.specs.Array.{used, used_flat};
ghost use Rattle.matrix.specs.Result.{as_matrix};
ghost use Rattle.rows.specs.Row.{cellwise};
ghost use Rattle.sizes.specs.Size.{count, part, sized, shaped, alike, inside};
ghost use Rattle.elementwise.specs.Record.{record_of};

use answer::Refusal;
use rows::{Difference, Operation, Sum};
use scalar::ControlScalar;
use sizes::Size;

// ---- a matrix as a record

// A matrix with its used sizes, in fixed memory, the rows flat, four numbers a row. Its fields can hold anything.
#[derive(Clone, Copy)]
pub struct Matrix {
    pub rows: usize,
    pub cols: usize,
    pub cells: [f64; 16],
}

// The used part of a, of r rows and c columns. Refused with 1: a size.
fn part_of(a: &[[f64; 4]; 4], r: usize, c: usize) -> Result<[[f64; 4]; 4], Refusal>
    ensures { result ≡ as_matrix (where_sized (shaped r c) (used r c a.now)) }
{
    let (rows, cols) = sizes::shape(r, c)?;
    Ok(rows::used_part(a, rows, cols))
}

// Refused with 1 where a size is not 1 to 4.
impl Matrix {
    #[tactic(auto, unfolding(algebra::specs::Matrix::zeros))]
    pub fn zeros(rows: usize, cols: usize) -> Result<[[f64; 4]; 4], Refusal>
        ensures { result ≡ as_matrix (where_sized (shaped rows cols) (zeros rows cols)) }
    {
        Matrix::filled(rows, cols, 0.0)
    }

    pub fn filled(rows: usize, cols: usize, val: f64) -> Result<[[f64; 4]; 4], Refusal>
        ensures { result ≡ as_matrix (where_sized (shaped rows cols) (filled rows cols val)) }
    {
        let a = [[val; 4]; 4];
        part_of(&a, rows, cols)
    }

    pub fn identity(n: usize) -> Result<[[f64; 4]; 4], Refusal>
        ensures { result ≡ as_matrix (where_sized (sized n) (identity n)) }
    {
        let e = kernel::identity_rows();
        part_of(&e, n, n)
    }

    pub fn default(rows: usize, cols: usize) -> Result<[[f64; 4]; 4], Refusal>
        ensures { result ≡ as_matrix (where_sized (shaped rows cols) (zeros rows cols)) }
    {
        Matrix::zeros(rows, cols)
    }

    // The record of an array of rows, its unused cells +0.
    pub fn from_rows(a: [[f64; 4]; 4], rows: usize, cols: usize) -> Result<Matrix, Refusal>
        ensures { result ≡ where_sized (shaped rows cols) (record_of rows cols (used rows cols a)) }
    {
        let (r, c) = sizes::shape(rows, cols)?;
        let cells = kernel::flat_part(&a, r, c);
        Ok(Matrix { rows, cols, cells })
    }

    // The array of rows, its unused cells +0.
    pub fn to_rows(self) -> Result<[[f64; 4]; 4], Refusal>
        ensures { result ≡ as_matrix (where_sized (shaped self.rows self.cols) (used_flat self.rows self.cols self.cells)) }
    {
        let rows = self.rows;
        let cols = self.cols;
        let cells = self.cells;
        let a = kernel::from_flat(&cells);
        part_of(&a, rows, cols)
    }
}

// ---- cell by cell

// a, of r rows and c columns, as c rows and r columns. Refused with 1: a size.
pub fn transpose(a: [[f64; 4]; 4], r: usize, c: usize) -> Result<[[f64; 4]; 4], Refusal>
    ensures { result ≡ as_matrix (where_sized (shaped r c) (transpose r c (used r c a))) }
{
    let (rows, cols) = sizes::shape(r, c)?;
    Ok(rows::transposed(&a, rows, cols))
}

// The operation, cell by cell, on a and b of the same sizes. Refused with 1, as what follows: a size, or the sizes differ.
fn cellwise<O: Operation>(
    a: [[f64; 4]; 4],
    ar: usize,
    ac: usize,
    b: [[f64; 4]; 4],
    br: usize,
    bc: usize,
) -> Result<[[f64; 4]; 4], Refusal>
    ensures { result ≡ as_matrix (where_sized (alike ar ac br bc) (cellwise O.op ar ac (used ar ac a) (used ar ac b))) }
{
    let (r, c) = sizes::alike(ar, ac, br, bc)?;
    Ok(kernel::cellwise::<O>(&a, &b, r, c))
}

#[tactic(auto, unfolding(algebra::specs::Matrix::add))]
pub fn add_mat(
    a: [[f64; 4]; 4],
    ar: usize,
    ac: usize,
    b: [[f64; 4]; 4],
    br: usize,
    bc: usize,
) -> Result<[[f64; 4]; 4], Refusal>
    ensures { result ≡ as_matrix (where_sized (alike ar ac br bc) (add ar ac (used ar ac a) (used ar ac b))) }
{
    cellwise::<Sum>(a, ar, ac, b, br, bc)
}

#[tactic(auto, unfolding(algebra::specs::Matrix::sub))]
pub fn sub_mat(
    a: [[f64; 4]; 4],
    ar: usize,
    ac: usize,
    b: [[f64; 4]; 4],
    br: usize,
    bc: usize,
) -> Result<[[f64; 4]; 4], Refusal>
    ensures { result ≡ as_matrix (where_sized (alike ar ac br bc) (sub ar ac (used ar ac a) (used ar ac b))) }
{
    cellwise::<Difference>(a, ar, ac, b, br, bc)
}

// Each of the four rows times s.
#[tactic(auto, unfolding(algebra::specs::Matrix::scale, algebra::specs::Matrix::vec_scale))]
fn scaled(a: &[[f64; 4]; 4], s: f64) -> [[f64; 4]; 4]
    ensures { result ≡ scale 4 4 a.now s }
{
    let r0 = rows::row_scaled(a[0], s);
    let r1 = rows::row_scaled(a[1], s);
    let r2 = rows::row_scaled(a[2], s);
    let r3 = rows::row_scaled(a[3], s);
    [r0, r1, r2, r3]
}

// Each cell of a times s. Refused with 1: a size.
pub fn scale(a: [[f64; 4]; 4], r: usize, c: usize, s: f64) -> Result<[[f64; 4]; 4], Refusal>
    ensures { result ≡ as_matrix (where_sized (shaped r c) (scale r c (used r c a) s)) }
{
    let m = scaled(&a, s);
    part_of(&m, r, c)
}

// a scaled by -1: a product in each cell, not a flipped sign. Refused with 1: a size.
#[tactic(auto, unfolding(algebra::specs::Matrix::negated))]
pub fn neg(a: [[f64; 4]; 4], r: usize, c: usize) -> Result<[[f64; 4]; 4], Refusal>
    ensures { result ≡ as_matrix (where_sized (shaped r c) (negated r c (used r c a))) }
{
    scale(a, r, c, -1.0)
}

// The cell in row i, column j. Refused with 1: a size, or the cell is not in the used part.
pub fn get(a: [[f64; 4]; 4], r: usize, c: usize, i: usize, j: usize) -> Result<f64, Refusal>
    ensures { result ≡ where_sized (inside r c i j) (cell (used r c a) i j) }
{
    sizes::inside(r, c, i, j)?;
    Ok(a[i][j])
}

// a with val in row i, column j. Refused as get.
pub fn set(
    a: [[f64; 4]; 4],
    r: usize,
    c: usize,
    i: usize,
    j: usize,
    val: f64,
) -> Result<[[f64; 4]; 4], Refusal>
    ensures { result ≡ as_matrix (where_sized (inside r c i j) (set_cell r c i j val (used r c a))) }
{
    let (rows, cols) = sizes::inside(r, c, i, j)?;
    let mut out = rows::used_part(&a, rows, cols);
    out[i][j] = val;
    Ok(out)
}

// ---- sums over cells

// s, and the squares of the first n numbers of a row added to it.
fn squares_row(v: [f64; 4], n: Size, s: f64) -> f64
    ensures { result ≡ sum_from s (count n) (λ j. at v j ⊗ at v j) }
{
    let mut t = s;
    for x in &v[..usize::from(n)] {
        t = t + *x * *x;
    }
    t
}

// One sum over the squares of all used cells, row after row.
fn sum_of_squares(a: &[[f64; 4]; 4], r: Size, c: Size) -> f64
    ensures { result ≡ squares (count r) (count c) (part r c a.now) }
{
    let mut s = 0.0;
    for row in &a[..usize::from(r)] {
        s = squares_row(*row, c, s);
    }
    s
}

// The Frobenius norm, the root of the sum of the squares. Refused with 1: a size.
pub fn frob_norm(a: [[f64; 4]; 4], r: usize, c: usize) -> Result<f64, Refusal>
    ensures { result ≡ where_sized (shaped r c) (frob_norm r c (used r c a)) }
{
    let (rows, cols) = sizes::shape(r, c)?;
    Ok(ControlScalar::sqrt(sum_of_squares(&a, rows, cols)))
}

// The sum of the diagonal, from +0 on.
fn diagonal_sum(a: &[[f64; 4]; 4], n: Size) -> f64
    ensures { result ≡ trace (count n) (part n n a.now) }
{
    let rows = usize::from(n);
    let mut t = 0.0;
    // The index is both row and column.
    for i in 0..rows {
        t = t + a[i][i];
    }
    t
}

// The sum of the diagonal of a, n rows and columns. Refused with 1: the size.
#[tactic(auto, using(matrix::proofs::Results::size_given))]
pub fn trace(a: [[f64; 4]; 4], n: usize) -> Result<f64, Refusal>
    ensures { result ≡ where_sized (sized n) (trace n (used n n a)) }
{
    let k = Size::try_from(n)?;
    Ok(diagonal_sum(&a, k))
}

// ---- comparison

// Whether the first n numbers of two rows are equal, as f64's ==.
fn equal_row(v: [f64; 4], w: [f64; 4], n: Size) -> bool
    ensures { result ≡ every (count n) (λ j. eq (at v j) (at w j)) }
{
    let cols = usize::from(n);
    v[..cols] == w[..cols]
}

// Whether all used cells are equal.
fn equal_rows<'a>(a: &'a [[f64; 4]; 4], b: &'a [[f64; 4]; 4], r: Size, c: Size) -> bool
    ensures { result ≡ equal (count r) (count c) (part r c a.now) (part r c b.now) }
{
    let rows = usize::from(r);
    // The index goes through a and b in step.
    for i in 0..rows {
        if !equal_row(a[i], b[i], c) {
            return false;
        }
    }
    true
}

// Whether a and b are equal, as f64's ==, which is no equivalence: -0 equals +0, and a NaN equals nothing. Refused as add_mat.
pub fn eq(
    a: [[f64; 4]; 4],
    ar: usize,
    ac: usize,
    b: [[f64; 4]; 4],
    br: usize,
    bc: usize,
) -> Result<bool, Refusal>
    ensures { result ≡ where_sized (alike ar ac br bc) (equal ar ac (used ar ac a) (used ar ac b)) }
{
    let (r, c) = sizes::alike(ar, ac, br, bc)?;
    Ok(equal_rows(&a, &b, r, c))
}

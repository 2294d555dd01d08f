// The operations on matrices and vectors behind references, for the crates above: no matrix is copied. A size is 1 to 4 by its
// type, so nothing here is tested, and told apart by `<`, as in crates/rows.
#![tactic(auto)]

ghost use Rattle.std.specs.Prelude.{◌≡◌, cond, ◌+◌, ◌≤◌, leb};
ghost use Rattle.scalar.specs.Number.{+0};
ghost use Rattle.answer.specs.Table.{table};
ghost use Rattle.algebra.specs.Matrix.{at, identity, add, sub, mul, matvec, vec_add, vec_sub, dot as dot_of};
ghost use Rattle.algebra.specs.Array.{pad_row, pad, rows_of_flat, flat_of_rows};
ghost use Rattle.sizes.specs.Size.{count, front, part};
ghost use Rattle.rows.specs.Row.{pairwise, cellwise};

use rows::{
    Difference, Operation, Sum, leading, leading_rows, row_pairwise, row_product,
    row_product_transposed, used_part,
};
use sizes::Size;

// ---- matrices

// a, of r rows and k columns, times b, of k rows and c columns.
pub fn product<'a>(
    a: &'a [[f64; 4]; 4],
    b: &'a [[f64; 4]; 4],
    r: Size,
    k: Size,
    c: Size,
) -> [[f64; 4]; 4]
    ensures { result ≡ pad (mul (count r) (count k) (count c) (part r k a.now) (part k c b.now)) }
{
    let none = [0.0; 4];
    let rows = usize::from(r);
    let r0 = leading(row_product(a[0], b, k), c);
    if rows < 2 {
        return [r0, none, none, none];
    }
    let r1 = leading(row_product(a[1], b, k), c);
    if rows < 3 {
        return [r0, r1, none, none];
    }
    let r2 = leading(row_product(a[2], b, k), c);
    if rows < 4 {
        return [r0, r1, r2, none];
    }
    let r3 = leading(row_product(a[3], b, k), c);
    [r0, r1, r2, r3]
}

// The operation, cell by cell; a and b of r rows and c columns.
pub fn cellwise<'a, O: Operation>(
    a: &'a [[f64; 4]; 4],
    b: &'a [[f64; 4]; 4],
    r: Size,
    c: Size,
) -> [[f64; 4]; 4]
    ensures { result ≡ pad (cellwise O.op (count r) (count c) (part r c a.now) (part r c b.now)) }
{
    let r0 = row_pairwise::<O>(a[0], b[0]);
    let r1 = row_pairwise::<O>(a[1], b[1]);
    let r2 = row_pairwise::<O>(a[2], b[2]);
    let r3 = row_pairwise::<O>(a[3], b[3]);
    leading_rows(r0, r1, r2, r3, r, c)
}

#[tactic(auto, unfolding(algebra::specs::Matrix::add))]
pub fn sum<'a>(a: &'a [[f64; 4]; 4], b: &'a [[f64; 4]; 4], r: Size, c: Size) -> [[f64; 4]; 4]
    ensures { result ≡ pad (add (count r) (count c) (part r c a.now) (part r c b.now)) }
{
    cellwise::<Sum>(a, b, r, c)
}

// a - b.
#[tactic(auto, unfolding(algebra::specs::Matrix::sub))]
pub fn difference<'a>(a: &'a [[f64; 4]; 4], b: &'a [[f64; 4]; 4], r: Size, c: Size) -> [[f64; 4]; 4]
    ensures { result ≡ pad (sub (count r) (count c) (part r c a.now) (part r c b.now)) }
{
    cellwise::<Difference>(a, b, r, c)
}

// The identity of four rows.
#[tactic(auto, unfolding(algebra::specs::Matrix::identity))]
pub fn identity_rows() -> [[f64; 4]; 4]
    ensures { result ≡ identity 4 }
{
    let r0 = [1.0, 0.0, 0.0, 0.0];
    let r1 = [0.0, 1.0, 0.0, 0.0];
    let r2 = [0.0, 0.0, 1.0, 0.0];
    let r3 = [0.0, 0.0, 0.0, 1.0];
    [r0, r1, r2, r3]
}

// ---- vectors

// a, of r rows and n columns, times v, of n components.
pub fn product_vector<'a>(a: &'a [[f64; 4]; 4], v: &'a [f64; 4], r: Size, n: Size) -> [f64; 4]
    ensures { result ≡ pad_row (matvec (count r) (count n) (part r n a.now) (front n v.now)) }
{
    leading(row_product_transposed(*v, a, n), r)
}

// The operation, number by number; v and w of n components.
pub fn pairwise<O: Operation>(v: [f64; 4], w: [f64; 4], n: Size) -> [f64; 4]
    ensures { result ≡ pad_row (pairwise O.op (count n) (front n v) (front n w)) }
{
    leading(row_pairwise::<O>(v, w), n)
}

#[tactic(auto, unfolding(algebra::specs::Matrix::vec_add))]
pub fn vector_sum(v: [f64; 4], w: [f64; 4], n: Size) -> [f64; 4]
    ensures { result ≡ pad_row (vec_add (count n) (front n v) (front n w)) }
{
    pairwise::<Sum>(v, w, n)
}

#[tactic(auto, unfolding(algebra::specs::Matrix::vec_sub))]
pub fn vector_difference(v: [f64; 4], w: [f64; 4], n: Size) -> [f64; 4]
    ensures { result ≡ pad_row (vec_sub (count n) (front n v) (front n w)) }
{
    pairwise::<Difference>(v, w, n)
}

// The sum of the first n products of v and w; +0 where n is above 4.
pub fn dot<'a>(v: &'a [f64; 4], w: &'a [f64; 4], n: usize) -> f64
    ensures { result ≡ cond (leb n 4) (dot_of n v.now w.now) +0 }
{
    let mut s = 0.0;
    if n <= 4 {
        // The index goes through v and w in step.
        for i in 0..n {
            s = s + v[i] * w[i];
        }
    }
    s
}

// ---- a record's flat cells

// The four numbers from place k on.
fn four_from(f: &[f64; 16], k: usize) -> [f64; 4]
    requires { k ≤ 12 }
    ensures { result ≡ table 4 (λ j. at f.now (k + j)) }
{
    [f[k], f[k + 1], f[k + 2], f[k + 3]]
}

// Row i is numbers 4 i to 4 i + 3.
#[tactic(auto, unfolding(algebra::specs::Array::rows_of_flat, algebra::specs::Array::used_flat))]
pub fn from_flat(cells: &[f64; 16]) -> [[f64; 4]; 4]
    ensures { result ≡ rows_of_flat cells.now }
{
    let r0 = four_from(cells, 0);
    let r1 = four_from(cells, 4);
    let r2 = four_from(cells, 8);
    let r3 = four_from(cells, 12);
    [r0, r1, r2, r3]
}

// The rows, one after another.
pub fn to_flat(rows: &[[f64; 4]; 4]) -> [f64; 16]
    ensures { result ≡ flat_of_rows rows.now }
{
    let mut out = [0.0; 16];
    // The index tells row and column: `as_flattened` does not say how long rows behind a reference are.
    for n in 0..16 {
        out[n] = rows[n / 4][n % 4];
    }
    out
}

// The used part of an array of rows, flat, +0 outside.
pub fn flat_part(a: &[[f64; 4]; 4], r: Size, c: Size) -> [f64; 16]
    ensures { result ≡ flat_of_rows (pad (part r c a.now)) }
{
    let rows = used_part(a, r, c);
    to_flat(&rows)
}

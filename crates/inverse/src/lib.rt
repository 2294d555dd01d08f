// `inv` of src/core/matrix.rs: Gauss and Jordan's elimination with partial pivoting, in place on two arrays of rows.
// Cells outside the used n by n part are ignored on entry, take part in no used cell, and are +0 in the result.
#![tactic(auto)]

ghost use Rattle.std.specs.Prelude.{◌≡◌, ◌<◌, ◌≤◌, ◌-◌, suc, length};
ghost use Rattle.answer.specs.Answer.{if_sized};
ghost use Rattle.answer.specs.Table.{table};
ghost use Rattle.algebra.specs.Matrix.{cell, one_by_one, two_by_two};
ghost use Rattle.algebra.specs.Array.{used};
ghost use Rattle.algebra.specs.Inverse.{pivot_row, inv as inv_of};
ghost use Rattle.sizes.specs.Size.{count, part, sized};
ghost use Rattle.matrix.specs.Result.{as_matrix};
ghost use Rattle.inverse.specs.Rows.{Swap, Scale, Reduce, Bring, Clear, Swept};

use answer::Refusal;
use scalar::ControlScalar;
use sizes::Size;
use small_inverse::{inverse_number, inverse_two, no_pivot};

// ---- the pivot

// The first row, from the diagonal down, of largest magnitude in column col.
#[inline(always)]
#[tactic(auto, using(crate::proofs::Pivots::searches, sizes::proofs::Sizes::bounds))]
fn pivot_row(a: &[[f64; 4]; 4], n: Size, col: usize) -> usize
    requires { col < count n }
    ensures { (result ≡ pivot_row a.now col (count n - suc col)) × (result < count n) }
{
    let rows = usize::from(n);
    let mut p = col;
    let mut largest = ControlScalar::abs(a[col][col]);
    // The index is what is told; the end is a literal, so that a compiler writes the turns out, and a row past n is passed by.
    for i in col + 1..4 {
        if i < rows {
            let x = ControlScalar::abs(a[i][col]);
            if x > largest {
                largest = x;
                p = i;
            }
        }
    }
    p
}

// ---- operations on rows, over all four columns

// m, its rows p and q exchanged.
fn swapped(m: [[f64; 4]; 4], p: usize, q: usize) -> [[f64; 4]; 4]
    requires { (p < 4) × (q < 4) }
    ensures { Swap p q m result }
{
    let mut r = m;
    r[p] = m[q];
    r[q] = m[p];
    r
}

// Row col times s.
fn scale_row(m: &mut [[f64; 4]; 4], col: usize, s: f64)
    requires { col < 4 }
    ensures { Scale col s m.old m.new }
{
    m[col] = rows::row_scaled(m[col], s);
}

// The factors of the rows: what stands in column col.
fn column_of(m: &[[f64; 4]; 4], col: usize) -> [f64; 4]
    requires { col < 4 }
    ensures { result ≡ table 4 (λ i. cell m.now i col) }
{
    [m[0][col], m[1][col], m[2][col], m[3][col]]
}

// Each row i but col less f[i] times row col.
#[inline(always)]
#[tactic(auto, using(crate::proofs::Rows::reductions))]
fn reduce_rows(m: &mut [[f64; 4]; 4], col: usize, f: [f64; 4])
    requires { (col < 4) × (length m.old ≡ 4) }
    ensures { Reduce col f m.old m.new }
{
    let w = m[col];
    // The index is a row of m and a number of f, and tells row col, which stays.
    for i in 0..4 {
        if i != col {
            let v = m[i];
            let g = f[i];
            m[i] = [
                v[0] - g * w[0],
                v[1] - g * w[1],
                v[2] - g * w[2],
                v[3] - g * w[3],
            ];
        }
    }
}

// ---- the elimination, on four rows for every n: a row past n takes part in no other. Where col is a literal, a compiler
// writes the loops out, and keeps both arrays in registers, but for an exchange, which goes by a copy.

// The pivot of column col comes to the diagonal.
#[inline(always)]
fn bring_pivot(left: &mut [[f64; 4]; 4], right: &mut [[f64; 4]; 4], n: Size, col: usize)
    requires { (col < count n) × (length left.old ≡ 4) × (length right.old ≡ 4) }
    ensures { Bring (count n) col left.old right.old left.new right.new }
{
    let p = pivot_row(left, n, col);
    if p == col {
        return;
    }
    let l = swapped(*left, p, col);
    *left = l;
    let r = swapped(*right, p, col);
    *right = r;
}

// Column col of left, whose pivot is on the diagonal, becomes that of the identity.
#[inline(always)]
fn clear_column(left: &mut [[f64; 4]; 4], right: &mut [[f64; 4]; 4], col: usize)
    requires { (col < 4) × (length left.old ≡ 4) × (length right.old ≡ 4) }
    ensures { Clear col left.old right.old left.new right.new }
{
    let s = 1.0 / left[col][col];
    scale_row(left, col, s);
    scale_row(right, col, s);
    let f = column_of(left, col);
    reduce_rows(left, col, f);
    reduce_rows(right, col, f);
}

// The next column, col, becomes that of the identity. Refused as singular: it has no pivot.
#[inline(always)]
fn sweep(
    left: &mut [[f64; 4]; 4],
    right: &mut [[f64; 4]; 4],
    n: Size,
    col: usize,
) -> Result<(), Refusal>
    requires { (col < count n) × (length left.old ≡ 4) × (length right.old ≡ 4) }
    ensures { Swept (count n) col left.old right.old left.new right.new result }
{
    bring_pivot(left, right, n, col);
    if no_pivot(left[col][col]) {
        return Err(Refusal::SingularMatrix);
    }
    clear_column(left, right, col);
    Ok(())
}

// Left is on its way to the identity, and right from the identity to the inverse. Left is a copy of a row
// by row: so it is known to have four. The columns stand one by one, as literals: a loop over them takes twice the time.
fn eliminate(a: &[[f64; 4]; 4], n: Size) -> Result<[[f64; 4]; 4], Refusal>
    requires { 3 ≤ count n }
    ensures { result ≡ as_matrix (inv_of (count n) (part n n a.now)) }
{
    let mut left = [a[0], a[1], a[2], a[3]];
    let mut right = kernel::identity_rows();
    sweep(&mut left, &mut right, n, 0)?;
    sweep(&mut left, &mut right, n, 1)?;
    sweep(&mut left, &mut right, n, 2)?;
    if usize::from(n) < 4 {
        return Ok(rows::used_part(&right, Size::Three, Size::Three));
    }
    sweep(&mut left, &mut right, n, 3)?;
    Ok(rows::used_part(&right, Size::Four, Size::Four))
}

// ---- the sizes 1 and 2, straight-line

#[tactic(auto, using(small_inverse::proofs::Two::number_is), unfolding(algebra::specs::Array::pad))]
fn of_one(x: f64) -> Result<[[f64; 4]; 4], Refusal>
    ensures { result ≡ as_matrix (inv_of 1 (one_by_one x)) }
{
    let w = inverse_number(x)?;
    let none = [0.0; 4];
    Ok([[w, 0.0, 0.0, 0.0], none, none, none])
}

#[tactic(auto, using(small_inverse::proofs::Two::two_read), unfolding(algebra::specs::Array::pad, algebra::specs::Array::used, algebra::specs::Array::cut))]
fn of_two(a: f64, b: f64, c: f64, d: f64) -> Result<[[f64; 4]; 4], Refusal>
    ensures { result ≡ as_matrix (inv_of 2 (two_by_two a b c d)) }
{
    let [[e, f], [g, h]] = inverse_two(a, b, c, d)?;
    let none = [0.0; 4];
    Ok([[e, f, 0.0, 0.0], [g, h, 0.0, 0.0], none, none])
}

// ---- the entries. Both choose by size, and only the elimination takes an address and gives a whole matrix
// back: where an entry is inlined, the compiler then keeps the numbers of the sizes 1 and 2 in registers.

// All four rows, read number by number: so a caller's copy of them is not one block of memory for every size.
#[tactic(auto, unfolding(algebra::specs::Array::used, algebra::specs::Array::cut))]
fn read_again(m: [[f64; 4]; 4]) -> [[f64; 4]; 4]
    ensures { result ≡ used 4 4 m }
{
    [
        rows::leading(m[0], Size::Four),
        rows::leading(m[1], Size::Four),
        rows::leading(m[2], Size::Four),
        rows::leading(m[3], Size::Four),
    ]
}

// The inverse of the n by n matrix a, lent. Refused as singular: a column has no pivot.
#[tactic(auto, using(crate::proofs::Elimination::inv_at), unfolding(algebra::specs::Array::used, algebra::specs::Array::cut))]
pub fn inverse_of(a: &[[f64; 4]; 4], n: Size) -> Result<[[f64; 4]; 4], Refusal>
    ensures { result ≡ as_matrix (inv_of (count n) (part n n a.now)) }
{
    match n {
        Size::One => of_one(a[0][0]),
        Size::Two => of_two(a[0][0], a[0][1], a[1][0], a[1][1]),
        Size::Three | Size::Four => eliminate(a, n),
    }
}

// The same, by value. Refused too: n is no size.
pub fn inv(a: [[f64; 4]; 4], n: usize) -> Result<[[f64; 4]; 4], Refusal>
    ensures { result ≡ as_matrix (if_sized (sized n) (inv_of n (used n n a))) }
{
    let size = Size::try_from(n)?;
    match size {
        Size::One => of_one(a[0][0]),
        Size::Two => of_two(a[0][0], a[0][1], a[1][0], a[1][1]),
        Size::Three | Size::Four => {
            let lent = a;
            Ok(read_again(eliminate(&lent, size)?))
        }
    }
}

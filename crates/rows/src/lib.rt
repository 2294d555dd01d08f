// Rows of four numbers and matrices of four rows behind references, for the crates above: no matrix is copied. A size is 1 to 4
// by its type, so nothing here is tested. Sizes are told apart by `<`: a compiler makes compares of it, and of `==` and `match`
// a table of jumps.
#![tactic(auto)]

ghost use Rattle.std.specs.Prelude.{◌≡◌, cond, [], ◌∷◌, ◌<◌, eqb, Float};
ghost use Rattle.scalar.specs.Number.{◌⊕◌, ◌⊖◌};
ghost use Rattle.answer.specs.Table.{table};
ghost use Rattle.algebra.specs.Matrix.{at, cell, transpose, vec_add, vec_sub, vec_scale};
ghost use Rattle.algebra.specs.Array.{pad_row, pad};
ghost use Rattle.sizes.specs.Size.{count, front, part};
ghost use Rattle.rows.specs.Row.{pairwise, plus_scaled, row_times, row_times_transposed};

use sizes::Size;

// ---- an operation on two numbers, which rounds once

pub trait Operation {
    ghost op: { Float → Float → Float };

    fn of(x: f64, y: f64) -> f64
        ensures { result ≡ op x y };
}

pub struct Sum;

impl Operation for Sum {
    ghost op = { λ x y. x ⊕ y };

    fn of(x: f64, y: f64) -> f64 {
        x + y
    }
}

pub struct Difference;

impl Operation for Difference {
    ghost op = { λ x y. x ⊖ y };

    fn of(x: f64, y: f64) -> f64 {
        x - y
    }
}

// ---- rows: all four numbers

// The operation, number by number.
pub fn row_pairwise<O: Operation>(v: [f64; 4], w: [f64; 4]) -> [f64; 4]
    ensures { result ≡ pairwise O.op 4 v w }
{
    [
        O::of(v[0], w[0]),
        O::of(v[1], w[1]),
        O::of(v[2], w[2]),
        O::of(v[3], w[3]),
    ]
}

#[tactic(auto, unfolding(algebra::specs::Matrix::vec_add))]
pub fn row_sum(v: [f64; 4], w: [f64; 4]) -> [f64; 4]
    ensures { result ≡ vec_add 4 v w }
{
    row_pairwise::<Sum>(v, w)
}

#[tactic(auto, unfolding(algebra::specs::Matrix::vec_sub))]
pub fn row_difference(v: [f64; 4], w: [f64; 4]) -> [f64; 4]
    ensures { result ≡ vec_sub 4 v w }
{
    row_pairwise::<Difference>(v, w)
}

// Each number times s.
#[tactic(auto, unfolding(algebra::specs::Matrix::vec_scale))]
pub fn row_scaled(v: [f64; 4], s: f64) -> [f64; 4]
    ensures { result ≡ vec_scale 4 v s }
{
    [v[0] * s, v[1] * s, v[2] * s, v[3] * s]
}

// The first n numbers of v, then +0.
pub fn leading(v: [f64; 4], n: Size) -> [f64; 4]
    ensures { result ≡ pad_row (front n v) }
{
    let k = usize::from(n);
    if k < 2 {
        return [v[0], 0.0, 0.0, 0.0];
    }
    if k < 3 {
        return [v[0], v[1], 0.0, 0.0];
    }
    if k < 4 {
        return [v[0], v[1], v[2], 0.0];
    }
    [v[0], v[1], v[2], v[3]]
}

// x where t holds, and else y. It compiles to a choice and no jump, so that nothing has to be read back from memory.
pub fn pick(t: bool, x: f64, y: f64) -> f64
    ensures { result ≡ cond t x y }
{
    if t { x } else { y }
}

// v with x in place i.
pub fn row_with(v: [f64; 4], i: usize, x: f64) -> [f64; 4]
    ensures { result ≡ table 4 (λ j. cond (eqb i j) x (at v j)) }
{
    let r0 = pick(i == 0, x, v[0]);
    let r1 = pick(i == 1, x, v[1]);
    let r2 = pick(i == 2, x, v[2]);
    let r3 = pick(i == 3, x, v[3]);
    [r0, r1, r2, r3]
}

// Column j, as a row.
fn column(a: &[[f64; 4]; 4], j: usize) -> [f64; 4]
    requires { j < 4 }
    ensures { result ≡ table 4 (λ i. cell a.now i j) }
{
    [a[0][j], a[1][j], a[2][j], a[3][j]]
}

// s + x v
#[tactic(auto, unfolding(crate::specs::Row::plus_scaled))]
fn row_plus_scaled(s: [f64; 4], x: f64, v: [f64; 4]) -> [f64; 4]
    ensures { result ≡ plus_scaled s «x» v }
{
    [
        s[0] + x * v[0],
        s[1] + x * v[1],
        s[2] + x * v[2],
        s[3] + x * v[3],
    ]
}

// The rows r0 to r3, of which k are used, each times its number of v: a sum in each of the four columns, which starts
// at +0 and goes over the used k terms.
pub fn combination(
    v: [f64; 4],
    r0: [f64; 4],
    r1: [f64; 4],
    r2: [f64; 4],
    r3: [f64; 4],
    k: Size,
) -> [f64; 4]
    ensures { result ≡ row_times (count k) v (r0 ∷ r1 ∷ r2 ∷ r3 ∷ []) }
{
    let n = usize::from(k);
    let s1 = row_plus_scaled([0.0; 4], v[0], r0);
    if n < 2 {
        return s1;
    }
    let s2 = row_plus_scaled(s1, v[1], r1);
    if n < 3 {
        return s2;
    }
    let s3 = row_plus_scaled(s2, v[2], r2);
    if n < 4 {
        return s3;
    }
    row_plus_scaled(s3, v[3], r3)
}

// v, of k components, times b, in all four columns.
pub fn row_product(v: [f64; 4], b: &[[f64; 4]; 4], k: Size) -> [f64; 4]
    ensures { result ≡ row_times (count k) v b.now }
{
    combination(v, b[0], b[1], b[2], b[3], k)
}

// v times transposed b, likewise.
pub fn row_product_transposed(v: [f64; 4], b: &[[f64; 4]; 4], k: Size) -> [f64; 4]
    ensures { result ≡ row_times_transposed (count k) v b.now }
{
    combination(v, column(b, 0), column(b, 1), column(b, 2), column(b, 3), k)
}

// ---- four rows

// The first r of four rows, and of each the first c numbers; +0 outside.
pub fn leading_rows(
    r0: [f64; 4],
    r1: [f64; 4],
    r2: [f64; 4],
    r3: [f64; 4],
    r: Size,
    c: Size,
) -> [[f64; 4]; 4]
    ensures { result ≡ pad (part r c (r0 ∷ r1 ∷ r2 ∷ r3 ∷ [])) }
{
    let none = [0.0; 4];
    let rows = usize::from(r);
    let s0 = leading(r0, c);
    if rows < 2 {
        return [s0, none, none, none];
    }
    let s1 = leading(r1, c);
    if rows < 3 {
        return [s0, s1, none, none];
    }
    let s2 = leading(r2, c);
    if rows < 4 {
        return [s0, s1, s2, none];
    }
    let s3 = leading(r3, c);
    [s0, s1, s2, s3]
}

// The r rows and c columns that are used, and +0 outside.
pub fn used_part(a: &[[f64; 4]; 4], r: Size, c: Size) -> [[f64; 4]; 4]
    ensures { result ≡ pad (part r c a.now) }
{
    leading_rows(a[0], a[1], a[2], a[3], r, c)
}

// a, of r rows and c columns, transposed.
pub fn transposed(a: &[[f64; 4]; 4], r: Size, c: Size) -> [[f64; 4]; 4]
    ensures { result ≡ pad (transpose (count r) (count c) (part r c a.now)) }
{
    leading_rows(column(a, 0), column(a, 1), column(a, 2), column(a, 3), c, r)
}

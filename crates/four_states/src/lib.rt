// Four states, written out, with four measurements or two: the parts of a step that make a matrix. With the sizes at hand a compiler
// leaves out their tests and takes two numbers at a time, which is quicker than a loop over the rows.
#![tactic(auto)]

ghost use Rattle.std.specs.Prelude.{◌≡◌};
ghost use Rattle.algebra.specs.Matrix.{mul, add, transpose};
ghost use Rattle.algebra.specs.Array.{pad, used};
ghost use Rattle.filtering.specs.Filter.{propagated as propagated_of, gain as gain_of, corrected_covariance};

use sizes::Size;

// A B
fn product<'a>(a: &'a [[f64; 4]; 4], b: &'a [[f64; 4]; 4]) -> [[f64; 4]; 4]
    ensures { result ≡ pad (mul 4 4 4 (used 4 4 a.now) (used 4 4 b.now)) }
{
    let r0 = rows::leading(rows::row_product(a[0], b, Size::Four), Size::Four);
    let r1 = rows::leading(rows::row_product(a[1], b, Size::Four), Size::Four);
    let r2 = rows::leading(rows::row_product(a[2], b, Size::Four), Size::Four);
    let r3 = rows::leading(rows::row_product(a[3], b, Size::Four), Size::Four);
    [r0, r1, r2, r3]
}

// S Aᵀ + Q
fn spread<'a>(s: &'a [[f64; 4]; 4], a: &'a [[f64; 4]; 4], q: &'a [[f64; 4]; 4]) -> [[f64; 4]; 4]
    ensures { result ≡ pad (add 4 4 (mul 4 4 4 (used 4 4 s.now) (transpose 4 4 (used 4 4 a.now))) (used 4 4 q.now)) }
{
    let s0 = rows::row_sum(rows::row_product_transposed(s[0], a, Size::Four), q[0]);
    let s1 = rows::row_sum(rows::row_product_transposed(s[1], a, Size::Four), q[1]);
    let s2 = rows::row_sum(rows::row_product_transposed(s[2], a, Size::Four), q[2]);
    let s3 = rows::row_sum(rows::row_product_transposed(s[3], a, Size::Four), q[3]);
    let r0 = rows::leading(s0, Size::Four);
    let r1 = rows::leading(s1, Size::Four);
    let r2 = rows::leading(s2, Size::Four);
    let r3 = rows::leading(s3, Size::Four);
    [r0, r1, r2, r3]
}

// A P Aᵀ + Q, for an A of four rows
pub fn propagated<'a>(
    a: &'a [[f64; 4]; 4],
    p: &'a [[f64; 4]; 4],
    q: &'a [[f64; 4]; 4],
) -> [[f64; 4]; 4]
    ensures { result ≡ pad (propagated_of 4 4 (used 4 4 a.now) (used 4 4 p.now) (used 4 4 q.now)) }
{
    spread(&product(a, p), a, q)
}

// A P Aᵀ + Q, for an A of two rows
pub fn propagated_two<'a>(
    a: &'a [[f64; 4]; 4],
    p: &'a [[f64; 4]; 4],
    q: &'a [[f64; 4]; 4],
) -> [[f64; 4]; 4]
    ensures { result ≡ pad (propagated_of 2 4 (used 2 4 a.now) (used 4 4 p.now) (used 2 2 q.now)) }
{
    let ap0 = rows::row_product(a[0], p, Size::Four);
    let ap1 = rows::row_product(a[1], p, Size::Four);
    let s0 = rows::row_sum(rows::row_product_transposed(ap0, a, Size::Four), q[0]);
    let s1 = rows::row_sum(rows::row_product_transposed(ap1, a, Size::Four), q[1]);
    let r0 = rows::leading(s0, Size::Two);
    let r1 = rows::leading(s1, Size::Two);
    [r0, r1, [0.0; 4], [0.0; 4]]
}

// P Hᵀ × W, for an H of two rows
pub fn gain<'a>(p: &'a [[f64; 4]; 4], h: &'a [[f64; 4]; 4], w: &'a [[f64; 4]; 4]) -> [[f64; 4]; 4]
    ensures { result ≡ pad (gain_of 4 2 (used 4 4 p.now) (used 2 4 h.now) (used 2 2 w.now)) }
{
    let s0 = rows::row_product_transposed(p[0], h, Size::Four);
    let s1 = rows::row_product_transposed(p[1], h, Size::Four);
    let s2 = rows::row_product_transposed(p[2], h, Size::Four);
    let s3 = rows::row_product_transposed(p[3], h, Size::Four);
    let r0 = rows::leading(rows::row_product(s0, w, Size::Two), Size::Two);
    let r1 = rows::leading(rows::row_product(s1, w, Size::Two), Size::Two);
    let r2 = rows::leading(rows::row_product(s2, w, Size::Two), Size::Two);
    let r3 = rows::leading(rows::row_product(s3, w, Size::Two), Size::Two);
    [r0, r1, r2, r3]
}

// P Hᵀ × W, for an H of four rows
pub fn gain_four<'a>(
    p: &'a [[f64; 4]; 4],
    h: &'a [[f64; 4]; 4],
    w: &'a [[f64; 4]; 4],
) -> [[f64; 4]; 4]
    ensures { result ≡ pad (gain_of 4 4 (used 4 4 p.now) (used 4 4 h.now) (used 4 4 w.now)) }
{
    let s0 = rows::row_product_transposed(p[0], h, Size::Four);
    let s1 = rows::row_product_transposed(p[1], h, Size::Four);
    let s2 = rows::row_product_transposed(p[2], h, Size::Four);
    let s3 = rows::row_product_transposed(p[3], h, Size::Four);
    product(&[s0, s1, s2, s3], w)
}

// (I - K H) × P, for an H of two rows
pub fn corrected_covariance<'a>(
    k: &'a [[f64; 4]; 4],
    h: &'a [[f64; 4]; 4],
    p: &'a [[f64; 4]; 4],
) -> [[f64; 4]; 4]
    ensures { result ≡ pad (corrected_covariance 4 2 (used 4 2 k.now) (used 2 4 h.now) (used 4 4 p.now)) }
{
    let e = kernel::identity_rows();
    let s0 = rows::row_difference(e[0], rows::row_product(k[0], h, Size::Two));
    let s1 = rows::row_difference(e[1], rows::row_product(k[1], h, Size::Two));
    let s2 = rows::row_difference(e[2], rows::row_product(k[2], h, Size::Two));
    let s3 = rows::row_difference(e[3], rows::row_product(k[3], h, Size::Two));
    product(&[s0, s1, s2, s3], p)
}

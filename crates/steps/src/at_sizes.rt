// The parts of a step, once for all sizes. Each is compiled into its callers: where the sizes are literals, a compiler leaves out
// their tests and takes two numbers at a time.
ghost use Rattle.std.specs.Prelude.{◌≡◌, []};
ghost use Rattle.algebra.specs.Array.{pad_row, pad};
ghost use Rattle.sizes.specs.Size.{count, front, part};
ghost use Rattle.filtering.specs.Filter.{predicted_state, propagated as propagated_of, innovation as innovation_of, gain as gain_of, corrected_state};
ghost use Rattle.steps.specs.Step.{motion_rows};

use sizes::Size;

#[inline(always)]
pub fn predicted_state<'a>(
    a: &'a [[f64; 4]; 4],
    b: &'a [[f64; 4]; 4],
    x: &'a [f64; 4],
    u: &'a [f64; 4],
    n: Size,
    i: Size,
) -> [f64; 4]
    ensures { result ≡ pad_row (predicted_state (motion_rows n i a.now b.now []) (front i u.now) (front n x.now)) }
{
    let ax = rows::row_product_transposed(*x, a, n);
    let bu = rows::row_product_transposed(*u, b, i);
    rows::leading(rows::row_sum(ax, bu), n)
}

#[inline(always)]
pub fn propagated<'a>(
    a: &'a [[f64; 4]; 4],
    p: &'a [[f64; 4]; 4],
    q: &'a [[f64; 4]; 4],
    r: Size,
    n: Size,
) -> [[f64; 4]; 4]
    ensures { result ≡ pad (propagated_of (count r) (count n) (part r n a.now) (part n n p.now) (part r r q.now)) }
{
    let mut out = [[0.0; 4]; 4];
    // The index is a row of A, of Q and of what is made.
    for i in 0..usize::from(r) {
        let ap = rows::row_product(a[i], p, n);
        let apat = rows::row_product_transposed(ap, a, n);
        out[i] = rows::leading(rows::row_sum(apat, q[i]), r);
    }
    out
}

#[inline(always)]
pub fn innovation<'a>(
    h: &'a [[f64; 4]; 4],
    x: &'a [f64; 4],
    z: &'a [f64; 4],
    m: Size,
    n: Size,
) -> [f64; 4]
    ensures { result ≡ pad_row (innovation_of (count m) (count n) (part m n h.now) (front n x.now) (front m z.now)) }
{
    let hx = rows::row_product_transposed(*x, h, n);
    rows::leading(rows::row_difference(*z, hx), m)
}

#[inline(always)]
pub fn gain<'a>(
    p: &'a [[f64; 4]; 4],
    h: &'a [[f64; 4]; 4],
    w: &'a [[f64; 4]; 4],
    n: Size,
    m: Size,
) -> [[f64; 4]; 4]
    ensures { result ≡ pad (gain_of (count n) (count m) (part n n p.now) (part m n h.now) (part m m w.now)) }
{
    let mut out = [[0.0; 4]; 4];
    // The index is a row of P and of what is made.
    for i in 0..usize::from(n) {
        let pht = rows::row_product_transposed(p[i], h, n);
        out[i] = rows::leading(rows::row_product(pht, w, m), m);
    }
    out
}

#[inline(always)]
pub fn corrected_state<'a>(
    k: &'a [[f64; 4]; 4],
    y: &'a [f64; 4],
    x: &'a [f64; 4],
    n: Size,
    m: Size,
) -> [f64; 4]
    ensures { result ≡ pad_row (corrected_state (count n) (count m) (part n m k.now) (front m y.now) (front n x.now)) }
{
    let ky = rows::row_product_transposed(*y, k, m);
    rows::leading(rows::row_sum(*x, ky), n)
}

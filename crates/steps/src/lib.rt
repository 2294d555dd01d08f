// The parts of a filter's step, and the steps of the linear filter, on rows that the caller lends, with the operations and the
// order of src/estimator/kalman.rs. Every filter and the smoother call the parts. A size is 1 to 4 by its type, so nothing is
// tested or asked for; each result is made row by row, and no matrix in between is stored.
#![tactic(auto)]

ghost use Rattle.std.specs.Prelude.{◌≡◌, []};
ghost use Rattle.answer.specs.Answer.{where_sized};
ghost use Rattle.algebra.specs.Array.{pad_row, pad};
ghost use Rattle.sizes.specs.Size.{count, size_of, front, part};
ghost use Rattle.filtering.specs.Filter.{predicted_state, propagated as propagated_of, innovation as innovation_of, gain as gain_of, corrected_state, corrected_covariance};
ghost use Rattle.steps.specs.Step.{well_sized, fitting, motion_rows, predict_rows, update_rows};

use answer::Refusal;
use sizes::{Size, is_size, size_of};

mod at_sizes;
pub mod four;

// ---- the sizes of n states, m measurements and i inputs, by their type

// All are 1 to 4.
#[tactic(auto, unfolding(crate::specs::Step::well_sized))]
pub fn sized(n: usize, m: usize, i: usize) -> Result<(Size, Size, Size), Refusal>
    ensures { result ≡ where_sized (well_sized n m i) (size_of n, size_of m, size_of i) }
{
    sizes::fits(is_size(n) & (is_size(m) & is_size(i)))?;
    Ok((size_of(n), size_of(m), size_of(i)))
}

// And the k numbers that come with a call are as many as are asked for.
#[tactic(auto, unfolding(crate::specs::Step::fitting))]
pub fn fitted(
    n: usize,
    m: usize,
    i: usize,
    asked: usize,
    k: usize,
) -> Result<(Size, Size, Size), Refusal>
    ensures { result ≡ where_sized (fitting n m i asked k) (size_of n, size_of m, size_of i) }
{
    let by_type = sized(n, m, i)?;
    sizes::fits(asked == k)?;
    Ok(by_type)
}

// ---- the parts

// A x + B u
pub fn predicted_state<'a>(
    a: &'a [[f64; 4]; 4],
    b: &'a [[f64; 4]; 4],
    x: &'a [f64; 4],
    u: &'a [f64; 4],
    n: Size,
    i: Size,
) -> [f64; 4]
    ensures { result ≡ pad_row (predicted_state (motion_rows n i a.now b.now []) (front i u.now) (front n x.now)) }
{
    if let (Size::Four, Size::Two) = (n, i) {
        at_sizes::predicted_state(a, b, x, u, Size::Four, Size::Two)
    } else {
        at_sizes::predicted_state(a, b, x, u, n, i)
    }
}

// A P Aᵀ + Q, for an A of r rows and n columns
pub fn propagated<'a>(
    a: &'a [[f64; 4]; 4],
    p: &'a [[f64; 4]; 4],
    q: &'a [[f64; 4]; 4],
    r: Size,
    n: Size,
) -> [[f64; 4]; 4]
    ensures { result ≡ pad (propagated_of (count r) (count n) (part r n a.now) (part n n p.now) (part r r q.now)) }
{
    if let (Size::Four, Size::Four) = (r, n) {
        four_states::propagated(a, p, q)
    } else {
        at_sizes::propagated(a, p, q, r, n)
    }
}

// z - H x, for an H of m rows and n columns
pub fn innovation<'a>(
    h: &'a [[f64; 4]; 4],
    x: &'a [f64; 4],
    z: &'a [f64; 4],
    m: Size,
    n: Size,
) -> [f64; 4]
    ensures { result ≡ pad_row (innovation_of (count m) (count n) (part m n h.now) (front n x.now) (front m z.now)) }
{
    if let (Size::Four, Size::Two) = (n, m) {
        at_sizes::innovation(h, x, z, Size::Two, Size::Four)
    } else {
        at_sizes::innovation(h, x, z, m, n)
    }
}

// P Hᵀ × W, for an H of m rows and n columns: a filter's gain, and a smoother's, whose H is the transition
pub fn gain<'a>(
    p: &'a [[f64; 4]; 4],
    h: &'a [[f64; 4]; 4],
    w: &'a [[f64; 4]; 4],
    n: Size,
    m: Size,
) -> [[f64; 4]; 4]
    ensures { result ≡ pad (gain_of (count n) (count m) (part n n p.now) (part m n h.now) (part m m w.now)) }
{
    if let (Size::Four, Size::Four) = (n, m) {
        four_states::gain_four(p, h, w)
    } else {
        at_sizes::gain(p, h, w, n, m)
    }
}

// x + K y
pub fn corrected_state<'a>(
    k: &'a [[f64; 4]; 4],
    y: &'a [f64; 4],
    x: &'a [f64; 4],
    n: Size,
    m: Size,
) -> [f64; 4]
    ensures { result ≡ pad_row (corrected_state (count n) (count m) (part n m k.now) (front m y.now) (front n x.now)) }
{
    if let (Size::Four, Size::Two) = (n, m) {
        at_sizes::corrected_state(k, y, x, Size::Four, Size::Two)
    } else {
        at_sizes::corrected_state(k, y, x, n, m)
    }
}

// (I - K H) × P
pub fn corrected_covariance<'a>(
    k: &'a [[f64; 4]; 4],
    h: &'a [[f64; 4]; 4],
    p: &'a [[f64; 4]; 4],
    n: Size,
    m: Size,
) -> [[f64; 4]; 4]
    ensures { result ≡ pad (corrected_covariance (count n) (count m) (part n m k.now) (part m n h.now) (part n n p.now)) }
{
    let e = kernel::identity_rows();
    let mut out = [[0.0; 4]; 4];
    // The index is a row of the gain, of the identity and of what is made.
    for i in 0..usize::from(n) {
        let kh = rows::row_product(k[i], h, m);
        let rest = rows::row_difference(e[i], kh);
        out[i] = rows::leading(rows::row_product(rest, p, n), n);
    }
    out
}

// ---- the steps of the linear filter. Its matrices are lent one by one: a record of borrowed rows would be made anew at each
// call, which is no plainer.

// x and p one step on, with the input u.
pub fn predict<'a>(
    a: &'a [[f64; 4]; 4],
    b: &'a [[f64; 4]; 4],
    q: &'a [[f64; 4]; 4],
    u: &'a [f64; 4],
    n: Size,
    i: Size,
    x: &mut [f64; 4],
    p: &mut [[f64; 4]; 4],
)
    ensures { (x.new, p.new)
        ≡ predict_rows n i a.now b.now q.now u.now x.old p.old }
{
    *x = predicted_state(a, b, x, u, n, i);
    *p = propagated(a, p, q, n, n);
}

// x and p corrected by the measurement z; the innovation is z less H times the state before. Refused as singular: inversion
// rejects H P Hᵀ + R.
pub fn update<'a>(
    h: &'a [[f64; 4]; 4],
    r: &'a [[f64; 4]; 4],
    z: &'a [f64; 4],
    n: Size,
    m: Size,
    x: &mut [f64; 4],
    p: &mut [[f64; 4]; 4],
) -> Result<[f64; 4], Refusal>
    ensures { (result, (x.new, p.new))
        ≡ update_rows n m h.now r.now z.now x.old p.old }
{
    if let (Size::Four, Size::Two) = (n, m) {
        return four::update(h, r, z, x, p);
    }
    let s = propagated(h, p, r, m, n);
    let w = inverse::inverse_of(&s, m)?;
    let y = innovation(h, x, z, m, n);
    let k = gain(p, h, &w, n, m);
    *x = corrected_state(&k, &y, x, n, m);
    *p = corrected_covariance(&k, h, p, n, m);
    Ok(y)
}

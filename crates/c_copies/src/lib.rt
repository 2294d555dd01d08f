// A filter of state n, measurement m and input i in one slice that the caller lends, a, b, h, q, r, x and p by rows, one after
// another: its sizes and places, and the calls that copy, for every filter of this layout, those of src/estimator/kalman.rs
// among them. Refused: a size, or a slice of another length.
#![tactic(auto)]

ghost use Rattle.std.specs.Prelude.{◌≡◌, ◌≤◌, ℕ, cond, length};
ghost use Rattle.std.proofs.Math.Nat.{le_refl};
ghost use Rattle.answer.specs.Answer.{where_sized};
ghost use Rattle.answer.specs.Told.{written};
ghost use Rattle.sizes.specs.Size.{count};
ghost use Rattle.c_copies.specs.Filter.{places_by, is_filter_by, is_step_by, is_parts_by, new_by, state_by, square_by};
ghost use Rattle.c_copies.specs.Filter.{estimate_place, new_in, reset_in, state_in, covariance_in};
ghost use Rattle.steps.specs.Step.{well_sized};

use answer::Refusal;
use sizes::{Size, fits, is_size, size_of};

// ---- the noise of the measurements

// How many columns r has, for m measurements.
pub trait Noise {
    ghost columns: { ℕ → ℕ };

    fn columns(m: Size) -> usize
        ensures { result ≡ columns (count m) };

    ghost few: { (m : ℕ) → 1 ≤ m → columns m ≤ m };
}

// r is a matrix.
pub struct Full;

impl Noise for Full {
    ghost columns = { λ m. m };

    fn columns(m: Size) -> usize {
        usize::from(m)
    }

    ghost few = { λ m h. le_refl m };
}

// r is a deviation for each measurement.
pub struct Diagonal;

impl Noise for Diagonal {
    ghost columns = { λ m. 1 };

    fn columns(_m: Size) -> usize {
        1
    }

    ghost few = { λ m h. h };
}

// ---- sizes and places

// The sizes of a filter; where each part begins, a at 0; how many numbers n rows of n take, and how many the filter takes.
#[derive(Clone, Copy)]
pub struct Places {
    pub n: Size,
    pub m: Size,
    pub i: Size,
    pub b: usize,
    pub h: usize,
    pub q: usize,
    pub r: usize,
    pub x: usize,
    pub p: usize,
    pub square: usize,
    pub len: usize,
}

// Inlined, as the tests below are, so that literal sizes lead to literal places.
#[inline(always)]
fn place_parts<W: Noise>(n: Size, m: Size, i: Size) -> Places
    ensures { result ≡ places_by W.columns (count n) (count m) (count i) }
{
    let states = usize::from(n);
    let measurements = usize::from(m);
    let square = states * states;
    let h = square + states * usize::from(i);
    let q = h + measurements * states;
    let r = q + square;
    let x = r + measurements * W::columns(m);
    let p = x + states;
    Places {
        n,
        m,
        i,
        b: square,
        h,
        q,
        r,
        x,
        p,
        square,
        len: p + square,
    }
}

// Where the estimate of the linear filter begins; 0 where a number is no size.
pub fn place_of(n: usize, m: usize, i: usize) -> usize
    ensures { result ≡ cond (well_sized n m i) (estimate_place n m i) 0 }
{
    if is_size(n) & (is_size(m) & is_size(i)) {
        place_parts::<Full>(size_of(n), size_of(m), size_of(i)).x
    } else {
        0
    }
}

// The places of a filter, for a slice of just as many numbers, len.
#[tactic(auto, unfolding(crate::specs::Filter::is_filter_by))]
#[inline(always)]
pub fn filter<W: Noise>(n: usize, m: usize, i: usize, len: usize) -> Result<Places, Refusal>
    ensures { result ≡ where_sized (is_filter_by W.columns n m i len) (places_by W.columns n m i) }
{
    let (states, measurements, inputs) = steps::sized(n, m, i)?;
    let at = place_parts::<W>(states, measurements, inputs);
    fits(len == at.len)?;
    Ok(at)
}

// The same, where the k numbers beside it are as many as are asked for.
#[tactic(auto, unfolding(crate::specs::Filter::is_step_by))]
#[inline(always)]
pub fn step<W: Noise>(
    n: usize,
    m: usize,
    i: usize,
    len: usize,
    asked: usize,
    k: usize,
) -> Result<Places, Refusal>
    ensures { result ≡ where_sized (is_step_by W.columns n m i len asked k) (places_by W.columns n m i) }
{
    let at = filter::<W>(n, m, i, len)?;
    fits(k == asked)?;
    Ok(at)
}

// The same, where slices of these lengths are just its parts: the parameters of the C interface, in its order.
#[tactic(auto, unfolding(crate::specs::Filter::is_parts_by))]
#[inline(always)]
pub fn parts<W: Noise>(
    n: usize,
    m: usize,
    i: usize,
    len: usize,
    a: usize,
    b: usize,
    h: usize,
    q: usize,
    r: usize,
    x: usize,
    p: usize,
) -> Result<Places, Refusal>
    ensures { result ≡ where_sized (is_parts_by W.columns n m i len a b h q r x p) (places_by W.columns n m i) }
{
    let at = filter::<W>(n, m, i, len)?;
    let model = (a == at.b) & ((b == at.h - at.b) & (h == at.q - at.h));
    let noise = (q == at.square) & (r == at.x - at.r);
    fits(model & (noise & ((x == n) & (p == at.square))))?;
    Ok(at)
}

// ---- copies, for every noise

// The filter of the parts a, b, h, q, r, x0 and p0, each by rows.
pub fn copy_in<W: Noise>(
    n: usize,
    m: usize,
    i: usize,
    a: &[f64],
    b: &[f64],
    h: &[f64],
    q: &[f64],
    r: &[f64],
    x0: &[f64],
    p0: &[f64],
    filter: &mut [f64],
) -> Result<(), Refusal>
    ensures { (result, filter.new) ≡ written filter.old (new_by W.columns n m i (length filter.old)
        a.now b.now h.now q.now r.now x0.now p0.now) }
{
    let at = parts::<W>(
        n,
        m,
        i,
        filter.len(),
        a.len(),
        b.len(),
        h.len(),
        q.len(),
        r.len(),
        x0.len(),
        p0.len(),
    )?;
    layout::put_slice(filter, 0, a);
    layout::put_slice(filter, at.b, b);
    layout::put_slice(filter, at.h, h);
    layout::put_slice(filter, at.q, q);
    layout::put_slice(filter, at.r, r);
    layout::put_slice(filter, at.x, x0);
    layout::put_slice(filter, at.p, p0);
    Ok(())
}

// The state, n numbers.
pub fn state_out<W: Noise>(
    n: usize,
    m: usize,
    i: usize,
    filter: &[f64],
    out: &mut [f64],
) -> Result<(), Refusal>
    ensures { (result, out.new) ≡ written out.old (state_by W.columns n m i filter.now (length out.old)) }
{
    let at = step::<W>(n, m, i, filter.len(), n, out.len())?;
    layout::put_slice(out, 0, &filter[at.x..at.p]);
    Ok(())
}

// The last part, n rows of n numbers.
#[tactic(auto, unfolding(crate::specs::Filter::is_step_by))]
pub fn square_out<W: Noise>(
    n: usize,
    m: usize,
    i: usize,
    filter: &[f64],
    out: &mut [f64],
) -> Result<(), Refusal>
    ensures { (result, out.new) ≡ written out.old (square_by W.columns n m i filter.now (length out.old)) }
{
    let at = crate::filter::<W>(n, m, i, filter.len())?;
    fits(out.len() == at.square)?;
    layout::put_slice(out, 0, &filter[at.p..at.len]);
    Ok(())
}

// ---- the copies of the linear filter

// The filter of the parts a, b, h, q, r, x0 and p0, each by rows.
pub fn kalman_new(
    n: usize,
    m: usize,
    i: usize,
    a: &[f64],
    b: &[f64],
    h: &[f64],
    q: &[f64],
    r: &[f64],
    x0: &[f64],
    p0: &[f64],
    filter: &mut [f64],
) -> Result<(), Refusal>
    ensures { (result, filter.new) ≡ written filter.old (new_in n m i (length filter.old)
        a.now b.now h.now q.now r.now x0.now p0.now) }
{
    copy_in::<Full>(n, m, i, a, b, h, q, r, x0, p0, filter)
}

// Another state x0 and covariance p0; the model stays.
#[tactic(auto, unfolding(crate::specs::Filter::is_step_with_by))]
pub fn kalman_reset(
    n: usize,
    m: usize,
    i: usize,
    filter: &mut [f64],
    x0: &[f64],
    p0: &[f64],
) -> Result<(), Refusal>
    ensures { (result, filter.new) ≡ written filter.old (reset_in n m i filter.old x0.now p0.now) }
{
    let at = step::<Full>(n, m, i, filter.len(), n, x0.len())?;
    fits(p0.len() == at.square)?;
    layout::put_slice(filter, at.x, x0);
    layout::put_slice(filter, at.p, p0);
    Ok(())
}

// The state, n numbers.
pub fn kalman_state(
    n: usize,
    m: usize,
    i: usize,
    filter: &[f64],
    out: &mut [f64],
) -> Result<(), Refusal>
    ensures { (result, out.new) ≡ written out.old (state_in n m i filter.now (length out.old)) }
{
    state_out::<Full>(n, m, i, filter, out)
}

// The covariance, n rows of n numbers.
pub fn kalman_covariance(
    n: usize,
    m: usize,
    i: usize,
    filter: &[f64],
    out: &mut [f64],
) -> Result<(), Refusal>
    ensures { (result, out.new) ≡ written out.old (covariance_in n m i filter.now (length out.old)) }
{
    square_out::<Full>(n, m, i, filter, out)
}

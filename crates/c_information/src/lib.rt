// src/estimator/information_filter.rs on a slice that the caller lends: a filter of state n, measurement m and input i is a, b,
// h, q, r, xi and omega by rows, one after another, as a linear filter is with its state and covariance. Its steps stand in
// c_information_steps. Refused: a size, or a slice of another length.
#![tactic(auto)]

ghost use Rattle.std.specs.Prelude.{◌≡◌, length};
ghost use Rattle.answer.specs.Outcome.{into, handed};
ghost use Rattle.answer.specs.Told.{written};
ghost use Rattle.algebra.specs.Array.{pad_row, pad};
ghost use Rattle.sizes.specs.Size.{count};
ghost use Rattle.filtering.specs.Information.{of_estimate};
ghost use Rattle.layout.specs.Layout.{vector_in as vector_read, matrix_in as matrix_read};
ghost use Rattle.steps.specs.Step.{estimate_rows};
ghost use Rattle.information_steps.specs.Step.{arrays_of};
ghost use Rattle.c_information.specs.Information.{reset_in, from_information_in, new_in, state_in, covariance_in, vector_in, matrix_in};

use answer::Refusal;
use c_copies::{Full, copy_in, parts, square_out, state_out, step};
use sizes::{Size, fits};

// ---- of an estimate

// Omega and xi of the state x0 and the covariance p0: omega is p0 inverted, and xi is omega times x0. Refused as singular:
// inversion rejects p0.
fn of_estimate(
    x0: &[f64],
    p0: &[f64],
    n: Size,
    omega: &mut [[f64; 4]; 4],
    xi: &mut [f64; 4],
) -> Result<(), Refusal>
    ensures { (result, (omega.new, xi.new))
        ≡ handed (λ t. t) arrays_of (omega.old, xi.old) (into (of_estimate (count n)
        (estimate_rows n (pad_row (vector_read (count n) x0.now 0)) (pad (matrix_read (count n) (count n) p0.now 0))))) }
{
    let x = layout::vector_at(x0, 0, n);
    let p = layout::matrix_at(p0, 0, n, n);
    information_steps::of_estimate(&x, &p, n, omega, xi)
}

// Another state x0 and covariance p0; the model stays. Refused as singular: inversion rejects p0.
#[tactic(auto, unfolding(c_copies::specs::Filter::is_step_with_by))]
pub fn information_reset(
    n: usize,
    m: usize,
    i: usize,
    filter: &mut [f64],
    x0: &[f64],
    p0: &[f64],
) -> Result<(), Refusal>
    ensures { (result, filter.new) ≡ reset_in n m i filter.old x0.now p0.now }
{
    let at = step::<Full>(n, m, i, filter.len(), n, x0.len())?;
    fits(p0.len() == at.square)?;
    let mut omega = [[0.0; 4]; 4];
    let mut xi = [0.0; 4];
    of_estimate(x0, p0, at.n, &mut omega, &mut xi)?;
    layout::put_pair(filter, at.x, xi, &omega, at.n);
    Ok(())
}

// ---- a filter of its parts

// Of the parts a, b, h, q and r, and of omega0 and xi0, each by rows.
pub fn information_from_information(
    n: usize,
    m: usize,
    i: usize,
    a: &[f64],
    b: &[f64],
    h: &[f64],
    q: &[f64],
    r: &[f64],
    omega0: &[f64],
    xi0: &[f64],
    filter: &mut [f64],
) -> Result<(), Refusal>
    ensures { (result, filter.new)
        ≡ written filter.old (from_information_in n m i (length filter.old) a.now b.now h.now
        q.now r.now omega0.now xi0.now) }
{
    copy_in::<Full>(n, m, i, a, b, h, q, r, xi0, omega0, filter)
}

// Of the parts a, b, h, q and r, and of an estimate: omega is p0 inverted, and xi is omega times x0. Refused as singular:
// inversion rejects p0.
pub fn information_new(
    n: usize,
    m: usize,
    i: usize,
    a: &[f64],
    b: &[f64],
    h: &[f64],
    q: &[f64],
    r: &[f64],
    x0: &[f64],
    p0: &[f64],
    filter: &mut [f64],
) -> Result<(), Refusal>
    ensures { (result, filter.new)
        ≡ written filter.old (new_in n m i (length filter.old) a.now b.now h.now q.now
        r.now x0.now p0.now) }
{
    let at = parts::<Full>(
        n,
        m,
        i,
        filter.len(),
        a.len(),
        b.len(),
        h.len(),
        q.len(),
        r.len(),
        x0.len(),
        p0.len(),
    )?;
    let mut omega = [[0.0; 4]; 4];
    let mut xi = [0.0; 4];
    of_estimate(x0, p0, at.n, &mut omega, &mut xi)?;
    copy_in::<Full>(n, m, i, a, b, h, q, r, x0, p0, filter)?;
    layout::put_pair(filter, at.x, xi, &omega, at.n);
    Ok(())
}

// ---- what is read

// The state, n numbers: omega inverted, times xi. Refused as singular: inversion rejects omega.
pub fn information_state(
    n: usize,
    m: usize,
    i: usize,
    filter: &[f64],
    out: &mut [f64],
) -> Result<(), Refusal>
    ensures { (result, out.new) ≡ written out.old (state_in n m i filter.now (length out.old)) }
{
    let at = step::<Full>(n, m, i, filter.len(), n, out.len())?;
    let xi = layout::vector_at(filter, at.x, at.n);
    let omega = layout::matrix_at(filter, at.p, at.n, at.n);
    let x = information_steps::state(&omega, &xi, at.n)?;
    layout::put_vector(out, 0, x, at.n);
    Ok(())
}

// The covariance, n rows of n numbers: omega inverted. Refused as singular: inversion rejects omega.
#[tactic(auto, unfolding(c_copies::specs::Filter::is_step_by))]
pub fn information_covariance(
    n: usize,
    m: usize,
    i: usize,
    filter: &[f64],
    out: &mut [f64],
) -> Result<(), Refusal>
    ensures { (result, out.new) ≡ written out.old (covariance_in n m i filter.now (length out.old)) }
{
    let at = c_copies::filter::<Full>(n, m, i, filter.len())?;
    fits(out.len() == at.square)?;
    let omega = layout::matrix_at(filter, at.p, at.n, at.n);
    let p = inverse::inverse_of(&omega, at.n)?;
    layout::put_matrix(out, 0, &p, at.n, at.n);
    Ok(())
}

// Copies of omega, n rows of n numbers, and of xi, n numbers.
pub fn information_matrix(
    n: usize,
    m: usize,
    i: usize,
    filter: &[f64],
    out: &mut [f64],
) -> Result<(), Refusal>
    ensures { (result, out.new) ≡ written out.old (matrix_in n m i filter.now (length out.old)) }
{
    square_out::<Full>(n, m, i, filter, out)
}

pub fn information_vector(
    n: usize,
    m: usize,
    i: usize,
    filter: &[f64],
    out: &mut [f64],
) -> Result<(), Refusal>
    ensures { (result, out.new) ≡ written out.old (vector_in n m i filter.now (length out.old)) }
{
    state_out::<Full>(n, m, i, filter, out)
}

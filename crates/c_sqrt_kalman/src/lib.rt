// src/estimator/sqrt_kalman.rs on a slice that the caller lends: a filter of state n, measurement m and input i is a, b, h, q,
// r_diag, x and the factor s by rows, one after another, as crates/c_copies lays out any filter with one deviation for each
// measurement. Refused: a size, or a slice of another length. The steps: crates/c_sqrt_steps.
#![tactic(auto)]

ghost use Rattle.std.specs.Prelude.{◌≡◌, length};
ghost use Rattle.answer.specs.Told.{written};
ghost use Rattle.c_sqrt_kalman.specs.Root.{new_in, from_cholesky_in, reset_in, state_in, covariance_in, factor_in};

use answer::Refusal;
use c_copies::{Diagonal, copy_in, parts, square_out, state_out, step};
use sizes::fits;

// ---- another state and factor

// Another state x0, and the factor of the covariance p0; the model stays. Refused as not positive definite: p0 has no factor, and
// nothing changes.
#[tactic(auto, unfolding(c_copies::specs::Filter::is_step_with_by))]
pub fn sqrt_kalman_reset(
    n: usize,
    m: usize,
    i: usize,
    filter: &mut [f64],
    x0: &[f64],
    p0: &[f64],
) -> Result<(), Refusal>
    ensures { (result, filter.new) ≡ reset_in n m i filter.old x0.now p0.now }
{
    let at = step::<Diagonal>(n, m, i, filter.len(), n, x0.len())?;
    fits(p0.len() == at.square)?;
    let x = layout::vector_at(x0, 0, at.n);
    let p = layout::matrix_at(p0, 0, at.n, at.n);
    let s = cholesky::factor_of(&p, at.n)?;
    layout::put_pair(filter, at.x, x, &s, at.n);
    Ok(())
}

// ---- a filter of given parts, each by rows

// The filter of the parts a, b, h, q, r_diag, x0 and the factor s0.
pub fn sqrt_kalman_from_cholesky(
    n: usize,
    m: usize,
    i: usize,
    a: &[f64],
    b: &[f64],
    h: &[f64],
    q: &[f64],
    r_diag: &[f64],
    x0: &[f64],
    s0: &[f64],
    filter: &mut [f64],
) -> Result<(), Refusal>
    ensures { (result, filter.new)
        ≡ written filter.old (from_cholesky_in n m i (length filter.old) a.now b.now h.now
        q.now r_diag.now x0.now s0.now) }
{
    copy_in::<Diagonal>(n, m, i, a, b, h, q, r_diag, x0, s0, filter)
}

// The same, with the factor of the covariance p0. Refused as not positive definite: p0 has none.
pub fn sqrt_kalman_new(
    n: usize,
    m: usize,
    i: usize,
    a: &[f64],
    b: &[f64],
    h: &[f64],
    q: &[f64],
    r_diag: &[f64],
    x0: &[f64],
    p0: &[f64],
    filter: &mut [f64],
) -> Result<(), Refusal>
    ensures { (result, filter.new)
        ≡ written filter.old (new_in n m i (length filter.old) a.now b.now h.now q.now
        r_diag.now x0.now p0.now) }
{
    let at = parts::<Diagonal>(
        n,
        m,
        i,
        filter.len(),
        a.len(),
        b.len(),
        h.len(),
        q.len(),
        r_diag.len(),
        x0.len(),
        p0.len(),
    )?;
    let p = layout::matrix_at(p0, 0, at.n, at.n);
    let s = cholesky::factor_of(&p, at.n)?;
    let mut numbers = [0.0; 16];
    let s0 = &mut numbers[..at.square];
    layout::put_matrix(s0, 0, &s, at.n, at.n);
    sqrt_kalman_from_cholesky(n, m, i, a, b, h, q, r_diag, x0, s0, filter)
}

// ---- what a filter holds

// The state, n numbers.
pub fn sqrt_kalman_state(
    n: usize,
    m: usize,
    i: usize,
    filter: &[f64],
    out: &mut [f64],
) -> Result<(), Refusal>
    ensures { (result, out.new) ≡ written out.old (state_in n m i filter.now (length out.old)) }
{
    state_out::<Diagonal>(n, m, i, filter, out)
}

// The factor, n rows of n numbers.
pub fn sqrt_kalman_cholesky_factor(
    n: usize,
    m: usize,
    i: usize,
    filter: &[f64],
    out: &mut [f64],
) -> Result<(), Refusal>
    ensures { (result, out.new) ≡ written out.old (factor_in n m i filter.now (length out.old)) }
{
    square_out::<Diagonal>(n, m, i, filter, out)
}

// The covariance, n rows of n numbers: the factor times itself transposed.
#[tactic(auto, unfolding(c_copies::specs::Filter::is_step_by))]
pub fn sqrt_kalman_covariance(
    n: usize,
    m: usize,
    i: usize,
    filter: &[f64],
    out: &mut [f64],
) -> Result<(), Refusal>
    ensures { (result, out.new) ≡ written out.old (covariance_in n m i filter.now (length out.old)) }
{
    let at = c_copies::filter::<Diagonal>(n, m, i, filter.len())?;
    fits(out.len() == at.square)?;
    let s = layout::matrix_at(filter, at.p, at.n, at.n);
    let p = sqrt_steps::covariance(&s, at.n);
    layout::put_matrix(out, 0, &p, at.n, at.n);
    Ok(())
}

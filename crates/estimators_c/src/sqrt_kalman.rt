// src/estimator/sqrt_kalman.rs for C: each export calls the function of its name, and has its contract.
ghost use Rattle.std.specs.Prelude.{◌≡◌, length};
ghost use Rattle.answer.specs.Told.{given, numbered};
ghost use Rattle.c_sqrt_kalman.specs.Root.{new_in, from_cholesky_in, reset_in, state_in, covariance_in, factor_in};
ghost use Rattle.c_sqrt_steps.specs.Step.{predict_in, update_in};

use answer::number_of;
use estimators::sqrt_kalman;

// One step on, with the input u of i numbers. Refused with 4: the new covariance has no factor; the state is then the new one, and
// the factor the old.
#[unsafe(no_mangle)]
pub extern "C" fn estimators_sqrt_kalman_predict(
    n: usize,
    m: usize,
    i: usize,
    filter: &mut [f64],
    u: &[f64],
) -> u8
    ensures { (result, filter.new) ≡ numbered (predict_in n m i filter.old u.now) }
{
    number_of(sqrt_kalman::estimators_sqrt_kalman_predict(n, m, i, filter, u))
}

// Corrected by the measurement z of m numbers, one component after another; the innovations in order. Refused with 3: a component's
// variance; the components before it are taken in. With 4: its downdate; the state is then updated by it, and the columns
// before the failing one are turned.
#[unsafe(no_mangle)]
pub extern "C" fn estimators_sqrt_kalman_update(
    n: usize,
    m: usize,
    i: usize,
    filter: &mut [f64],
    z: &[f64],
    innovation: &mut [f64],
) -> u8
    ensures { (result, (filter.new, innovation.new)) ≡ numbered (update_in n m i filter.old z.now innovation.old) }
{
    number_of(sqrt_kalman::estimators_sqrt_kalman_update(n, m, i, filter, z, innovation))
}

// Another state x0, and the factor of the covariance p0; the model stays. Refused with 4: p0 has no factor, and nothing changes.
#[unsafe(no_mangle)]
pub extern "C" fn estimators_sqrt_kalman_reset(
    n: usize,
    m: usize,
    i: usize,
    filter: &mut [f64],
    x0: &[f64],
    p0: &[f64],
) -> u8
    ensures { (result, filter.new) ≡ numbered (reset_in n m i filter.old x0.now p0.now) }
{
    number_of(sqrt_kalman::estimators_sqrt_kalman_reset(n, m, i, filter, x0, p0))
}

// The filter of the parts a, b, h, q, r_diag, x0 and the factor s0.
#[unsafe(no_mangle)]
pub extern "C" fn estimators_sqrt_kalman_from_cholesky(
    n: usize,
    m: usize,
    i: usize,
    a: &[f64],
    b: &[f64],
    h: &[f64],
    q: &[f64],
    r_diag: &[f64],
    x0: &[f64],
    s0: &[f64],
    filter: &mut [f64],
) -> u8
    ensures { (result, filter.new)
        ≡ given filter.old (from_cholesky_in n m i (length filter.old) a.now b.now h.now
        q.now r_diag.now x0.now s0.now) }
{
    number_of(sqrt_kalman::estimators_sqrt_kalman_from_cholesky(
        n, m, i, a, b, h, q, r_diag, x0, s0, filter,
    ))
}

// The same, with the factor of the covariance p0. Refused with 4: p0 has none.
#[unsafe(no_mangle)]
pub extern "C" fn estimators_sqrt_kalman_new(
    n: usize,
    m: usize,
    i: usize,
    a: &[f64],
    b: &[f64],
    h: &[f64],
    q: &[f64],
    r_diag: &[f64],
    x0: &[f64],
    p0: &[f64],
    filter: &mut [f64],
) -> u8
    ensures { (result, filter.new)
        ≡ given filter.old (new_in n m i (length filter.old) a.now b.now h.now q.now
        r_diag.now x0.now p0.now) }
{
    number_of(sqrt_kalman::estimators_sqrt_kalman_new(n, m, i, a, b, h, q, r_diag, x0, p0, filter))
}

// The state, n numbers.
#[unsafe(no_mangle)]
pub extern "C" fn estimators_sqrt_kalman_state(
    n: usize,
    m: usize,
    i: usize,
    filter: &[f64],
    out: &mut [f64],
) -> u8
    ensures { (result, out.new) ≡ given out.old (state_in n m i filter.now (length out.old)) }
{
    number_of(sqrt_kalman::estimators_sqrt_kalman_state(n, m, i, filter, out))
}

// The factor, n rows of n numbers.
#[unsafe(no_mangle)]
pub extern "C" fn estimators_sqrt_kalman_cholesky_factor(
    n: usize,
    m: usize,
    i: usize,
    filter: &[f64],
    out: &mut [f64],
) -> u8
    ensures { (result, out.new) ≡ given out.old (factor_in n m i filter.now (length out.old)) }
{
    number_of(sqrt_kalman::estimators_sqrt_kalman_cholesky_factor(n, m, i, filter, out))
}

// The covariance, n rows of n numbers: the factor times itself transposed.
#[unsafe(no_mangle)]
pub extern "C" fn estimators_sqrt_kalman_covariance(
    n: usize,
    m: usize,
    i: usize,
    filter: &[f64],
    out: &mut [f64],
) -> u8
    ensures { (result, out.new) ≡ given out.old (covariance_in n m i filter.now (length out.old)) }
{
    number_of(sqrt_kalman::estimators_sqrt_kalman_covariance(n, m, i, filter, out))
}

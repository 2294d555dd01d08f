// src/estimator/kalman.rs for C: each export calls the function of its name, and has its contract.
ghost use Rattle.std.specs.Prelude.{◌≡◌, length};
ghost use Rattle.answer.specs.Told.{given, numbered};
ghost use Rattle.c_copies.specs.Filter.{predict_in, update_in, new_in, reset_in, state_in, covariance_in, tracker_in};

use answer::number_of;
use estimators::filters;

// One step on, with the input u of i numbers.
#[unsafe(no_mangle)]
pub extern "C" fn estimators_kalman_predict(
    n: usize,
    m: usize,
    i: usize,
    filter: &mut [f64],
    u: &[f64],
) -> u8
    ensures { (result, filter.new) ≡ numbered (predict_in n m i filter.old u.now) }
{
    number_of(filters::estimators_kalman_predict(n, m, i, filter, u))
}

// Corrected by the measurement z of m numbers; the innovation is z less H times the state before. Refused with 3: inversion
// rejects the innovation covariance.
#[unsafe(no_mangle)]
pub extern "C" fn estimators_kalman_update(
    n: usize,
    m: usize,
    i: usize,
    filter: &mut [f64],
    z: &[f64],
    innovation: &mut [f64],
) -> u8
    ensures { (result, (filter.new, innovation.new)) ≡ numbered (update_in n m i filter.old z.now innovation.old) }
{
    number_of(filters::estimators_kalman_update(n, m, i, filter, z, innovation))
}

// The filter of the parts a, b, h, q, r, x0 and p0, each by rows.
#[unsafe(no_mangle)]
pub extern "C" fn estimators_kalman_new(
    n: usize,
    m: usize,
    i: usize,
    a: &[f64],
    b: &[f64],
    h: &[f64],
    q: &[f64],
    r: &[f64],
    x0: &[f64],
    p0: &[f64],
    filter: &mut [f64],
) -> u8
    ensures { (result, filter.new) ≡ given filter.old (new_in n m i (length filter.old)
        a.now b.now h.now q.now r.now x0.now p0.now) }
{
    number_of(filters::estimators_kalman_new(n, m, i, a, b, h, q, r, x0, p0, filter))
}

// Another state x0 and covariance p0; the model stays.
#[unsafe(no_mangle)]
pub extern "C" fn estimators_kalman_reset(
    n: usize,
    m: usize,
    i: usize,
    filter: &mut [f64],
    x0: &[f64],
    p0: &[f64],
) -> u8
    ensures { (result, filter.new) ≡ given filter.old (reset_in n m i filter.old x0.now p0.now) }
{
    number_of(filters::estimators_kalman_reset(n, m, i, filter, x0, p0))
}

// The state, n numbers.
#[unsafe(no_mangle)]
pub extern "C" fn estimators_kalman_state(
    n: usize,
    m: usize,
    i: usize,
    filter: &[f64],
    out: &mut [f64],
) -> u8
    ensures { (result, out.new) ≡ given out.old (state_in n m i filter.now (length out.old)) }
{
    number_of(filters::estimators_kalman_state(n, m, i, filter, out))
}

// The covariance, n rows of n numbers.
#[unsafe(no_mangle)]
pub extern "C" fn estimators_kalman_covariance(
    n: usize,
    m: usize,
    i: usize,
    filter: &[f64],
    out: &mut [f64],
) -> u8
    ensures { (result, out.new) ≡ given out.old (covariance_in n m i filter.now (length out.old)) }
{
    number_of(filters::estimators_kalman_covariance(n, m, i, filter, out))
}

// A filter of 19 numbers that tracks position and speed, with the step dt in seconds.
#[unsafe(no_mangle)]
pub extern "C" fn estimators_kalman_position_velocity(
    dt: f64,
    process_noise: f64,
    measurement_noise: f64,
    filter: &mut [f64],
) -> u8
    ensures { (result, filter.new) ≡ given filter.old (tracker_in dt process_noise measurement_noise (length filter.old)) }
{
    number_of(filters::estimators_kalman_position_velocity(
        dt,
        process_noise,
        measurement_noise,
        filter,
    ))
}

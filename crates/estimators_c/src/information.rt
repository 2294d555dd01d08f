// src/estimator/information_filter.rs for C: each export calls the function of its name, and has its contract.
ghost use Rattle.std.specs.Prelude.{◌≡◌, length};
ghost use Rattle.answer.specs.Told.{given, numbered};
ghost use Rattle.c_information.specs.Information.{reset_in, from_information_in, new_in, state_in, covariance_in, vector_in, matrix_in};
ghost use Rattle.c_information_steps.specs.Steps.{predict_in, update_in};
ghost use Rattle.c_fusion.specs.Fusion.{fuse_in, fuse_all_in};

use answer::number_of;
use estimators::information;

// One step on, with the input u of i numbers. Refused with 3, and nothing changes: inversion rejects omega, or the predicted
// covariance.
#[unsafe(no_mangle)]
pub extern "C" fn estimators_information_predict(
    n: usize,
    m: usize,
    i: usize,
    filter: &mut [f64],
    u: &[f64],
) -> u8
    ensures { (result, filter.new) ≡ numbered (predict_in n m i filter.old u.now) }
{
    number_of(information::estimators_information_predict(n, m, i, filter, u))
}

// Updated by the measurement z of m numbers; the innovation is z less H times the state after. Refused with 3: inversion rejects
// r, and nothing is written; or the new omega, and the filter keeps the addition.
#[unsafe(no_mangle)]
pub extern "C" fn estimators_information_update(
    n: usize,
    m: usize,
    i: usize,
    filter: &mut [f64],
    z: &[f64],
    innovation: &mut [f64],
) -> u8
    ensures { (result, (filter.new, innovation.new)) ≡ numbered (update_in n m i filter.old z.now innovation.old) }
{
    number_of(information::estimators_information_update(n, m, i, filter, z, innovation))
}

// One sensor's addition: h (m by n), its inverted noise r_inv (m by m), and what it measured, z (m).
#[unsafe(no_mangle)]
pub extern "C" fn estimators_information_fuse_sensor(
    n: usize,
    m: usize,
    i: usize,
    filter: &mut [f64],
    h: &[f64],
    r_inv: &[f64],
    z: &[f64],
) -> u8
    ensures { (result, filter.new) ≡ numbered (fuse_in n m i filter.old h.now r_inv.now z.now) }
{
    number_of(information::estimators_information_fuse_sensor(n, m, i, filter, h, r_inv, z))
}

// The additions of count sensors, 0 or more, one after another in the slice: of each its h (m by n), its inverted noise (m by m),
// and what it measured (m).
#[unsafe(no_mangle)]
pub extern "C" fn estimators_information_fuse_sensors(
    n: usize,
    m: usize,
    i: usize,
    filter: &mut [f64],
    count: usize,
    sensors: &[f64],
) -> u8
    ensures { (result, filter.new) ≡ numbered (fuse_all_in n m i filter.old count sensors.now) }
{
    number_of(information::estimators_information_fuse_sensors(n, m, i, filter, count, sensors))
}

// Another state x0 and covariance p0; the model stays. Refused with 3: inversion rejects p0.
#[unsafe(no_mangle)]
pub extern "C" fn estimators_information_reset(
    n: usize,
    m: usize,
    i: usize,
    filter: &mut [f64],
    x0: &[f64],
    p0: &[f64],
) -> u8
    ensures { (result, filter.new) ≡ numbered (reset_in n m i filter.old x0.now p0.now) }
{
    number_of(information::estimators_information_reset(n, m, i, filter, x0, p0))
}

// Of the parts a, b, h, q and r, and of omega0 and xi0, each by rows.
#[unsafe(no_mangle)]
pub extern "C" fn estimators_information_from_information(
    n: usize,
    m: usize,
    i: usize,
    a: &[f64],
    b: &[f64],
    h: &[f64],
    q: &[f64],
    r: &[f64],
    omega0: &[f64],
    xi0: &[f64],
    filter: &mut [f64],
) -> u8
    ensures { (result, filter.new)
        ≡ given filter.old (from_information_in n m i (length filter.old) a.now b.now h.now
        q.now r.now omega0.now xi0.now) }
{
    number_of(information::estimators_information_from_information(
        n, m, i, a, b, h, q, r, omega0, xi0, filter,
    ))
}

// Of the parts a, b, h, q and r, and of an estimate: omega is p0 inverted, and xi is omega times x0. Refused with 3: inversion
// rejects p0.
#[unsafe(no_mangle)]
pub extern "C" fn estimators_information_new(
    n: usize,
    m: usize,
    i: usize,
    a: &[f64],
    b: &[f64],
    h: &[f64],
    q: &[f64],
    r: &[f64],
    x0: &[f64],
    p0: &[f64],
    filter: &mut [f64],
) -> u8
    ensures { (result, filter.new)
        ≡ given filter.old (new_in n m i (length filter.old) a.now b.now h.now q.now
        r.now x0.now p0.now) }
{
    number_of(information::estimators_information_new(n, m, i, a, b, h, q, r, x0, p0, filter))
}

// The state, n numbers: omega inverted, times xi. Refused with 3: inversion rejects omega.
#[unsafe(no_mangle)]
pub extern "C" fn estimators_information_state(
    n: usize,
    m: usize,
    i: usize,
    filter: &[f64],
    out: &mut [f64],
) -> u8
    ensures { (result, out.new) ≡ given out.old (state_in n m i filter.now (length out.old)) }
{
    number_of(information::estimators_information_state(n, m, i, filter, out))
}

// The covariance, n rows of n numbers: omega inverted. Refused with 3: inversion rejects omega.
#[unsafe(no_mangle)]
pub extern "C" fn estimators_information_covariance(
    n: usize,
    m: usize,
    i: usize,
    filter: &[f64],
    out: &mut [f64],
) -> u8
    ensures { (result, out.new) ≡ given out.old (covariance_in n m i filter.now (length out.old)) }
{
    number_of(information::estimators_information_covariance(n, m, i, filter, out))
}

// Copies of omega, n rows of n numbers, and of xi, n numbers.
#[unsafe(no_mangle)]
pub extern "C" fn estimators_information_matrix(
    n: usize,
    m: usize,
    i: usize,
    filter: &[f64],
    out: &mut [f64],
) -> u8
    ensures { (result, out.new) ≡ given out.old (matrix_in n m i filter.now (length out.old)) }
{
    number_of(information::estimators_information_matrix(n, m, i, filter, out))
}

#[unsafe(no_mangle)]
pub extern "C" fn estimators_information_vector(
    n: usize,
    m: usize,
    i: usize,
    filter: &[f64],
    out: &mut [f64],
) -> u8
    ensures { (result, out.new) ≡ given out.old (vector_in n m i filter.now (length out.old)) }
{
    number_of(information::estimators_information_vector(n, m, i, filter, out))
}

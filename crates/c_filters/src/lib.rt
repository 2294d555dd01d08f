// src/estimator/kalman.rs on a slice that the caller lends: a filter of state n, measurement m and input i is a, b, h, q, r, x
// and p by rows, one after another. A step reads the parts that it needs as rows, once, and writes x and p back, once. Refused:
// a size, or a slice of another length. The calls that copy: crates/c_copies; a filter of position and speed: crates/c_roads.
#![tactic(auto)]

ghost use Rattle.std.specs.Prelude.{◌≡◌};
ghost use Rattle.c_copies.specs.Filter.{predict_in, update_in};

use answer::Refusal;
use c_copies::{Full, step};
pub use c_roads::{is_plane, is_road, kalman_position_velocity, put_road, road_at};
use sizes::fits;

// ---- by rows. Inlined at each call, so that with literal sizes, a plane's, each part is read at a place that is a literal.

// One step on, with the input u of i numbers.
#[inline(always)]
fn predict_rows(n: usize, m: usize, i: usize, filter: &mut [f64], u: &[f64]) -> Result<(), Refusal>
    ensures { (result, filter.new) ≡ predict_in n m i filter.old u.now }
{
    let at = step::<Full>(n, m, i, filter.len(), i, u.len())?;
    let a = layout::matrix_at(filter, 0, at.n, at.n);
    let b = layout::matrix_at(filter, at.b, at.n, at.i);
    let q = layout::matrix_at(filter, at.q, at.n, at.n);
    let v = layout::vector_at(u, 0, at.i);
    let mut x = layout::vector_at(filter, at.x, at.n);
    let mut p = layout::matrix_at(filter, at.p, at.n, at.n);
    steps::predict(&a, &b, &q, &v, at.n, at.i, &mut x, &mut p);
    layout::put_pair(filter, at.x, x, &p, at.n);
    Ok(())
}

// Corrected by the measurement z of m numbers.
#[inline(always)]
fn update_rows(
    n: usize,
    m: usize,
    i: usize,
    filter: &mut [f64],
    z: &[f64],
    innovation: &mut [f64],
) -> Result<(), Refusal>
    ensures { (result, (filter.new, innovation.new)) ≡ update_in n m i filter.old z.now innovation.old }
{
    let at = step::<Full>(n, m, i, filter.len(), m, z.len())?;
    fits(innovation.len() == m)?;
    let h = layout::matrix_at(filter, at.h, at.m, at.n);
    let r = layout::matrix_at(filter, at.r, at.m, at.m);
    let v = layout::vector_at(z, 0, at.m);
    let mut x = layout::vector_at(filter, at.x, at.n);
    let mut p = layout::matrix_at(filter, at.p, at.n, at.n);
    let y = steps::update(&h, &r, &v, at.n, at.m, &mut x, &mut p)?;
    layout::put_pair(filter, at.x, x, &p, at.n);
    layout::put_vector(innovation, 0, y, at.m);
    Ok(())
}

// ---- the steps

// One step on, with the input u of i numbers.
pub fn kalman_predict(
    n: usize,
    m: usize,
    i: usize,
    filter: &mut [f64],
    u: &[f64],
) -> Result<(), Refusal>
    ensures { (result, filter.new) ≡ predict_in n m i filter.old u.now }
{
    if is_road(n, m, i, filter.len(), u.len()) {
        let f = road_at(filter);
        let e = f.motion.predict(u[0], f.pair);
        put_road(filter, e);
        return Ok(());
    }
    if is_plane(n, m, i) {
        return predict_rows(4, 2, 2, filter, u);
    }
    predict_rows(n, m, i, filter, u)
}

// Corrected by the measurement z of m numbers; the innovation is z less H times the state before. Refused as singular: inversion
// rejects the innovation covariance.
pub fn kalman_update(
    n: usize,
    m: usize,
    i: usize,
    filter: &mut [f64],
    z: &[f64],
    innovation: &mut [f64],
) -> Result<(), Refusal>
    ensures { (result, (filter.new, innovation.new)) ≡ update_in n m i filter.old z.now innovation.old }
{
    if is_road(n, m, i, filter.len(), z.len()) & (innovation.len() == 1) {
        let f = road_at(filter);
        let v = f.sensor.innovation(z[0], f.pair)?;
        let e = f.sensor.corrected(f.pair, v);
        put_road(filter, e);
        innovation[0] = v.innovation;
        return Ok(());
    }
    if is_plane(n, m, i) {
        return update_rows(4, 2, 2, filter, z, innovation);
    }
    update_rows(n, m, i, filter, z, innovation)
}

// The steps of src/estimator/information_filter.rs on a slice that the caller lends, laid out as in c_information. A step reads
// the parts that it needs as rows, once, and writes xi and omega back, once. Refused: a size, or a slice of another length.
#![tactic(auto)]

ghost use Rattle.std.specs.Prelude.{◌≡◌};
ghost use Rattle.c_information_steps.specs.Steps.{predict_in, update_in};

use answer::{Refusal, Step};
use c_copies::{Full, step};
use c_roads::{is_plane, is_road, put_road, road_at};
use information_steps::update_by;
use sizes::fits;

// ---- by rows. Inlined at each call, so that with literal sizes, a plane's, each part is read at a place that is a literal.

// One step on, with the input u of i numbers.
#[inline(always)]
fn predict_rows(n: usize, m: usize, i: usize, filter: &mut [f64], u: &[f64]) -> Result<(), Refusal>
    ensures { (result, filter.new) ≡ predict_in n m i filter.old u.now }
{
    let at = step::<Full>(n, m, i, filter.len(), i, u.len())?;
    let a = layout::matrix_at(filter, 0, at.n, at.n);
    let b = layout::matrix_at(filter, at.b, at.n, at.i);
    let q = layout::matrix_at(filter, at.q, at.n, at.n);
    let v = layout::vector_at(u, 0, at.i);
    let mut xi = layout::vector_at(filter, at.x, at.n);
    let mut omega = layout::matrix_at(filter, at.p, at.n, at.n);
    information_steps::predict(&a, &b, &q, &v, at.n, at.i, &mut omega, &mut xi)?;
    layout::put_pair(filter, at.x, xi, &omega, at.n);
    Ok(())
}

// Updated by the measurement z of m numbers. The addition is written back whatever is told.
#[tactic(auto, unfolding(c_copies::specs::Filter::is_step_with_by))]
#[inline(always)]
fn update_rows(
    n: usize,
    m: usize,
    i: usize,
    filter: &mut [f64],
    z: &[f64],
    innovation: &mut [f64],
) -> Result<(), Refusal>
    ensures { (result, (filter.new, innovation.new)) ≡ update_in n m i filter.old z.now innovation.old }
{
    let at = step::<Full>(n, m, i, filter.len(), m, z.len())?;
    fits(innovation.len() == m)?;
    let r = layout::matrix_at(filter, at.r, at.m, at.m);
    let w = inverse::inverse_of(&r, at.m)?;
    let h = layout::matrix_at(filter, at.h, at.m, at.n);
    let v = layout::vector_at(z, 0, at.m);
    let mut xi = layout::vector_at(filter, at.x, at.n);
    let mut omega = layout::matrix_at(filter, at.p, at.n, at.n);
    let answer = update_by(&h, &w, &v, at.n, at.m, &mut omega, &mut xi);
    layout::put_pair(filter, at.x, xi, &omega, at.n);
    let y = answer?;
    layout::put_vector(innovation, 0, y, at.m);
    Ok(())
}

// ---- the steps

// One step on, with the input u of i numbers. Refused as singular, and nothing changes: inversion rejects omega, or the
// predicted covariance.
pub fn information_predict(
    n: usize,
    m: usize,
    i: usize,
    filter: &mut [f64],
    u: &[f64],
) -> Result<(), Refusal>
    ensures { (result, filter.new) ≡ predict_in n m i filter.old u.now }
{
    if is_road(n, m, i, filter.len(), u.len()) {
        let f = road_at(filter);
        let o = information_road::predict(f.motion, u[0], f.pair)?;
        put_road(filter, o);
        return Ok(());
    }
    if is_plane(n, m, i) {
        return predict_rows(4, 2, 2, filter, u);
    }
    predict_rows(n, m, i, filter, u)
}

// Updated by the measurement z of m numbers; the innovation is z less H times the state after. Refused as singular: inversion
// rejects r, and nothing is written; or the new omega, and the filter keeps the addition.
pub fn information_update(
    n: usize,
    m: usize,
    i: usize,
    filter: &mut [f64],
    z: &[f64],
    innovation: &mut [f64],
) -> Result<(), Refusal>
    ensures { (result, (filter.new, innovation.new)) ≡ update_in n m i filter.old z.now innovation.old }
{
    if is_road(n, m, i, filter.len(), z.len()) & (innovation.len() == 1) {
        let f = road_at(filter);
        let w = small_inverse::inverse_number(f.sensor.r)?;
        let Step { answer, left } = information_road::update_by(f.sensor, w, z[0], f.pair);
        put_road(filter, left);
        innovation[0] = answer?;
        return Ok(());
    }
    if is_plane(n, m, i) {
        return update_rows(4, 2, 2, filter, z, innovation);
    }
    update_rows(n, m, i, filter, z, innovation)
}

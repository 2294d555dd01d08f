// The steps of src/estimator/sqrt_kalman.rs on a slice that the caller lends: a filter of state n, measurement m and input i, as
// crates/c_sqrt_kalman has it. A step reads the parts that it needs as rows, once, and writes x and s back, once, also where it is
// refused on the way. Refused: a size, or a slice of another length.
#![tactic(auto)]

ghost use Rattle.std.specs.Prelude.{◌≡◌};
ghost use Rattle.c_sqrt_steps.specs.Step.{predict_in, update_in};

use answer::Refusal;
use c_copies::{Diagonal, step};
use c_roads::{is_plane, is_road, put_road, road_at};
use sizes::fits;

// ---- by rows. Inlined at each call, so that with literal sizes, a plane's, each part is read at a place that is a literal.

// One step on, with the input u of i numbers.
#[inline(always)]
fn predict_rows(n: usize, m: usize, i: usize, filter: &mut [f64], u: &[f64]) -> Result<(), Refusal>
    ensures { (result, filter.new) ≡ predict_in n m i filter.old u.now }
{
    let at = step::<Diagonal>(n, m, i, filter.len(), i, u.len())?;
    let a = layout::matrix_at(filter, 0, at.n, at.n);
    let b = layout::matrix_at(filter, at.b, at.n, at.i);
    let q = layout::matrix_at(filter, at.q, at.n, at.n);
    let v = layout::vector_at(u, 0, at.i);
    let mut x = layout::vector_at(filter, at.x, at.n);
    let mut s = layout::matrix_at(filter, at.p, at.n, at.n);
    let answer = sqrt_steps::predict(&a, &b, &q, &v, at.n, at.i, &mut x, &mut s);
    layout::put_pair(filter, at.x, x, &s, at.n);
    answer
}

// Corrected by the measurement z of m numbers.
#[tactic(auto, unfolding(c_copies::specs::Filter::is_step_with_by))]
#[inline(always)]
fn update_rows(
    n: usize,
    m: usize,
    i: usize,
    filter: &mut [f64],
    z: &[f64],
    innovation: &mut [f64],
) -> Result<(), Refusal>
    ensures { (result, (filter.new, innovation.new)) ≡ update_in n m i filter.old z.now innovation.old }
{
    let at = step::<Diagonal>(n, m, i, filter.len(), m, z.len())?;
    fits(innovation.len() == m)?;
    let h = layout::matrix_at(filter, at.h, at.m, at.n);
    let r = layout::vector_at(filter, at.r, at.m);
    let v = layout::vector_at(z, 0, at.m);
    let mut x = layout::vector_at(filter, at.x, at.n);
    let mut s = layout::matrix_at(filter, at.p, at.n, at.n);
    let answer = sqrt_steps::update(&h, &r, &v, at.n, at.m, &mut x, &mut s);
    layout::put_pair(filter, at.x, x, &s, at.n);
    let y = answer?;
    layout::put_vector(innovation, 0, y, at.m);
    Ok(())
}

// ---- the steps: one road, 19 numbers, is read where they stand

// One step on, with the input u of i numbers. Refused as not positive definite: the new covariance has no factor; the state is
// then the new one, and the factor the old.
pub fn sqrt_kalman_predict(
    n: usize,
    m: usize,
    i: usize,
    filter: &mut [f64],
    u: &[f64],
) -> Result<(), Refusal>
    ensures { (result, filter.new) ≡ predict_in n m i filter.old u.now }
{
    if is_road(n, m, i, filter.len(), u.len()) {
        let f = road_at(filter);
        let mut pair = f.pair;
        let answer = sqrt_road::predict(f.motion, u[0], &mut pair);
        put_road(filter, pair);
        return answer;
    }
    if is_plane(n, m, i) {
        return predict_rows(4, 2, 2, filter, u);
    }
    predict_rows(n, m, i, filter, u)
}

// Corrected by the measurement z of m numbers, one component after another; the innovations in order. Refused as singular: a
// component's variance; the components before it are taken in. As not positive definite: its downdate; the state is then updated
// by it, and the columns before the failing one are turned.
pub fn sqrt_kalman_update(
    n: usize,
    m: usize,
    i: usize,
    filter: &mut [f64],
    z: &[f64],
    innovation: &mut [f64],
) -> Result<(), Refusal>
    ensures { (result, (filter.new, innovation.new)) ≡ update_in n m i filter.old z.now innovation.old }
{
    if is_road(n, m, i, filter.len(), z.len()) & (innovation.len() == 1) {
        let f = road_at(filter);
        let mut pair = f.pair;
        let answer = sqrt_road::update(f.sensor, z[0], &mut pair);
        put_road(filter, pair);
        innovation[0] = answer?;
        return Ok(());
    }
    if is_plane(n, m, i) {
        return update_rows(4, 2, 2, filter, z, innovation);
    }
    update_rows(n, m, i, filter, z, innovation)
}

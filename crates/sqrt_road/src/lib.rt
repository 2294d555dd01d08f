// The square-root filter of one road, written out: two states, one input and one measurement, by their numbers. A pair holds the
// state and the factor l, where the linear filter's holds its covariance. The tests are Cholesky's and the filter's own.
#![tactic(auto)]

ghost use Rattle.std.specs.Prelude.{◌≡◌, [], ◌∷◌};
ghost use Rattle.answer.specs.Answer.{mapped};
ghost use Rattle.algebra.specs.Cholesky.{cholesky as cholesky_of};
ghost use Rattle.filtering.specs.SquareRoot.{factored, covariance as covariance_of, rotated, predict as predict_of, update as update_of};
ghost use Rattle.road.specs.Road.{matrix_of, motion_of};
ghost use Rattle.sqrt_road.specs.Road.{factored_of, channel_of, turned_of, stepped_of, updated_of};

use answer::Refusal;
use road::{Motion, Pair, Sensor, Two};
use scalar::ControlScalar;

// ---- a prediction

// The factor of p, of which only the lower triangle is read. Refused as not positive definite: a diagonal.
#[tactic(auto, using(crate::proofs::Factor::at_first, crate::proofs::Factor::at_second))]
fn factor_of(p: Two) -> Result<Two, Refusal>
    ensures { mapped matrix_of result ≡ cholesky_of 2 (matrix_of p) }
{
    let a = cholesky::diagonal(p.a - 0.0)?;
    let c = (p.c - 0.0) / a;
    let d = cholesky::diagonal(p.d - (0.0 + c * c))?;
    Ok(Two { a, b: 0.0, c, d })
}

// l × transposed l
fn covariance(l: Two) -> Two
    ensures { matrix_of result ≡ covariance_of 2 (factored [] (matrix_of l)) }
{
    Two {
        a: 0.0 + l.a * l.a + l.b * l.b,
        b: 0.0 + l.a * l.c + l.b * l.d,
        c: 0.0 + l.c * l.a + l.d * l.b,
        d: 0.0 + l.c * l.c + l.d * l.d,
    }
}

// One step on, with the input u. Refused as not positive definite: the new covariance has no factor; the state is then the new
// one, and the factor the old.
pub fn predict(motion: Motion, u: f64, g: &mut Pair) -> Result<(), Refusal>
    ensures { (result, factored_of g.new) ≡ stepped_of (factored_of g.old) (predict_of (motion_of motion) (u ∷ []) (factored_of g.old)) }
{
    let p = covariance(g.p);
    let e = motion.predict(
        u,
        Pair {
            x0: g.x0,
            x1: g.x1,
            p,
        },
    );
    g.x0 = e.x0;
    g.x1 = e.x1;
    g.p = factor_of(e.p)?;
    Ok(())
}

// ---- an update

// The downdate of l by (v, w), column by column. Refused as not positive definite: a column's diagonal; the columns before it are
// turned.
fn downdate(l: &mut Two, v: f64, w: f64) -> Result<(), Refusal>
    ensures { (result, matrix_of l.new) ≡ turned_of (matrix_of l.old) (rotated 2 2 (matrix_of l.old) (v ∷ w ∷ [])) }
{
    let a = sqrt_steps::turned_diagonal(l.a * l.a - v * v)?;
    let c = a / l.a;
    let s = v / l.a;
    let cell = l.c;
    let below = (cell - s * w) / c;
    let turned = c * w - s * cell;
    l.a = a;
    l.c = below;
    l.d = sqrt_steps::turned_diagonal(l.d * l.d - turned * turned)?;
    Ok(())
}

// Corrected by the measurement z, where the sensor's r is its deviation; the innovation is z less h times the state before. Refused
// as singular: the variance, and nothing changes; as not positive definite: a column of the downdate. The state is then the new one,
// and the columns before it are turned.
pub fn update(sensor: Sensor, z: f64, g: &mut Pair) -> Result<f64, Refusal>
    ensures { (result, factored_of g.new) ≡ updated_of (factored_of g.old) (update_of (channel_of sensor) (z ∷ []) (factored_of g.old)) }
{
    let Sensor { h0, h1, r } = sensor;
    let l = g.p;
    let y = z - (0.0 + h0 * g.x0 + h1 * g.x1);
    let t0 = 0.0 + l.a * h0 + l.c * h1;
    let t1 = 0.0 + l.b * h0 + l.d * h1;
    let s = sqrt_steps::variance((0.0 + t0 * t0 + t1 * t1) + r * r)?;
    let g0 = 0.0 + l.a * t0 + l.b * t1;
    let g1 = 0.0 + l.c * t0 + l.d * t1;
    let root = ControlScalar::sqrt(s);
    g.x0 = g.x0 + g0 / s * y;
    g.x1 = g.x1 + g1 / s * y;
    let turned = downdate(&mut g.p, g0 / root, g1 / root);
    turned.map(|()| y)
}

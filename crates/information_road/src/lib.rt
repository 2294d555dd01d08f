// The information filter of one road, written out: two states, one input and one measurement, by their numbers. A pair holds xi
// and omega, where the linear filter's holds its state and covariance. The steps are the road's own and the inverse at two states.
#![tactic(auto)]

ghost use Rattle.std.specs.Prelude.{◌≡◌, [], ◌∷◌};
ghost use Rattle.answer.specs.Answer.{mapped};
ghost use Rattle.answer.specs.Outcome.{into};
ghost use Rattle.filtering.specs.Information.{informed, of_estimate, predict as predict_of};
ghost use Rattle.road.specs.Road.{estimate_of, motion_of, sensor_of};
ghost use Rattle.information_steps.specs.Step.{update_by};
ghost use Rattle.information_road.specs.Road.{information_of, updated_of};

use answer::{Refusal, Step};
use road::{Motion, Pair, Sensor, Two};

// Of the estimate e: omega is p inverted, and xi is omega times x. Refused as singular: inversion rejects p. An estimate comes
// of xi and omega in the same way.
pub fn of_estimate(e: Pair) -> Result<Pair, Refusal>
    ensures { mapped information_of result ≡ of_estimate 2 (estimate_of e) }
{
    let w = e.p.inverse()?;
    Ok(Pair {
        x0: 0.0 + w.a * e.x0 + w.b * e.x1,
        x1: 0.0 + w.c * e.x0 + w.d * e.x1,
        p: w,
    })
}

// One step on, with the input u. Refused as singular: inversion rejects omega, or the predicted covariance.
pub fn predict(motion: Motion, u: f64, o: Pair) -> Result<Pair, Refusal>
    ensures { into (mapped information_of result) ≡ predict_of (motion_of motion) (u ∷ []) (information_of o) }
{
    let before = of_estimate(o)?;
    of_estimate(motion.predict(u, before))
}

// Omega + (Hᵀ w) H, and xi + Hᵀ (w z), for the inverted noise w.
pub fn inform(sensor: Sensor, w: f64, z: f64, o: Pair) -> Pair
    ensures { information_of result ≡ informed 2 1 (sensor_of sensor).h ((w ∷ []) ∷ []) (z ∷ []) (information_of o) }
{
    let h0 = sensor.h0;
    let h1 = sensor.h1;
    let p = o.p;
    let s0 = 0.0 + h0 * w;
    let s1 = 0.0 + h1 * w;
    let wz = 0.0 + w * z;
    Pair {
        x0: o.x0 + (0.0 + h0 * wz),
        x1: o.x1 + (0.0 + h1 * wz),
        p: Two {
            a: p.a + (0.0 + s0 * h0),
            b: p.b + (0.0 + s0 * h1),
            c: p.c + (0.0 + s1 * h0),
            d: p.d + (0.0 + s1 * h1),
        },
    }
}

// Updated by the measurement z, where w is the inverted noise: the addition stays whatever is told. The innovation is z less H
// times the state after the addition. Refused as singular: inversion rejects the omega that the addition made.
pub fn update_by(sensor: Sensor, w: f64, z: f64, o: Pair) -> Step<f64, Pair>
    ensures { (result.answer, information_of result.left)
        ≡ updated_of (information_of o) (update_by (sensor_of sensor) (z ∷ []) (information_of o) ((w ∷ []) ∷ [])) }
{
    let added = inform(sensor, w, z, o);
    let answer = of_estimate(added).map(|e| z - (0.0 + sensor.h0 * e.x0 + sensor.h1 * e.x1));
    Step {
        answer,
        left: added,
    }
}

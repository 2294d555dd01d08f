// `fuse_sensors` of src/estimator/information_filter.rs at f64: sensors in a lent slice of records, any count, fused one after
// another by the one-sensor step of the filter. A size of the filter, or of any sensor, that does not fit is refused with 1, and
// the filter is then unchanged, whatever stood before that sensor.
#![tactic(auto)]

ghost use Rattle.std.specs.Prelude.{◌≡◌};
ghost use Rattle.fusion.specs.Fusion.{begun_of, joined_all, kept_of, fused_of};

use answer::{Refusal, Step};
use information_filter::{InformationFilter, Sensor};

// The filter that all sensors leave, or the first refusal.
fn fused(f: InformationFilter, sensors: &[Sensor]) -> Result<InformationFilter, Refusal>
    ensures { result ≡ kept_of (joined_all (begun_of f) sensors.now) }
{
    steps::sized(f.n, f.m, f.i)?;
    let mut g = f;
    for s in sensors {
        let step = g.fuse_sensor(*s);
        step.answer?;
        g = step.left;
    }
    Ok(g)
}

pub fn fuse_sensors(f: InformationFilter, sensors: &[Sensor]) -> Step<(), InformationFilter>
    ensures { result ≡ fused_of f sensors.now }
{
    match fused(f, sensors) {
        Ok(left) => Step {
            answer: Ok(()),
            left,
        },
        Err(refusal) => Step {
            answer: Err(refusal),
            left: f,
        },
    }
}

// On a filter that the caller lends.
pub fn fuse_sensors_lent(f: &mut InformationFilter, sensors: &[Sensor]) -> Result<(), Refusal>
    ensures { (result ≡ (fused_of f.old sensors.now).answer)
        × (f.new ≡ (fused_of f.old sensors.now).left) }
{
    lent::into_place(fuse_sensors(*f, sensors), f)
}

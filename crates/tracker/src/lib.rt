// From settings and readings to filtered and smoothed positions: the middle of the depot sheet, by the numbers of one road.
// A slot is twelve numbers, as rts_pass reads it: the state and its covariance by rows, then the predicted pair.
#![tactic(auto)]

ghost use Rattle.std.specs.Prelude.{◌≡◌, ◌*◌, ◌≤◌, length};
ghost use Rattle.answer.specs.Answer.{mapped};
ghost use Rattle.road.specs.Road.{matrix_of, motion_of, sensor_of, estimate_of};
ghost use Rattle.duty.specs.Buffer.{slots_of};
ghost use Rattle.tracking.specs.Track.{measured, moved as moved_of, corrected as corrected_of};
ghost use Rattle.tracker.specs.Tracked.{slots_in, tracked_of, smoothed_of, track_in};

use answer::Refusal;
use duty::Room;
use road::{Motion, Pair, Road, Sensor, Two};
use scalar::ControlScalar;
use slots::{gathered, latest_rejected, put_slot};

mod slots;

// Seconds from reading to reading, and the noises of the process and of the measurement.
#[derive(Clone, Copy)]
pub struct Settings {
    pub step: f64,
    pub process: f64,
    pub measurement: f64,
}

// The positions of the readings, and +0 past them.
#[derive(Clone, Copy)]
pub struct Positions {
    pub filtered: [f64; 64],
    pub smoothed: [f64; 64],
}

// The reading, from 0, at which inversion rejects a matrix.
#[derive(Clone, Copy, Debug, PartialEq, Eq)]
pub struct Rejected {
    pub reading: usize,
}

// ---- a reading

// One predict, with input zero.
fn moved(motion: Motion, e: Pair) -> Pair
    ensures { estimate_of result ≡ moved_of (motion_of motion) (estimate_of e) }
{
    motion.predict(0.0, e)
}

// An update if there is a reading.
fn corrected(sensor: Sensor, reading: Option<f64>, e: Pair) -> Result<Pair, Refusal>
    ensures { mapped estimate_of result ≡ corrected_of (sensor_of sensor) (measured reading) (estimate_of e) }
{
    match reading {
        Some(z) => {
            let found = sensor.innovation(z, e)?;
            Ok(sensor.corrected(e, found))
        }
        None => Ok(e),
    }
}

// A slot for each reading; or the first reading that is refused.
fn filter(f: Road, readings: &[Option<f64>], slots: &mut [f64]) -> Result<(), Rejected>
    requires { (length readings.now ≤ 64) × (length readings.now * 12 ≤ length slots.old) }
    ensures { tracked_of result (slots_of 2 slots.new (length readings.now)) ≡ slots_in f readings.now }
{
    let motion = f.motion;
    let mut e = f.pair;
    for (k, reading) in readings.iter().enumerate() {
        let Ok(next) = corrected(f.sensor, *reading, moved(motion, e)) else {
            return Err(Rejected { reading: k });
        };
        e = next;
        put_slot(slots, k * 12, e, moved(motion, e));
    }
    Ok(())
}

// ---- all readings

// The first stored slots smoothed, with the transition a; or the slot at which that is refused. Lent: a copy would be 6 KB of stack.
fn smoothed(slots: &[f64], stored: usize, a: Two) -> Result<Positions, Rejected>
    requires { (stored ≤ 64) × (length slots.now ≡ 768) }
    ensures { result ≡ smoothed_of (matrix_of a) (slots_of 2 slots.now stored) }
{
    let mut pairs = [0.0; 384];
    let transition = [
        [a.a, a.b, 0.0, 0.0],
        [a.c, a.d, 0.0, 0.0],
        [0.0; 4],
        [0.0; 4],
    ];
    let room = Room {
        n: 2,
        room: ControlScalar::MAX_SLOTS,
        count: stored,
    };
    match rts_pass::smooth(slots, room, transition, &mut pairs[..]) {
        Ok(()) => Ok(Positions {
            filtered: gathered(slots, 12, stored),
            smoothed: gathered(&pairs[..], 6, stored),
        }),
        Err(_) => match latest_rejected(slots, stored) {
            Some(reading) => Err(Rejected { reading }),
            None => Ok(Positions {
                filtered: [0.0; 64],
                smoothed: [0.0; 64],
            }),
        },
    }
}

// The readings, filtered and smoothed; past 64 they play no part.
pub fn track(settings: Settings, readings: &[Option<f64>]) -> Result<Positions, Rejected>
    ensures { result ≡ track_in settings readings.now }
{
    let f = Road::position_velocity(settings.step, settings.process, settings.measurement);
    let used = readings.len().min(ControlScalar::MAX_SLOTS);
    let mut slots = [0.0; 768];
    filter(f, &readings[..used], &mut slots[..])?;
    smoothed(&slots[..], used, f.motion.a)
}

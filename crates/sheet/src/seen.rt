// What may be asked of a sheet that was read: the positions of its readings, and the stage of whole metres.
ghost use Rattle.std.specs.Prelude.{◌≡◌, ◌<◌, ◌≤◌, int_le, length, map, position, pos, take, IfErr};
ghost use Rattle.sheets.specs.Report.{measured_of};
ghost use Rattle.sheets.specs.Stage.{stage_of};
ghost use Rattle.tracker.specs.Tracked.{track_in};
ghost use Rattle.sheet.specs.Held.{settings_held};

use arrayvec::ArrayVec;
use sheet_reader::SheetRead;
use std::num::nearest_i64_to_f64;
use tracker::{Positions, Rejected, Settings, track};

// Step and noises as floats.
fn settings_of(sheet: &SheetRead) -> Settings
    ensures { result ≡ settings_held sheet.now }
{
    Settings {
        step: f64::from(sheet.step),
        process: f64::from(sheet.process),
        measurement: f64::from(sheet.measurement),
    }
}

// Readings as floats.
fn float_readings(readings: &[Option<i64>]) -> ArrayVec<Option<f64>, 64>
    requires { length readings.now ≤ 64 }
    ensures { result.items ≡ map measured_of readings.now }
{
    let mut floats = ArrayVec::new();
    for reading in readings {
        floats.push(reading.map(nearest_i64_to_f64));
    }
    floats
}

// The positions of a sheet's readings, filtered and smoothed; or the reading that is rejected.
pub fn positions_of(sheet: &SheetRead) -> Result<Positions, Rejected>
    ensures positions { result ≡ track_in (settings_held sheet.now) (map measured_of (take sheet.now.count sheet.now.readings)) }
    ensures placed { IfErr result (λ e. e.reading < 64) }
{
    let readings = float_readings(sheet.readings());
    track(settings_of(sheet), readings.as_slice())
}

// The first end that is not below whole metres.
fn reached(ends: &[u32], metres: i64) -> Option<usize>
    ensures { result ≡ position (λ e. int_le metres (pos e)) ends.now }
{
    ends.iter().position(|end| metres <= i64::from(*end))
}

// The stage of whole metres, from 1: the first whose end is not below them, else the last.
pub fn stage(ends: &[u32], metres: i64) -> usize
    ensures { result ≡ stage_of ends.now metres }
{
    match reached(ends, metres) {
        Some(k) => k + 1,
        None => ends.len(),
    }
}

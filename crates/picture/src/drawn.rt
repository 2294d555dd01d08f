// What is drawn of a sheet: its readings, filtered and smoothed, as places, and the stages that smoothing moved.
ghost use Rattle.std.specs.Prelude.{◌≢◌, ◌≤◌, length};
ghost use Rattle.sheets.specs.Report.{report};

use drawing::{Duty, Slot, draw, place_of};
use sheet::seen::{positions_of, stage};
use sheet_reader::read_sheet;
use sheet_text::metres::whole_metres;
use std::num::nearest_i64_to_f64;

// Whole centimetres of a part of a metre.
fn centimetres(x: f64) -> u32
    ensures { result ≤ 99 }
{
    match whole_metres(100.0 * x) {
        Some(w) => (w.unsigned_abs() % 100) as u32,
        None => 0,
    }
}

// The place of a position; the start of the road where it has no whole metres.
fn place(x: f64) -> u32 {
    match whole_metres(x) {
        Some(w) => place_of(w) + centimetres(x - nearest_i64_to_f64(w)),
        None => place_of(0),
    }
}

// The stage of a position. Past all whole metres that a sheet takes it is the last, below them the first.
fn stage_at(ends: &[u32], x: f64) -> usize {
    match whole_metres(x) {
        Some(w) => stage(ends, w),
        None => { if x > 0.0 { ends.len() } else { 1 } }
    }
}

// The stage by the filter where it is another than the smoothed one.
fn moved(ends: &[u32], filtered: f64, smoothed: f64) -> Option<u32> {
    let stage = stage_at(ends, filtered);
    if stage == stage_at(ends, smoothed) {
        None
    } else {
        Some((stage % 100) as u32)
    }
}

// A sheet that is answered, drawn on a page; how many bytes of it are drawn.
pub(crate) fn draw_sheet(sheet: &[u8], page: &mut [u8]) -> usize
    requires { length (report sheet.now) ≢ 17 }
    ensures { result ≤ length page.old }
{
    let sheet = read_sheet(sheet).unwrap();
    let positions = positions_of(&sheet).unwrap();
    let ends = sheet.ends();
    let readings = sheet.readings();
    let mut slots = [Slot {
        reading: None,
        smoothed: 0,
        moved: None,
    }; 64];
    let places = positions.filtered.iter().zip(&positions.smoothed);
    let found = readings.iter().zip(places);
    for (slot, (reading, (filtered, smoothed))) in slots.iter_mut().zip(found) {
        slot.reading = reading.map(place_of);
        slot.smoothed = place(*smoothed);
        slot.moved = moved(ends, *filtered, *smoothed);
    }
    draw(
        page,
        Duty {
            step: sheet.step,
            ends,
            slots: &slots[..readings.len()],
        },
    )
}

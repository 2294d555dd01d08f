// What the plot shows of a duty: from the lowest to the highest of its places, and all its seconds.
ghost use Rattle.std.specs.Prelude.{◌≤◌, length};

use crate::{Duty, START, Slot};
use chart::frame::Frame;

// A slot's places: the smoothed one, and the reading; that place again where none was taken.
fn places(slot: &Slot) -> [u32; 2] {
    [slot.smoothed, slot.reading.unwrap_or(slot.smoothed)]
}

// The seconds of one step past the last reading.
fn seconds(count: usize, step: u32) -> u32
    requires { count ≤ 64 }
{
    (count as u32 + 1) * step.min(99)
}

// The frame of all that is drawn, with a margin below and above.
pub(crate) fn frame_of(d: Duty) -> Frame
    requires { length d.slots.now ≤ 64 }
{
    let low = d.slots.iter().flat_map(places).min().unwrap_or(START);
    let high = d.slots.iter().flat_map(places).max().unwrap_or(START);
    let margin = high.saturating_sub(low) / 20 + 200;
    Frame {
        low: low.saturating_sub(margin),
        high: high.min(4_000_000_000) + margin,
        last: seconds(d.slots.len(), d.step),
    }
}

// The axes: round numbers of metres and of seconds.
ghost use Rattle.std.specs.Prelude.{◌≤◌, length};

use crate::frame::{Frame, LONGEST, across};
use crate::page::Page;
use std::fmt;
use std::fmt::Write;

// One, two or five times a power of ten.
const STEPS: [u32; 21] = [
    1, 2, 5, 10, 20, 50, 100, 200, 500, 1_000, 2_000, 5_000, 10_000, 20_000, 50_000, 100_000,
    200_000, 500_000, 1_000_000, 2_000_000, 5_000_000,
];

// The first of them of which a range has fewer than ten; ten million where there is none.
fn round_step(range: u32) -> u32
    ensures { (1 ≤ result) × (result ≤ 99999999) }
{
    STEPS
        .into_iter()
        .find(|step| u64::from(range) < 10 * u64::from(*step))
        .unwrap_or(10_000_000)
}

// Whole metres, 20,000 km below the start being 0, beside their place.
fn metres_mark(page: &mut Page, metres: u32, f: Frame) -> fmt::Result
    requires { metres ≤ 42949672 }
{
    let y = f.down(100 * metres);
    write!(
        page,
        "<path class='g' d='M940 {y}h60'/><text class='e' x='900' y='{}'>{}</text>\n",
        y + 50,
        i64::from(metres) - 20_000_000,
    )
}

// The axis of metres, a number at every step, as far as the page has room; how many bytes are then written. What finds no room tells
// nothing of the page, so that the number is held to the room that there was.
pub fn metres(page: &mut Page, f: Frame) -> usize
    ensures written { result ≤ page.new.len }
    ensures within { result ≤ length page.old.bytes.now }
{
    let room = page.room();
    let bottom = f.low / 100;
    let top = f.high / 100;
    let step = round_step(top.saturating_sub(bottom));
    // The number is the metres of a mark.
    for metres in (bottom - bottom % step + step..=top).step_by(step as usize) {
        let _ = metres_mark(page, metres, f);
    }
    page.len().min(room)
}

// The axis of seconds, likewise.
pub fn seconds(page: &mut Page, f: Frame) -> usize
    ensures written { result ≤ page.new.len }
    ensures within { result ≤ length page.old.bytes.now }
{
    let room = page.room();
    let last = f.last.min(LONGEST);
    // The number is the seconds of a mark.
    for t in (0..=last).step_by(round_step(last) as usize) {
        let x = across(t, last);
        let _ = write!(
            page,
            "<path class='g' d='M{x} 4500v60'/><text class='c' x='{x}' y='4720'>{t}</text>\n"
        );
    }
    page.len().min(room)
}

// A duty drawn as the text of an SVG element: the stages as bands, the axes, the smoothed line, the readings, and the stages that
// smoothing moved. Everything is in whole numbers; drawing is proved safe and to end, and which bytes are drawn is not stated.
#![tactic(auto)]

ghost use Rattle.std.specs.Prelude.{◌≡◌, ◌≤◌, length};
ghost use Rattle.drawing.specs.Place.{place_of};

use chart::page::Page;
use chart::ticks;
use std::fmt;
use std::fmt::Write;

mod bands;
mod points;
mod shown;

// Places are in centimetres, and this one is the start of the road.
const START: u32 = 2_000_000_000;

// The place of a reading where one was taken, the smoothed place, and the stage by the filter where smoothing moved it.
#[derive(Clone, Copy)]
pub struct Slot {
    pub reading: Option<u32>,
    pub smoothed: u32,
    pub moved: Option<u32>,
}

// What is drawn: the seconds from reading to reading, the stages' ends in metres, and the readings' slots.
#[derive(Clone, Copy)]
pub struct Duty<'a> {
    pub step: u32,
    pub ends: &'a [u32],
    pub slots: &'a [Slot],
}

// The place of whole metres, by their last seven digits.
pub fn place_of(metres: i64) -> u32
    ensures { (result ≡ place_of metres) × (result ≤ 3000000000) }
{
    let centimetres = 100 * (metres.unsigned_abs() % 10_000_000) as u32;
    if metres < 0 {
        START - centimetres
    } else {
        START + centimetres
    }
}

// What an SVG element says of itself, and the styles of its parts. A unit is a tenth of a point on the screen.
fn styles(page: &mut Page) -> fmt::Result {
    page.write_str(
        " xmlns='http://www.w3.org/2000/svg' width='960' height='540' viewBox='0 0 9600 5400' \
        font-family='sans-serif' font-size='140' fill='#222'>\n\
        <style>.a{fill:#fff}.b{fill:#e4e4e4}.a,.b{stroke:#bbb;stroke-width:4}.f{fill:none;stroke:#222;stroke-width:12}\
        .g{stroke:#222;stroke-width:8}.s,.d{stroke:#1f3a6e;stroke-width:24}.d{stroke-width:16;stroke-dasharray:45 35}\
        .p{fill:#1f3a6e}.r{fill:#fff;stroke:#222;stroke-width:14}.m{fill:none;stroke:#c00000;stroke-width:20}\
        .l{fill:#c00000;font-size:120px;font-weight:bold;text-anchor:middle}\
        .c{text-anchor:middle}.e{text-anchor:end}.t{font-size:190px;font-weight:bold}</style>\n\
        <rect width='9600' height='5400' fill='#fff'/>\n",
    )
}

// The title line, and what the axes count.
fn heading(page: &mut Page, slots: &[Slot]) -> fmt::Result {
    let count = slots.len();
    let missing = slots.iter().filter(|s| s.reading.is_none()).count();
    let moved = slots.iter().filter(|s| s.moved.is_some()).count();
    write!(
        page,
        "<text class='t' x='1000' y='350'>Readings: {count}. Missing: {missing}. Stage moved by smoothing: {moved}.</text>\n\
        <text class='e' x='900' y='580'>metres</text><text x='9000' y='580'>stage</text>\
        <text class='c' x='4950' y='4950'>seconds</text>\n"
    )
}

fn legend(page: &mut Page) -> fmt::Result
    ensures { page.new.len ≤ length page.old.bytes.now }
{
    page.text(
        "<circle class='r' cx='1060' cy='5185' r='40'/><text x='1160' y='5230'>reading</text>\n\
        <path class='s' d='M2080 5185h260'/><path class='d' d='M2340 5185h360'/>\
        <text x='2800' y='5230'>smoothed position, dashed: no reading</text>\n\
        <circle class='m' cx='5930' cy='5185' r='65'/><text x='6060' y='5230'>stage moved, with the stage by the filter</text>\n",
    )
}

// The title line, the plot and the legend.
fn body(page: &mut Page, d: Duty) -> fmt::Result
    requires { length d.slots.now ≤ 64 }
{
    let f = shown::frame_of(d);
    styles(page)?;
    heading(page, d.slots)?;
    bands::bands(page, d.ends, f)?;
    ticks::metres(page, f);
    ticks::seconds(page, f);
    points::line(page, d.slots, f)?;
    points::readings(page, d.slots, f)?;
    legend(page)
}

// The text after `<svg` and before `</svg>`, from the page's start on, as much of it as has room; its length. Of a duty the first 32
// stages and the first 64 slots are drawn.
pub fn draw(page: &mut [u8], duty: Duty) -> usize
    ensures { result ≤ length page.old }
{
    let room = page.len();
    let mut page = Page::new(page);
    let shown = Duty {
        step: duty.step,
        ends: &duty.ends[..duty.ends.len().min(32)],
        slots: &duty.slots[..duty.slots.len().min(64)],
    };
    // An error says that the text had no room.
    let _ = body(&mut page, shown);
    // No contract of writing says that the page keeps its length.
    page.len().min(room)
}

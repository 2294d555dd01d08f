// The smoothed line, dashed where no reading was taken; the readings; and a ring where smoothing moved the stage.
ghost use Rattle.std.specs.Prelude.{◌≤◌, length};

use crate::Slot;
use chart::frame::{Frame, across};
use chart::page::Page;
use std::fmt;
use std::fmt::Write;

// Where reading `number` of `count` stands.
fn column(number: u32, count: usize) -> u32
    requires { count ≤ 64 }
    ensures { result ≤ 8900 }
{
    across(number, count as u32 + 1)
}

// The smoothed line, a piece to each reading from the one before, dashed unless both were taken.
pub(crate) fn line(page: &mut Page, slots: &[Slot], f: Frame) -> fmt::Result
    requires { length slots.now ≤ 64 }
{
    let mut before: Option<(u32, u32, bool)> = None;
    for (number, slot) in (1..=64_u32).zip(slots) {
        let x = column(number, slots.len());
        let y = f.down(slot.smoothed);
        let taken = slot.reading.is_some();
        if let Some((from_x, from_y, was_taken)) = before {
            let class = if was_taken && taken { 's' } else { 'd' };
            write!(
                page,
                "<path class='{class}' d='M{from_x} {from_y}L{x} {y}'/>\n"
            )?;
        }
        before = Some((x, y, taken));
    }
    Ok(())
}

// Each reading that was taken, and each smoothed place, with a ring and the filter's stage where that is another.
pub(crate) fn readings(page: &mut Page, slots: &[Slot], f: Frame) -> fmt::Result
    requires { length slots.now ≤ 64 }
{
    for (number, slot) in (1..=64_u32).zip(slots) {
        let x = column(number, slots.len());
        let y = f.down(slot.smoothed);
        if let Some(place) = slot.reading {
            write!(
                page,
                "<circle class='r' cx='{x}' cy='{}' r='40'/>\n",
                f.down(place)
            )?;
        }
        write!(page, "<circle class='p' cx='{x}' cy='{y}' r='20'/>\n")?;
        if let Some(stage) = slot.moved {
            write!(
                page,
                "<circle class='m' cx='{x}' cy='{y}' r='65'/><text class='l' x='{x}' y='{}'>{stage}</text>\n",
                y.saturating_sub(95)
            )?;
        }
    }
    Ok(())
}

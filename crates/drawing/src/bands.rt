// The stages as bands, every other one grey, with their numbers at the right edge where they have room.
ghost use Rattle.std.specs.Prelude.{◌≤◌};

use crate::START;
use chart::frame::{BOTTOM, Frame, TOP};
use chart::page::Page;
use std::fmt;
use std::fmt::Write;

// The upper edge of a stage that another follows: a metre past its end.
fn edge(end: u32, f: Frame) -> u32
    ensures { result ≤ 4500 }
{
    f.down(START + 100 * (end.min(9_999_998) + 1))
}

// How far the bands are drawn: the lower edge of the next, and the height of the last number written.
#[derive(Drop)]
struct Drawn {
    lower: u32,
    labelled: u32,
    ghost in_plot: { lower ≤ 4500 },
}

impl Drawn {
    // The band of a stage up to its upper edge, none where that is not above the lower one; with its number, if there is room.
    fn band(&mut self, page: &mut Page, stage: u32, upper: u32) -> fmt::Result
        requires { upper ≤ 4500 }
    {
        if self.lower <= upper {
            return Ok(());
        }
        let height = self.lower - upper;
        let class = if stage % 2 == 1 { 'b' } else { 'a' };
        write!(
            page,
            "<rect class='{class}' x='1000' y='{upper}' width='7900' height='{height}'/>\n"
        )?;
        self.lower = upper;
        let middle = upper + height / 2;
        if self.labelled.saturating_sub(middle) < 150 {
            return Ok(());
        }
        self.labelled = middle;
        write!(page, "<text x='9000' y='{}'>{stage}</text>\n", middle + 50)
    }
}

pub(crate) fn bands(page: &mut Page, ends: &[u32], f: Frame) -> fmt::Result {
    let mut drawn = Drawn {
        lower: BOTTOM,
        labelled: 9600,
    };
    for (stage, end) in (1..=32_u32).zip(ends) {
        let upper = if stage as usize == ends.len() {
            TOP
        } else {
            edge(*end, f)
        };
        drawn.band(page, stage, upper)?;
    }
    page.write_str("<rect class='f' x='1000' y='700' width='7900' height='3800'/>\n")
}

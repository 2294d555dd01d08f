// A depot sheet read from its bytes, line by line: what it says in whole numbers, or the refusal and its line.
#![tactic(auto)]

ghost use Rattle.std.specs.Prelude.{◌≡◌, ◌≤◌, length, take};
ghost use Rattle.sheets.specs.Sheet.{read_sheet};
ghost use Rattle.sheets.specs.Verdict.{mapped};
ghost use Rattle.sheet_reader.specs.Held.{sheet_held};

use answer::Refusal;
use head::read_head;
use lines::at_line;
use parts::{read_ends, read_readings};
use sheets::SheetRefusal;

mod head;
mod lines;
mod parts;

// What a sheet says: its step and noises, the stages' ends, and each reading's metres, where one was taken. `stages` ends and `count`
// readings stand at the start of their arrays.
#[derive(Clone, Copy)]
pub struct SheetRead {
    pub step: u32,
    pub process: u32,
    pub measurement: u32,
    pub stages: u32,
    pub count: u32,
    pub ends: [u32; 32],
    pub readings: [Option<i64>; 64],
}

impl SheetRead {
    // The stages' ends.
    pub fn ends(&self) -> &[u32]
        ensures held { result.now ≡ take self.now.stages self.now.ends }
        ensures few { length result.now ≤ 32 }
    {
        &self.ends[..self.ends.len().min(self.stages as usize)]
    }

    // Each reading's metres, where one was taken.
    pub fn readings(&self) -> &[Option<i64>]
        ensures held { result.now ≡ take self.now.count self.now.readings }
        ensures few { length result.now ≤ 64 }
    {
        &self.readings[..self.readings.len().min(self.count as usize)]
    }
}

// The sheet in these bytes.
pub fn read_sheet(s: &[u8]) -> Result<SheetRead, SheetRefusal>
    ensures { result ≡ mapped sheet_held (read_sheet s.now) }
{
    let head = read_head(s)?;
    let ends = read_ends(s, head.stages)?;
    let first = 2 + head.stages as u32;
    let from = 41 + 9 * head.stages;
    let readings = read_readings(s, first, from, head.readings)?;
    if s.len() != from + 17 * head.readings {
        return Err(at_line(Refusal::BadForm, first + head.readings as u32));
    }
    Ok(SheetRead {
        step: head.step,
        process: head.process,
        measurement: head.measurement,
        stages: head.stages as u32,
        count: head.readings as u32,
        ends,
        readings,
    })
}

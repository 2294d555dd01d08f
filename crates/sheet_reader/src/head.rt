// Line 1 of a sheet: the settings, and how many stages and readings follow.
ghost use Rattle.std.specs.Prelude.{◌≡◌, ◌≤◌, [], ◌∷◌, IfOk};
ghost use Rattle.sheets.specs.Sheet.{read_head};
ghost use Rattle.sheets.specs.Verdict.{mapped};
ghost use Rattle.sheet_reader.specs.Held.{head_held, head_in};

use crate::lines::{at_line, line};
use answer::Refusal;
use sheets::SheetRefusal;

#[derive(Clone, Copy)]
pub struct Head {
    pub step: u32,
    pub process: u32,
    pub measurement: u32,
    pub stages: usize,
    pub readings: usize,
}

// What line 1's numbers say, where they are in range.
fn head_of(step: i64, process: i64, measurement: i64, stages: i64, readings: i64) -> Option<Head>
    ensures { result ≡ head_in (step ∷ process ∷ measurement ∷ stages ∷ readings ∷ []) }
{
    match (step, process, measurement, stages, readings) {
        (1..=99, 0..=9999, 1..=9999, 1..=32, 1..=64) => Some(Head {
            step: step as u32,
            process: process as u32,
            measurement: measurement as u32,
            stages: stages as usize,
            readings: readings as usize,
        }),
        _ => None,
    }
}

pub(crate) fn read_head(s: &[u8]) -> Result<Head, SheetRefusal>
    ensures read { result ≡ mapped head_held (read_head s.now) }
    ensures few { IfOk result (λ h. (h.stages ≤ 32) × (h.readings ≤ 64)) }
{
    let [step, process, measurement, stages, readings] = line::<5>(s, 0).ok_or(at_line(
        Refusal::BadForm,
        1,
    ))?;
    head_of(step, process, measurement, stages, readings).ok_or(at_line(Refusal::OutOfRange, 1))
}

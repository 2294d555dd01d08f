// The report of a sheet: what is printed of it, or why it is refused.
ghost use Rattle.std.specs.Prelude.{◌≡◌, ◌≤◌, [], length, IfErr};
ghost use Rattle.sheets.specs.Output.{all_metres};
ghost use Rattle.sheets.specs.Report.{answer_of, report};
ghost use Rattle.sheets.specs.Sheet.{read_sheet};
ghost use Rattle.sheets.specs.Verdict.{mapped, then};
ghost use Rattle.sheet.specs.Held.{metres_held};

use crate::printing::{ROOM, put_line, put_lines};
use crate::seen::positions_of;
use answer::Refusal;
use arrayvec::ArrayVec;
use sheet_reader::read_sheet;
use sheet_text::metres::whole_metres;
use sheets::SheetRefusal;

// The whole metres of positions, the first of which stands on line `first` of the sheet.
fn all_metres(positions: &[f64], first: u32) -> Result<ArrayVec<i64, 64>, SheetRefusal>
    requires { (length positions.now ≤ 64) × (first ≤ 65536) }
    ensures { result ≡ mapped metres_held (all_metres first positions.now) }
{
    let mut metres = ArrayVec::new();
    for (i, x) in positions.iter().enumerate() {
        metres.push(whole_metres(*x).ok_or(SheetRefusal {
            refusal: Refusal::NoWholeMetres,
            line: first + i as u32,
        })?);
    }
    Ok(metres)
}

// A sheet read, filtered and smoothed, and a line for each reading; or why it is refused, and nothing is written. The text is lent, and
// nothing is handed on by value that a caller would hold once more: the header says how much stack a report takes.
pub(crate) fn put_readings(text: &mut ArrayVec<u8, ROOM>, s: &[u8]) -> Result<(), SheetRefusal>
    requires { text.old.items ≡ [] }
    ensures said { mapped (λ _. text.new.items) result ≡ then (read_sheet s.now) answer_of }
    ensures unwritten { IfErr result (λ _. text.new.items ≡ []) }
{
    let sheet = read_sheet(s)?;
    let first = 2 + sheet.ends().len() as u32;
    match positions_of(&sheet) {
        Ok(positions) => {
            let metres = all_metres(&positions.smoothed[..sheet.readings().len()], first)?;
            put_lines(text, sheet.ends(), metres.as_slice());
            Ok(())
        }
        Err(rejected) => Err(SheetRefusal {
            refusal: Refusal::SingularMatrix,
            line: first + rejected.reading as u32,
        }),
    }
}

// The report of a sheet: its lines, or its refusal's.
pub(crate) fn put_report(text: &mut ArrayVec<u8, ROOM>, sheet: &[u8])
    requires { text.old.items ≡ [] }
    ensures { text.new.items ≡ report sheet.now }
{
    if let Err(refused) = put_readings(text, sheet) {
        let number = u8::from(refused.refusal);
        put_line(text, &[i64::from(number), i64::from(refused.line)]);
    }
}

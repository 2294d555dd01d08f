// The depot sheet on bytes: a sheet in, a line for each reading out, or one refusal line; filtered and smoothed between.
#![tactic(auto)]

ghost use Rattle.std.specs.Prelude.{◌≡◌};
ghost use Rattle.answer.specs.Told.{written as written_to};
ghost use Rattle.sheets.specs.Report.{report as report_of};
ghost use Rattle.sheet.specs.Call.{report_told, report_left, report_in};

use answer::Refusal;
use arrayvec::ArrayVec;
use lines::put_report;
use printing::ROOM;
use sizes::fits;

mod lines;
mod printing;
pub mod seen;

// The report of a sheet: its bytes stand at the start of the output, and the rest of the output stays; the number of its bytes.
// An output of fewer than 1,600 bytes, 64 lines of 25, is refused with 1 and unchanged.
pub fn report(sheet: &[u8], output: &mut [u8]) -> Result<usize, Refusal>
    ensures { (result ≡ report_told (report_of sheet.now) output.old)
        × (output.new ≡ report_left (report_of sheet.now) output.old) }
{
    fits(ROOM <= output.len())?;
    let mut text = ArrayVec::new();
    put_report(&mut text, sheet);
    output[..text.len()].copy_from_slice(text.as_slice());
    Ok(text.len())
}

// The same with a lent place for the number of bytes, as the C interface has it. A refusal leaves everything unchanged.
pub fn sheet_report(sheet: &[u8], output: &mut [u8], written: &mut usize) -> Result<(), Refusal>
    ensures { (result, (written.new, output.new))
        ≡ written_to (written.old, output.old) (report_in (report_of sheet.now) output.old) }
{
    *written = report(sheet, output)?;
    Ok(())
}

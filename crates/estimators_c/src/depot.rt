// The depot sheet for C: the export calls the function of its name, and has its contract.
ghost use Rattle.std.specs.Prelude.{◌≡◌};
ghost use Rattle.answer.specs.Told.{given};
ghost use Rattle.sheets.specs.Report.{report};
ghost use Rattle.sheet.specs.Call.{report_in};

use answer::number_of;
use estimators::depot;

// The report of a sheet at the output's start, and how many bytes it has. Refused with 1: the output is shorter than 1,600 bytes.
#[unsafe(no_mangle)]
pub extern "C" fn estimators_sheet_report(sheet: &[u8], out: &mut [u8], written: &mut usize) -> u8
    ensures { (result, (written.new, out.new))
        ≡ given (written.old, out.old) (report_in (report sheet.now) out.old) }
{
    number_of(depot::estimators_sheet_report(sheet, out, written))
}

// The picture of a duty: a depot sheet in, an SVG file out, or the refusal line that the sheet's report is. What the file shows is
// proved safe and to end; that it is one `svg` element, where it ends, and everything of a refusal are stated.
#![tactic(auto)]

ghost use Rattle.std.specs.Prelude.{◌≡◌, ◌≢◌, ◌+◌, ◌≤◌, length};
ghost use Rattle.sheets.specs.Report.{report};
ghost use Rattle.picture.specs.Picture.{Drawn, Pictured, Stored};

use answer::Refusal;
use drawn::draw_sheet;

mod drawn;

// The bytes of an output that has room for every picture.
pub const ROOM: usize = 32768;

// A text in the output from byte `at` on; the place after it.
fn store(output: &mut [u8], at: usize, text: &[u8]) -> usize
    requires { at + length text.now ≤ length output.old }
    ensures { Stored output.old output.new at text.now result }
{
    let end = at + text.len();
    output[at..end].copy_from_slice(text);
    end
}

// The picture of a sheet that is answered, from the output's start on; the number of its bytes.
fn put_picture(sheet: &[u8], output: &mut [u8]) -> usize
    requires room { 32768 ≤ length output.old }
    requires answered { length (report sheet.now) ≢ 17 }
    ensures { Drawn output.old output.new result }
{
    let mut page = [0u8; 32000];
    let n = draw_sheet(sheet, &mut page[..]);
    let a = store(output, 0, b"<svg");
    let b = store(output, a, &page[..n]);
    store(output, b, b"</svg>\n")
}

// The picture of a sheet from the output's start on, or the sheet's refusal line; the rest of the output stays. An output of fewer
// than 32,768 bytes is refused with 1 and unchanged.
pub fn picture(sheet: &[u8], output: &mut [u8]) -> Result<usize, Refusal>
    ensures { Pictured sheet.now output.old output.new result }
{
    if output.len() < ROOM {
        return Err(Refusal::WrongSize);
    }
    let mut text = [0u8; 1600];
    let n = sheet::report(sheet, &mut text[..])?;
    if n == 17 {
        Ok(store(output, 0, &text[..17]))
    } else {
        Ok(put_picture(sheet, output))
    }
}

// A line of a sheet: its numbers, where it has its form. A place is asked to stand within the sheet, so this is for this crate alone.
ghost use Rattle.std.specs.Prelude.{◌≡◌, ◌<◌, ◌≤◌};
ghost use Rattle.sheet_reader.specs.Held.{line_at};

use answer::Refusal;
use sheet_text::read_field;
use sheets::SheetRefusal;

// The numbers of the line of K fields that begins at `at`.
#[tactic(auto, unfolding(sheets::specs::Line::form))]
pub(crate) fn line<const K: usize>(s: &[u8], at: usize) -> Option<[i64; K]>
    requires { (at < 65536) × (K ≤ 5) }
    ensures { result ≡ line_at K s.now at }
{
    if *s.get(at + 8 * K)? != b'\n' {
        return None;
    }
    let mut numbers = [0; K];
    for (k, number) in numbers.iter_mut().enumerate() {
        *number = read_field(s, at + 8 * k)?;
    }
    Some(numbers)
}

// A line's refusal.
pub(crate) fn at_line(refusal: Refusal, line: u32) -> SheetRefusal
    ensures { result ≡ record { refusal = refusal; line = line } }
{
    SheetRefusal { refusal, line }
}

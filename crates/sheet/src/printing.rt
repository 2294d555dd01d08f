// The bytes of a report: lines of fields, one after another.
ghost use Rattle.std.specs.Prelude.{◌≡◌, ◌+◌, ◌*◌, ◌≤◌, ◌++◌, length};
ghost use Rattle.sheets.specs.Output.{line_text, readings_text};

use crate::seen::stage;
use arrayvec::ArrayVec;
use sheet_text::write_field;

// The bytes of 64 lines of 25.
pub(crate) const ROOM: usize = 1600;

// A line of numbers.
pub(crate) fn put_line(text: &mut ArrayVec<u8, ROOM>, numbers: &[i64])
    requires { length text.old.items + 8 * length numbers.now + 1 ≤ 1600 }
    ensures { text.new.items ≡ text.old.items ++ line_text numbers.now }
{
    for number in numbers {
        text.try_extend_from_slice(&write_field(*number)).unwrap();
    }
    text.push(b'\n');
}

// A line for each reading: its number from 1, its whole metres, its stage.
pub(crate) fn put_lines(text: &mut ArrayVec<u8, ROOM>, ends: &[u32], metres: &[i64])
    requires { (length text.old.items + 25 * length metres.now ≤ 1600) × (length ends.now ≤ 32) }
    ensures { text.new.items ≡ text.old.items ++ readings_text 1 ends.now metres.now }
{
    for (i, m) in metres.iter().enumerate() {
        put_line(text, &[i as i64 + 1, *m, stage(ends, *m) as i64]);
    }
}

// The stages' ends and the readings of a sheet: two kinds of lines, read one after another by one function.
ghost use Rattle.std.specs.Prelude.{◌≡◌, ◌≤◌, Bool, [], List, ℤ};
ghost use Rattle.sheets.specs.Sheet.{end_in_range, end_of, reading_in_range, reading_of, reading_test, read_ends};
ghost use Rattle.sheets.specs.Line.{nth, read_lines};
ghost use Rattle.sheets.specs.Verdict.{mapped};
ghost use Rattle.sheet_reader.specs.Held.{ends_held, readings_held, rows_held, said_by, test_by};

use crate::lines::{at_line, line};
use answer::Refusal;
use sheets::SheetRefusal;

// What a line of K numbers says, where they are in range after what the line before said.
pub(crate) trait Row<const K: usize>: Copy + Default {
    ghost says: { List ℤ → Self };

    ghost in_range: { Self → List ℤ → Bool };

    fn after(before: Self, numbers: [i64; K]) -> Option<Self>
        ensures { result ≡ said_by says in_range before numbers.entry };

    // Before the first line stands the default.
    ghost starts: { (x : Self) → Self.is_default x → x ≡ says [] };
}

// A stage's end, above the one before.
impl Row<1> for u32 {
    ghost says = { end_of };

    ghost in_range = { λ before zs. end_in_range before (nth zs 0) };

    ghost starts = { λ x e. e };

    fn after(before: u32, numbers: [i64; 1]) -> Option<u32>
        ensures { result ≡ said_by end_of (λ before zs. end_in_range before (nth zs 0)) before numbers }
    {
        let [end] = numbers;
        match u32::try_from(end) {
            Ok(end @ 1..=9999999) if before < end => Some(end),
            _ => None,
        }
    }
}

// A reading by its kind and metres, where one was taken.
impl Row<2> for Option<i64> {
    ghost says = { reading_of };

    ghost in_range = { λ _ zs. reading_in_range (nth zs 0) (nth zs 1) };

    ghost starts = { λ x e. e };

    fn after(_before: Option<i64>, numbers: [i64; 2]) -> Option<Option<i64>>
        ensures { result ≡ said_by reading_of (λ _ zs. reading_in_range (nth zs 0) (nth zs 1)) _before numbers }
    {
        let [kind, metres] = numbers;
        match (kind, metres) {
            (0, 0) => Some(None),
            (1, -9999999..=9999999) => Some(Some(metres)),
            _ => None,
        }
    }
}

// n lines, the first of which stands on line `first` of the sheet and at byte `from`; after them stand defaults.
fn read_rows<R: Row<K>, const K: usize, const N: usize>(
    s: &[u8],
    first: u32,
    from: usize,
    n: usize,
) -> Result<[R; N], SheetRefusal>
    requires { (first ≤ 34) × (from ≤ 329) × (n ≤ 64) × (n ≤ N) × (K ≤ 2) }
    ensures { result ≡ mapped (rows_held N R.says) (read_lines K (test_by R.says R.in_range) n [] first from s.now) }
{
    let mut before = R::default();
    let mut rows = [before; N];
    // The index is a line's number and its place among the bytes.
    for i in 0..n {
        let number = first + i as u32;
        let at = from + (8 * K + 1) * i;
        let numbers = line::<K>(s, at).ok_or(at_line(Refusal::BadForm, number))?;
        before = R::after(before, numbers).ok_or(at_line(Refusal::OutOfRange, number))?;
        rows[i] = before;
    }
    Ok(rows)
}

// The ends of n stages.
pub(crate) fn read_ends(s: &[u8], n: usize) -> Result<[u32; 32], SheetRefusal>
    requires { n ≤ 32 }
    ensures { result ≡ mapped ends_held (read_ends n s.now) }
{
    read_rows(s, 2, 41, n)
}

// n readings, the first of which stands on line `first` of the sheet and at byte `from`.
pub(crate) fn read_readings(
    s: &[u8],
    first: u32,
    from: usize,
    n: usize,
) -> Result<[Option<i64>; 64], SheetRefusal>
    requires { (first ≤ 34) × (from ≤ 329) × (n ≤ 64) }
    ensures { result ≡ mapped readings_held (read_lines 2 reading_test n [] first from s.now) }
{
    read_rows(s, first, from, n)
}

// The numbers of a depot sheet: a field of eight bytes read where it stands, and written by one table of powers of ten. No public
// function asks anything of its caller.
#![tactic(auto)]

ghost use Rattle.std.specs.Prelude.{◌≡◌, ◌^◌, ◌<◌, ◌≤◌, length};
ghost use Rattle.sheets.specs.Field.{read_digits, read_field, reaches as reached, column as column_byte, columns, write_field};
ghost use Rattle.sheet_text.specs.Held.{field_in};

pub mod metres;

// The powers of ten that a field's columns count, from the right.
const POWERS: [u64; 8] = [1, 10, 100, 1000, 10000, 100000, 1000000, 10000000];

// The power of ten that column k counts, from the right and from 0.
fn power(k: usize) -> u64
    requires { k < 8 }
    ensures { (result ≡ 10 ^ k) × (result ≤ 10000000) }
{
    POWERS[k]
}

// The number that these digits say.
#[tactic(auto, unfolding(sheets::specs::Field::read_digits))]
fn read_digits(digits: &[u8]) -> Option<u32>
    requires { length digits.now ≤ 8 }
    ensures { result ≡ read_digits digits.now }
{
    let (first, rest) = digits.split_first()?;
    if *first == b'0' && !rest.is_empty() {
        return None;
    }
    let mut size = 0;
    for b in digits {
        if !b.is_ascii_digit() {
            return None;
        }
        size = 10 * size + u32::from(*b - b'0');
    }
    Some(size)
}

// The number that a field says: spaces, then a minus or none, then digits.
#[tactic(auto, unfolding(sheets::specs::Field::read_field))]
fn number(mut field: &[u8]) -> Option<i64>
    requires { length field.now ≤ 8 }
    ensures { result ≡ read_field field.now }
{
    loop {
        let (first, rest) = field.split_first()?;
        match *first {
            b' ' => field = rest,
            b'-' => {
                let size = read_digits(rest)?;
                return if size == 0 {
                    None
                } else {
                    Some(-i64::from(size))
                };
            }
            _ => return read_digits(field).map(i64::from),
        }
    }
}

// The number that the eight bytes from `at` on say; where fewer stand, there is no field.
pub fn read_field(s: &[u8], at: usize) -> Option<i64>
    ensures { result ≡ field_in s.now at }
{
    number(s.get(at..)?.get(..8)?)
}

// Whether column k of a number has a digit.
fn reaches(k: usize, size: u64) -> bool
    requires { k < 8 }
    ensures { result ≡ reached k size }
{
    k == 0 || power(k) <= size
}

// Column k of a whole number, from the right and from 0.
#[tactic(auto, using(sheets::proofs::Writing::ten), unfolding(sheets::specs::Field::column))]
fn column(below: bool, size: u64, k: usize) -> u8
    requires { k < 8 }
    ensures { result ≡ column_byte below k size }
{
    if reaches(k, size) {
        b'0' + (size / power(k) % 10) as u8
    } else if below && reaches(k - 1, size) {
        b'-'
    } else {
        b' '
    }
}

// The eight columns of a number, below zero or not.
#[tactic(auto, unfolding(sheets::specs::Field::columns))]
fn write_columns(below: bool, size: u64) -> [u8; 8]
    ensures { result ≡ columns below 8 size }
{
    std::array::from_fn(|i| column(below, size, 7 - i))
}

// A whole number as a field; there is no -0.
#[tactic(auto, unfolding(sheets::specs::Field::write_field))]
pub fn write_field(w: i64) -> [u8; 8]
    ensures { result ≡ write_field w }
{
    write_columns(w < 0, w.unsigned_abs())
}

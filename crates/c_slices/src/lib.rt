// For calls on slices that the caller lends: the sizes of a slice of the right length, what it holds, and the ways out. A call
// reads numbers and slices and writes into a lent place; a refusal goes up by `?`, and writes nothing.
#![tactic(auto)]

ghost use Rattle.std.specs.Prelude.{◌≡◌, true, ◌*◌, length};
ghost use Rattle.answer.specs.Answer.{where_sized};
ghost use Rattle.answer.specs.Told.{written};
ghost use Rattle.algebra.specs.Array.{used};
ghost use Rattle.sizes.specs.Size.{count, size_of, part};
ghost use Rattle.c_slices.specs.Slices.{is_matrix, is_vector, rows};
ghost use Rattle.c_slices.specs.Told.{matrix_told};

use answer::Refusal;
use sizes::{Size, fits, shape, size_of};

// ---- the sizes that a call is given, by their type, where a slice of len numbers has them

// Just r rows of c numbers.
#[inline(always)]
#[tactic(auto, unfolding(crate::specs::Slices::is_matrix))]
pub fn matrix(r: usize, c: usize, len: usize) -> Result<(Size, Size), Refusal>
    ensures { result ≡ where_sized (is_matrix r c len) (size_of r, size_of c) }
{
    let (rows, cols) = shape(r, c)?;
    fits(len == r * c)?;
    Ok((rows, cols))
}

// A vector of n numbers: a column, n rows of one.
#[inline(always)]
pub fn vector(n: usize, len: usize) -> Result<Size, Refusal>
    ensures { result ≡ where_sized (is_vector n len) (size_of n) }
{
    let (size, _) = matrix(n, 1, len)?;
    Ok(size)
}

// ---- what a slice holds, and an answer into a lent place

// The r rows and c columns of a, which has just so many numbers.
#[inline(always)]
pub fn part_in(a: &[f64], r: Size, c: Size) -> [[f64; 4]; 4]
    ensures { length a.now ≡ count r * count c → part r c result ≡ rows (count r) (count c) a.now }
{
    layout::matrix_at(a, 0, r, c)
}

// The same by any numbers for r and c: what they say of a slice that the test does not pass is not told.
pub fn rows_in(a: &[f64], r: usize, c: usize) -> [[f64; 4]; 4]
    ensures { is_matrix r c (length a.now) ≡ true → used r c result ≡ rows r c a.now }
{
    part_in(a, size_of(r), size_of(c))
}

// What is answered; a refusal writes nothing, here as in the two below.
#[inline(always)]
pub fn give<T: Copy>(out: &mut T, answer: Result<T, Refusal>) -> Result<(), Refusal>
    ensures { (result, out.new) ≡ written out.old answer }
{
    *out = answer?;
    Ok(())
}

// The r rows and c columns that are answered, into a place of just so many numbers.
#[inline(always)]
pub fn give_part(
    out: &mut [f64],
    answer: Result<[[f64; 4]; 4], Refusal>,
    r: Size,
    c: Size,
) -> Result<(), Refusal>
    ensures { length out.old ≡ count r * count c → (result, out.new) ≡ written out.old (matrix_told (count r) (count c) answer) }
{
    layout::put_matrix(out, 0, &answer?, r, c);
    Ok(())
}

// The same by any numbers for r and c.
pub fn give_matrix(
    out: &mut [f64],
    answer: Result<[[f64; 4]; 4], Refusal>,
    r: usize,
    c: usize,
) -> Result<(), Refusal>
    ensures { is_matrix r c (length out.old) ≡ true → (result, out.new) ≡ written out.old (matrix_told r c answer) }
{
    give_part(out, answer, size_of(r), size_of(c))
}

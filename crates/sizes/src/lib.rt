// Sizes, 1 to 4: the type of them, and what the sizes that a call is given come to: the sizes by their type, or a refusal.
#![tactic(auto)]

ghost use Rattle.std.specs.Prelude.{◌≡◌};
ghost use Rattle.answer.specs.Answer.{where_sized};
ghost use Rattle.sizes.specs.Size.{count, size_of, sized, shaped, alike, chained, inside, paired, applicable};

use answer::Refusal;
use scalar::ControlScalar;

// How many rows, columns or numbers of an array of four are used.
#[derive(Clone, Copy, Debug, PartialEq, Eq)]
pub enum Size {
    One,
    Two,
    Three,
    Four,
}

impl From<Size> for usize {
    ghost from_gives = { λ s n. n ≡ count s };

    fn from(size: Size) -> usize {
        match size {
            Size::One => 1,
            Size::Two => 2,
            Size::Three => 3,
            Size::Four => 4,
        }
    }
}

impl TryFrom<usize> for Size {
    type Error = Refusal;

    ghost try_from_gives = { λ n r. r ≡ where_sized (sized n) (size_of n) };

    fn try_from(n: usize) -> Result<Size, Refusal> {
        fits(is_size(n))?;
        Ok(size_of(n))
    }
}

// The size of n, which a caller has tested to be one.
pub fn size_of(n: usize) -> Size
    ensures { result ≡ size_of n }
{
    if n < 2 {
        return Size::One;
    }
    if n < 3 {
        return Size::Two;
    }
    if n < 4 {
        return Size::Three;
    }
    Size::Four
}

// ---- tests, each one bool

// Refused, where the sizes and lengths of a call are not as it asks.
pub fn fits(test: bool) -> Result<(), Refusal>
    ensures { result ≡ where_sized test tt }
{
    if test {
        Ok(())
    } else {
        Err(Refusal::WrongSize)
    }
}

// A size is 1 to 4; the limits of states, measurements, inputs and models are one number.
#[tactic(auto, unfolding(crate::specs::Size::sized))]
pub fn is_size(n: usize) -> bool
    ensures { result ≡ sized n }
{
    (1 <= n) & (n <= ControlScalar::MAX_STATES)
}

#[tactic(auto, unfolding(crate::specs::Size::shaped))]
pub fn is_shape(r: usize, c: usize) -> bool
    ensures { result ≡ shaped r c }
{
    is_size(r) & is_size(c)
}

// ---- the sizes that a call is given, by their type

// r rows and c columns.
pub fn shape(r: usize, c: usize) -> Result<(Size, Size), Refusal>
    ensures { result ≡ where_sized (shaped r c) (size_of r, size_of c) }
{
    fits(is_shape(r, c))?;
    Ok((size_of(r), size_of(c)))
}

// The sizes of a product: the first matrix has as many columns as the second has rows.
#[tactic(auto, unfolding(crate::specs::Size::chained))]
pub fn chain(ar: usize, ac: usize, br: usize, bc: usize) -> Result<(Size, Size, Size), Refusal>
    ensures { result ≡ where_sized (chained ar ac br bc) (size_of ar, size_of ac, size_of bc) }
{
    fits(is_shape(ar, ac) & (is_shape(br, bc) & (ac == br)))?;
    Ok((size_of(ar), size_of(ac), size_of(bc)))
}

// The sizes of two matrices that have the same.
#[tactic(auto, unfolding(crate::specs::Size::alike))]
pub fn alike(ar: usize, ac: usize, br: usize, bc: usize) -> Result<(Size, Size), Refusal>
    ensures { result ≡ where_sized (alike ar ac br bc) (size_of ar, size_of ac) }
{
    fits(is_shape(ar, ac) & ((ar == br) & (ac == bc)))?;
    Ok((size_of(ar), size_of(ac)))
}

// The sizes of a matrix that has a row i and a column j.
#[tactic(auto, unfolding(crate::specs::Size::inside))]
pub fn inside(r: usize, c: usize, i: usize, j: usize) -> Result<(Size, Size), Refusal>
    ensures { result ≡ where_sized (inside r c i j) (size_of r, size_of c) }
{
    fits(is_shape(r, c) & ((i < r) & (j < c)))?;
    Ok((size_of(r), size_of(c)))
}

// The one size of two vectors.
#[tactic(auto, unfolding(crate::specs::Size::paired))]
pub fn pair(n: usize, m: usize) -> Result<Size, Refusal>
    ensures { result ≡ where_sized (paired n m) (size_of n) }
{
    fits(is_size(n) & (n == m))?;
    Ok(size_of(n))
}

// The sizes of a matrix that has as many columns as a vector of n numbers has components.
#[tactic(auto, unfolding(crate::specs::Size::applicable))]
pub fn applied(r: usize, c: usize, n: usize) -> Result<(Size, Size), Refusal>
    ensures { result ≡ where_sized (applicable r c n) (size_of r, size_of c) }
{
    fits(is_shape(r, c) & (c == n))?;
    Ok((size_of(r), size_of(c)))
}

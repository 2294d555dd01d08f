// Vectors and matrices in a lent slice of numbers, a matrix by rows of its used size. A size is 1 to 4 by its type, and each
// function tests that the numbers lie within the slice: a reading gives all +0 where not, and a writing leaves the slice as it was.
#![tactic(auto, using(std::proofs::lemmas::Bool::Decides::nat_tests), unfolding(crate::specs::Layout::room))]

ghost use Rattle.std.specs.Prelude.{◌≡◌, ◌++◌, ◌+◌, ◌*◌, ◌≤◌, length};
ghost use Rattle.algebra.specs.Array.{pad_row, pad};
ghost use Rattle.sizes.specs.Size.{count, front, part};
ghost use Rattle.layout.specs.Layout.{vector_at, matrix_at, joined, placed, room, vector_in, matrix_in, put_at};
ghost use Rattle.layout.specs.Promise.{Layouts};

use sizes::Size;

// A promise: nothing is done, and the crate is not proved without what Layouts states.
pub fn layouts()
    ensures { Layouts }
{}

// n numbers from number k on lie within a slice of len numbers. One test for readings and writings: `get` and `get_mut` are no plainer.
fn is_room(k: usize, n: usize, len: usize) -> bool
    ensures { result ≡ room k n len }
{
    n <= len && k <= len - n
}

// ---- numbers out of a slice

// Written out for each size: a loop of so few turns costs more than its numbers.
fn read_vector(b: &[f64], k: usize, n: Size) -> [f64; 4]
    requires { k + count n ≤ length b.now }
    ensures { result ≡ pad_row (vector_at (count n) b.now k) }
{
    match n {
        Size::One => [b[k], 0.0, 0.0, 0.0],
        Size::Two => [b[k], b[k + 1], 0.0, 0.0],
        Size::Three => [b[k], b[k + 1], b[k + 2], 0.0],
        Size::Four => [b[k], b[k + 1], b[k + 2], b[k + 3]],
    }
}

fn read_matrix(b: &[f64], k: usize, r: Size, c: Size) -> [[f64; 4]; 4]
    requires { k + count r * count c ≤ length b.now }
    ensures { result ≡ pad (matrix_at (count r) (count c) b.now k) }
{
    let rows = usize::from(r);
    let columns = usize::from(c);
    let mut out = [[0.0; 4]; 4];
    // The index is a row of the result and, times the columns, its place in the slice.
    for i in 0..rows {
        out[i] = read_vector(b, k + i * columns, c);
    }
    out
}

// The n numbers from number k on.
pub fn vector_at(b: &[f64], k: usize, n: Size) -> [f64; 4]
    ensures { result ≡ pad_row (vector_in (count n) b.now k) }
{
    if is_room(k, usize::from(n), b.len()) {
        read_vector(b, k, n)
    } else {
        [0.0; 4]
    }
}

// The r rows of c numbers from number k on.
#[tactic(auto, using(std::proofs::lemmas::Bool::Decides::nat_tests), unfolding(crate::specs::Layout::room, algebra::specs::Array::pad))]
pub fn matrix_at(b: &[f64], k: usize, r: Size, c: Size) -> [[f64; 4]; 4]
    ensures { result ≡ pad (matrix_in (count r) (count c) b.now k) }
{
    if is_room(k, usize::from(r) * usize::from(c), b.len()) {
        read_matrix(b, k, r, c)
    } else {
        [[0.0; 4]; 4]
    }
}

// ---- numbers into a slice, from number k on; every other number stays

#[tactic(auto, using(crate::proofs::Loops::writing_out))]
fn write_vector(b: &mut [f64], k: usize, v: [f64; 4], n: Size)
    requires { k + count n ≤ length b.old }
    ensures { b.new ≡ placed k (front n v) b.old }
{
    match n {
        Size::One => {
            b[k] = v[0];
        }
        Size::Two => {
            b[k] = v[0];
            b[k + 1] = v[1];
        }
        Size::Three => {
            b[k] = v[0];
            b[k + 1] = v[1];
            b[k + 2] = v[2];
        }
        Size::Four => {
            b[k] = v[0];
            b[k + 1] = v[1];
            b[k + 2] = v[2];
            b[k + 3] = v[3];
        }
    }
}

// Number by number: where slices are not seen to lie apart, `copy_from_slice` is compiled to a call of `memmove`, and an archive is
// promised to call `memcpy` and `memset` alone.
fn write_numbers(b: &mut [f64], k: usize, l: &[f64])
    requires { k + length l.now ≤ length b.old }
    ensures { b.new ≡ placed k l.now b.old }
{
    for i in 0..l.len() {
        b[k + i] = l[i];
    }
}

fn write_matrix(b: &mut [f64], k: usize, m: &[[f64; 4]; 4], r: Size, c: Size)
    requires { k + count r * count c ≤ length b.old }
    ensures { b.new ≡ placed k (joined (part r c m.now)) b.old }
{
    let rows = usize::from(r);
    let columns = usize::from(c);
    // The index is a row of m and, times the columns, its place in the slice.
    for i in 0..rows {
        write_vector(b, k + i * columns, m[i], c);
    }
}

// The first n numbers of v.
#[tactic(auto, using(crate::proofs::Calls::writing), unfolding(crate::specs::Layout::room))]
pub fn put_vector(b: &mut [f64], k: usize, v: [f64; 4], n: Size)
    ensures { b.new ≡ put_at k (front n v) b.old }
{
    if is_room(k, usize::from(n), b.len()) {
        write_vector(b, k, v, n);
    }
}

// The r rows and c columns of m.
#[tactic(auto, using(crate::proofs::Calls::writing), unfolding(crate::specs::Layout::room))]
pub fn put_matrix(b: &mut [f64], k: usize, m: &[[f64; 4]; 4], r: Size, c: Size)
    ensures { b.new ≡ put_at k (joined (part r c m.now)) b.old }
{
    if is_room(k, usize::from(r) * usize::from(c), b.len()) {
        write_matrix(b, k, m, r, c);
    }
}

// A state x of n numbers, then its covariance p, n rows of n numbers.
#[tactic(auto, using(crate::proofs::Calls::writing), unfolding(crate::specs::Layout::room))]
pub fn put_pair(b: &mut [f64], k: usize, x: [f64; 4], p: &[[f64; 4]; 4], n: Size)
    ensures { b.new ≡ put_at k (front n x ++ joined (part n n p.now)) b.old }
{
    let states = usize::from(n);
    if is_room(k, states + states * states, b.len()) {
        write_vector(b, k, x, n);
        write_matrix(b, k + states, p, n, n);
    }
}

// The numbers of l.
#[tactic(auto, using(crate::proofs::Calls::writing), unfolding(crate::specs::Layout::room))]
pub fn put_slice(b: &mut [f64], k: usize, l: &[f64])
    ensures { b.new ≡ put_at k l.now b.old }
{
    if is_room(k, l.len(), b.len()) {
        write_numbers(b, k, l);
    }
}

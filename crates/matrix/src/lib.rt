// src/core/matrix.rs at f64: matrices of at most 4 rows and 4 columns as arrays of arrays, with the used sizes beside
// them. Here is `matmul`; sizes and their tests are crates/sizes, the operations behind references crates/kernel. An answer is an
// array, and how it stands for a matrix, a vector or a number is in specs/. Cells outside the used part are ignored on entry and
// +0 in an answer.
#![tactic(auto)]

ghost use Rattle.std.specs.Prelude.{◌≡◌};
ghost use Rattle.answer.specs.Answer.{where_sized};
ghost use Rattle.algebra.specs.Matrix.{mul};
ghost use Rattle.algebra.specs.Array.{used};
ghost use Rattle.matrix.specs.Result.{as_matrix};
ghost use Rattle.sizes.specs.Size.{chained};

use answer::Refusal;

// a, of ar rows and ac columns, times b, of br rows and bc columns. Refused with 1: a size, or ac is not br.
pub fn matmul(
    a: [[f64; 4]; 4],
    ar: usize,
    ac: usize,
    b: [[f64; 4]; 4],
    br: usize,
    bc: usize,
) -> Result<[[f64; 4]; 4], Refusal>
    ensures { result ≡ as_matrix (where_sized (chained ar ac br bc) (mul ar ac bc (used ar ac a) (used ac bc b))) }
{
    let (r, k, c) = sizes::chain(ar, ac, br, bc)?;
    Ok(kernel::product(&a, &b, r, k, c))
}

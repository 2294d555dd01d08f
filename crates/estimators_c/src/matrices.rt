// src/core/matrix.rs for C: each export calls the function of its name, and has its contract.
ghost use Rattle.std.specs.Prelude.{◌≡◌, length};
ghost use Rattle.answer.specs.Told.{given};
ghost use Rattle.c_slices.specs.Calls.{zeros_in, filled_in, identity_in, transpose_in, scale_in, neg_in, frob_norm_in, trace_in, inv_in, cholesky_in};
ghost use Rattle.c_slices.specs.Calls.{get_in, set_in, add_in, sub_in, eq_in, mul_in, matvec_in, outer_in, vec_add_in, vec_sub_in, vec_scale_in, dot_in, vec_norm_in};

use answer::number_of;
use estimators::matrices;

#[unsafe(no_mangle)]
pub extern "C" fn estimators_matrix_zeros(r: usize, c: usize, out: &mut [f64]) -> u8
    ensures { (result, out.new) ≡ given out.old (zeros_in r c (length out.old)) }
{
    number_of(matrices::estimators_matrix_zeros(r, c, out))
}

#[unsafe(no_mangle)]
pub extern "C" fn estimators_matrix_default(r: usize, c: usize, out: &mut [f64]) -> u8
    ensures { (result, out.new) ≡ given out.old (zeros_in r c (length out.old)) }
{
    number_of(matrices::estimators_matrix_default(r, c, out))
}

#[unsafe(no_mangle)]
pub extern "C" fn estimators_matrix_filled(r: usize, c: usize, val: f64, out: &mut [f64]) -> u8
    ensures { (result, out.new) ≡ given out.old (filled_in r c val (length out.old)) }
{
    number_of(matrices::estimators_matrix_filled(r, c, val, out))
}

#[unsafe(no_mangle)]
pub extern "C" fn estimators_matrix_identity(n: usize, out: &mut [f64]) -> u8
    ensures { (result, out.new) ≡ given out.old (identity_in n (length out.old)) }
{
    number_of(matrices::estimators_matrix_identity(n, out))
}

// From r rows and c columns to c rows and r columns.
#[unsafe(no_mangle)]
pub extern "C" fn estimators_matrix_transpose(r: usize, c: usize, a: &[f64], out: &mut [f64]) -> u8
    ensures { (result, out.new) ≡ given out.old (transpose_in r c a.now (length out.old)) }
{
    number_of(matrices::estimators_matrix_transpose(r, c, a, out))
}

#[unsafe(no_mangle)]
pub extern "C" fn estimators_matrix_scale(
    r: usize,
    c: usize,
    a: &[f64],
    s: f64,
    out: &mut [f64],
) -> u8
    ensures { (result, out.new) ≡ given out.old (scale_in r c a.now s (length out.old)) }
{
    number_of(matrices::estimators_matrix_scale(r, c, a, s, out))
}

#[unsafe(no_mangle)]
pub extern "C" fn estimators_matrix_neg(r: usize, c: usize, a: &[f64], out: &mut [f64]) -> u8
    ensures { (result, out.new) ≡ given out.old (neg_in r c a.now (length out.old)) }
{
    number_of(matrices::estimators_matrix_neg(r, c, a, out))
}

#[unsafe(no_mangle)]
pub extern "C" fn estimators_matrix_frob_norm(r: usize, c: usize, a: &[f64], out: &mut f64) -> u8
    ensures { (result, out.new) ≡ given out.old (frob_norm_in r c a.now) }
{
    number_of(matrices::estimators_matrix_frob_norm(r, c, a, out))
}

#[unsafe(no_mangle)]
pub extern "C" fn estimators_matrix_trace(n: usize, a: &[f64], out: &mut f64) -> u8
    ensures { (result, out.new) ≡ given out.old (trace_in n a.now) }
{
    number_of(matrices::estimators_matrix_trace(n, a, out))
}

// The inverse. Refused with 3: inversion rejects the matrix.
#[unsafe(no_mangle)]
pub extern "C" fn estimators_matrix_inv(n: usize, a: &[f64], out: &mut [f64]) -> u8
    ensures { (result, out.new) ≡ given out.old (inv_in n a.now (length out.old)) }
{
    number_of(matrices::estimators_matrix_inv(n, a, out))
}

// The lower factor. Refused with 4: a reduced diagonal at or below zero.
#[unsafe(no_mangle)]
pub extern "C" fn estimators_matrix_cholesky(n: usize, a: &[f64], out: &mut [f64]) -> u8
    ensures { (result, out.new) ≡ given out.old (cholesky_in n a.now (length out.old)) }
{
    number_of(matrices::estimators_matrix_cholesky(n, a, out))
}

// Row i, column j, from 0. Refused with 1 outside, as matrix_set.
#[unsafe(no_mangle)]
pub extern "C" fn estimators_matrix_get(
    r: usize,
    c: usize,
    i: usize,
    j: usize,
    a: &[f64],
    out: &mut f64,
) -> u8
    ensures { (result, out.new) ≡ given out.old (get_in r c i j a.now) }
{
    number_of(matrices::estimators_matrix_get(r, c, i, j, a, out))
}

// The matrix with val in row i, column j.
#[unsafe(no_mangle)]
pub extern "C" fn estimators_matrix_set(
    r: usize,
    c: usize,
    i: usize,
    j: usize,
    a: &[f64],
    val: f64,
    out: &mut [f64],
) -> u8
    ensures { (result, out.new) ≡ given out.old (set_in r c i j a.now val (length out.old)) }
{
    number_of(matrices::estimators_matrix_set(r, c, i, j, a, val, out))
}

#[unsafe(no_mangle)]
pub extern "C" fn estimators_matrix_add_mat(
    r: usize,
    c: usize,
    a: &[f64],
    b: &[f64],
    out: &mut [f64],
) -> u8
    ensures { (result, out.new) ≡ given out.old (add_in r c a.now b.now (length out.old)) }
{
    number_of(matrices::estimators_matrix_add_mat(r, c, a, b, out))
}

#[unsafe(no_mangle)]
pub extern "C" fn estimators_matrix_sub_mat(
    r: usize,
    c: usize,
    a: &[f64],
    b: &[f64],
    out: &mut [f64],
) -> u8
    ensures { (result, out.new) ≡ given out.old (sub_in r c a.now b.now (length out.old)) }
{
    number_of(matrices::estimators_matrix_sub_mat(r, c, a, b, out))
}

// Equal cell by cell: -0 equals +0, and a NaN equals nothing.
#[unsafe(no_mangle)]
pub extern "C" fn estimators_matrix_eq(
    r: usize,
    c: usize,
    a: &[f64],
    b: &[f64],
    out: &mut bool,
) -> u8
    ensures { (result, out.new) ≡ given out.old (eq_in r c a.now b.now) }
{
    number_of(matrices::estimators_matrix_eq(r, c, a, b, out))
}

// r rows and k columns times k rows and c columns.
#[unsafe(no_mangle)]
pub extern "C" fn estimators_matrix_matmul(
    r: usize,
    k: usize,
    c: usize,
    a: &[f64],
    b: &[f64],
    out: &mut [f64],
) -> u8
    ensures { (result, out.new) ≡ given out.old (mul_in r k c a.now b.now (length out.old)) }
{
    number_of(matrices::estimators_matrix_matmul(r, k, c, a, b, out))
}

// r rows and c columns times a vector of c numbers.
#[unsafe(no_mangle)]
pub extern "C" fn estimators_matrix_matvec(
    r: usize,
    c: usize,
    a: &[f64],
    v: &[f64],
    out: &mut [f64],
) -> u8
    ensures { (result, out.new) ≡ given out.old (matvec_in r c a.now v.now (length out.old)) }
{
    number_of(matrices::estimators_matrix_matvec(r, c, a, v, out))
}

// A vector of r numbers times a transposed one of c.
#[unsafe(no_mangle)]
pub extern "C" fn estimators_matrix_outer(
    r: usize,
    c: usize,
    v: &[f64],
    w: &[f64],
    out: &mut [f64],
) -> u8
    ensures { (result, out.new) ≡ given out.old (outer_in r c v.now w.now (length out.old)) }
{
    number_of(matrices::estimators_matrix_outer(r, c, v, w, out))
}

#[unsafe(no_mangle)]
pub extern "C" fn estimators_matrix_vec_add(n: usize, v: &[f64], w: &[f64], out: &mut [f64]) -> u8
    ensures { (result, out.new) ≡ given out.old (vec_add_in n v.now w.now (length out.old)) }
{
    number_of(matrices::estimators_matrix_vec_add(n, v, w, out))
}

#[unsafe(no_mangle)]
pub extern "C" fn estimators_matrix_vec_sub(n: usize, v: &[f64], w: &[f64], out: &mut [f64]) -> u8
    ensures { (result, out.new) ≡ given out.old (vec_sub_in n v.now w.now (length out.old)) }
{
    number_of(matrices::estimators_matrix_vec_sub(n, v, w, out))
}

#[unsafe(no_mangle)]
pub extern "C" fn estimators_matrix_vec_scale(n: usize, v: &[f64], s: f64, out: &mut [f64]) -> u8
    ensures { (result, out.new) ≡ given out.old (vec_scale_in n v.now s (length out.old)) }
{
    number_of(matrices::estimators_matrix_vec_scale(n, v, s, out))
}

#[unsafe(no_mangle)]
pub extern "C" fn estimators_matrix_vec_dot(n: usize, v: &[f64], w: &[f64], out: &mut f64) -> u8
    ensures { (result, out.new) ≡ given out.old (dot_in n v.now w.now) }
{
    number_of(matrices::estimators_matrix_vec_dot(n, v, w, out))
}

#[unsafe(no_mangle)]
pub extern "C" fn estimators_matrix_vec_norm(n: usize, v: &[f64], out: &mut f64) -> u8
    ensures { (result, out.new) ≡ given out.old (vec_norm_in n v.now) }
{
    number_of(matrices::estimators_matrix_vec_norm(n, v, out))
}

// The names for C of src/core/matrix.rs: each call on slices by its name for C. A matrix is a slice of its cells by
// rows. Refused with 1: a size, or a slice of another length; then, as at every refusal, nothing is written.
pub use c_matrix::cells::{
    matrix_default as estimators_matrix_default, matrix_filled as estimators_matrix_filled,
    matrix_get as estimators_matrix_get, matrix_identity as estimators_matrix_identity,
    matrix_set as estimators_matrix_set, matrix_zeros as estimators_matrix_zeros,
};
pub use c_matrix::matrices::{
    matrix_add_mat as estimators_matrix_add_mat, matrix_cholesky as estimators_matrix_cholesky,
    matrix_eq as estimators_matrix_eq, matrix_frob_norm as estimators_matrix_frob_norm,
    matrix_inv as estimators_matrix_inv, matrix_matmul as estimators_matrix_matmul,
    matrix_neg as estimators_matrix_neg, matrix_scale as estimators_matrix_scale,
    matrix_sub_mat as estimators_matrix_sub_mat, matrix_trace as estimators_matrix_trace,
    matrix_transpose as estimators_matrix_transpose,
};
pub use c_vector::{
    matrix_matvec as estimators_matrix_matvec, matrix_outer as estimators_matrix_outer,
    matrix_vec_add as estimators_matrix_vec_add, matrix_vec_dot as estimators_matrix_vec_dot,
    matrix_vec_norm as estimators_matrix_vec_norm, matrix_vec_scale as estimators_matrix_vec_scale,
    matrix_vec_sub as estimators_matrix_vec_sub,
};

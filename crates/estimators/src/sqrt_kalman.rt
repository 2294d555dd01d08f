// src/estimator/sqrt_kalman.rs for C: each call on slices by its name for C. A filter of state n, measurement m
// and input i is one slice that the caller lends: a, b, h, q, r_diag, x and the factor s by rows, one after another.
pub use c_sqrt_kalman::{
    sqrt_kalman_cholesky_factor as estimators_sqrt_kalman_cholesky_factor,
    sqrt_kalman_covariance as estimators_sqrt_kalman_covariance,
    sqrt_kalman_from_cholesky as estimators_sqrt_kalman_from_cholesky,
    sqrt_kalman_new as estimators_sqrt_kalman_new,
    sqrt_kalman_reset as estimators_sqrt_kalman_reset,
    sqrt_kalman_state as estimators_sqrt_kalman_state,
};
pub use c_sqrt_steps::{
    sqrt_kalman_predict as estimators_sqrt_kalman_predict,
    sqrt_kalman_update as estimators_sqrt_kalman_update,
};

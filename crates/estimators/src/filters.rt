// src/estimator/kalman.rs for C: each call on slices by its name for C. A filter of state n, measurement m
// and input i is one slice that the caller lends: a, b, h, q, r, x and p by rows, one after another.
pub use c_copies::{
    kalman_covariance as estimators_kalman_covariance, kalman_new as estimators_kalman_new,
    kalman_reset as estimators_kalman_reset, kalman_state as estimators_kalman_state,
};
pub use c_filters::{
    kalman_predict as estimators_kalman_predict, kalman_update as estimators_kalman_update,
};
pub use c_roads::kalman_position_velocity as estimators_kalman_position_velocity;

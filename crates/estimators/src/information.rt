// src/estimator/information_filter.rs for C: each call on slices by its name for C. A filter of state n,
// measurement m and input i is one slice that the caller lends: a, b, h, q, r, xi and omega by rows, one after another.
pub use c_fusion::{
    information_fuse_sensor as estimators_information_fuse_sensor,
    information_fuse_sensors as estimators_information_fuse_sensors,
};
pub use c_information::{
    information_covariance as estimators_information_covariance,
    information_from_information as estimators_information_from_information,
    information_matrix as estimators_information_matrix,
    information_new as estimators_information_new,
    information_reset as estimators_information_reset,
    information_state as estimators_information_state,
    information_vector as estimators_information_vector,
};
pub use c_information_steps::{
    information_predict as estimators_information_predict,
    information_update as estimators_information_update,
};

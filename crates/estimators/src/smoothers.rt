// src/estimator/rts_smoother.rs for C: each call on slices by its name for C.
pub use c_smoothers::{
    rts_smoother_get_state as estimators_rts_smoother_get_state,
    rts_smoother_smooth as estimators_rts_smoother_smooth,
    rts_smoother_store_forward as estimators_rts_smoother_store_forward,
};

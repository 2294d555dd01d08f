// src/estimator/imm.rs for C: each call on slices by its name for C. A bank of k models of n states and m
// measurements is one slice that the caller lends: for each model a, x, p, q and its likelihood, then transition, c, r and mu.
pub use c_bank::{
    imm_fused_estimate as estimators_imm_fused_estimate,
    imm_model_probability as estimators_imm_model_probability,
    imm_update_probabilities as estimators_imm_update_probabilities,
};
pub use c_imm::{imm_mix_estimates as estimators_imm_mix_estimates, imm_new as estimators_imm_new};

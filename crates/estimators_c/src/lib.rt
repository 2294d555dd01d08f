// The estimators for C, the archive libestimators.a: each export calls the function of its name in the crate estimators, and has its
// contract. A slice is a pointer and a length in C; include/estimators.h says what each holds.
#![tactic(auto)]

pub mod depot;
pub mod filters;
pub mod imm;
pub mod information;
pub mod matrices;
pub mod numbers;
pub mod smoothers;
pub mod sqrt_kalman;

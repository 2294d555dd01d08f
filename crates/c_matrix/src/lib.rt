// src/core/matrix.rs and scalar.rs on slices that the caller lends; what the calls share is in `c_slices`.
// "Refused with 1" names a refusal by its number in docs/REFUSALS.md.
#![tactic(auto)]

pub mod cells;
pub mod matrices;
pub mod numbers;

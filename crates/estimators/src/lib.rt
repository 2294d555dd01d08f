// The estimators on slices, by the names that C has for them: each function takes numbers and slices, writes into lent places, and
// returns nothing, or why it is refused. The calls on slices stand under their names for C, with their contracts; those of the
// number type call it. The crate estimators_c exports them to C, which is told a refusal by its number.
#![tactic(auto)]

pub mod depot;
pub mod filters;
pub mod imm;
pub mod information;
pub mod matrices;
pub mod numbers;
pub mod smoothers;
pub mod sqrt_kalman;

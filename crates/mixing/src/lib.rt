// Mixing of several models as definitions for any number of models and states, in specs/. The functions are promises: they
// do nothing, and the crate is not proved without what their contracts state.
#![tactic(auto)]

ghost use Rattle.mixing.specs.Cases.{Cases, Rust};
ghost use Rattle.mixing.specs.Laws.{Laws};

// The worked cases, computed from the definitions.
pub fn worked_cases()
    ensures { Cases }
{}

// Numbers of the running Rust, likewise.
pub fn as_the_rust()
    ensures { Rust }
{}

// One model of weight 1 keeps its state, for every f64, but for −0, which becomes +0.
pub fn one_model()
    ensures { Laws }
{}

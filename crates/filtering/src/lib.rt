// The linear, the information and the square-root filter as definitions for any sizes, in specs/. The functions are promises:
// they do nothing, and the crate is not proved without what their contracts state.
#![tactic(auto)]

ghost use Rattle.filtering.specs.Cases.{Cases};
ghost use Rattle.filtering.specs.Rust.{Rust};

// The worked cases, computed from the definitions.
pub fn worked_cases()
    ensures { Cases }
{}

// Numbers of the running Rust, likewise.
pub fn as_the_rust()
    ensures { Rust }
{}

// Vectors, matrices, inversion and Cholesky's factor as definitions for any size, in specs/, and their laws, in proofs/. The
// functions are promises: they do nothing, and the crate is not proved without what their contracts state.
#![tactic(auto)]

ghost use Rattle.algebra.specs.Cases.{Cases};
ghost use Rattle.algebra.specs.Promise.{InverseAndFactor};

// The worked cases, computed from the definitions.
pub fn worked_cases()
    ensures { Cases }
{}

// What each refuses with, and what of the matrix it reads.
pub fn inverse_and_factor()
    ensures { InverseAndFactor }
{}

// Smoothing by Rauch, Tung and Striebel as a definition for duties of any length and states of any size, in specs/, with
// demand 3 of it proved in proofs/. The functions are promises: they do nothing, and the crate is not proved without what they state.
#![tactic(auto)]

ghost use Rattle.smoothing.specs.Cases.{Cases};
ghost use Rattle.smoothing.specs.Demand3.{Demand3};
ghost use Rattle.smoothing.specs.Smoother.{smooth};

// The worked cases, computed from the definition.
pub fn worked_cases()
    ensures { Cases }
{}

// Demand 3 of the definition, for every duty.
pub fn demand3_of_definition()
    ensures { Demand3 (λ d. d) smooth }
{}

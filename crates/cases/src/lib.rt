// The table of worked cases as one promise: the function does nothing, and the crate is not proved without every case.
#![tactic(auto)]

ghost use Rattle.cases.specs.Cases.{Table};

pub fn worked_cases()
    ensures { Table }
{}

// The way from settings and readings to filtered and smoothed positions as definitions, in specs/. The functions are promises:
// they do nothing, and the crate is not proved without what their contracts state.
#![tactic(auto)]

ghost use Rattle.tracking.specs.Cases.{Cases};
ghost use Rattle.tracking.specs.Laws.{Tracks};

// The worked cases, computed from the definitions.
pub fn worked_cases()
    ensures { Cases }
{}

// As many results as readings, and rejections in their places.
pub fn track_laws()
    ensures { Tracks }
{}

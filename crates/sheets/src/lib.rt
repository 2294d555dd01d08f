// The depot sheet as definitions, in specs/: its bytes read, filtered and smoothed, rounded down to whole metres, and printed with
// their stages; and why one is refused. The functions are promises: they do nothing, and the crate is not proved without what
// their contracts state.
#![tactic(auto)]

ghost use Rattle.sheets.specs.Cases.{Cases};
ghost use Rattle.sheets.specs.Promise.{Reports};
ghost use Rattle.sheets.specs.Texts.{Texts};

use answer::Refusal;

// Why a sheet is refused, and its line, from 1.
#[derive(Clone, Copy, Debug, PartialEq, Eq)]
pub struct SheetRefusal {
    pub refusal: Refusal,
    pub line: u32,
}

// The worked cases, computed from the definitions; document 01's sheet is among them, whole.
pub fn worked_cases()
    ensures { Cases }
{}

// What is written reads back, and a number and a sheet have one text each.
pub fn texts()
    ensures { Texts }
{}

// Any input prints a line for each reading or one refusal line, and its first 1,418 bytes decide.
pub fn reports()
    ensures { Reports }
{}

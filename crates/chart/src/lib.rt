// The parts of a chart that know nothing of what it shows: a page of bytes on which texts and numbers are put, the frame of a plot,
// and axes with round numbers. Everything is safe and ends; a result is stated as far as its use needs.
#![tactic(auto)]

pub mod frame;
pub mod page;
pub mod ticks;

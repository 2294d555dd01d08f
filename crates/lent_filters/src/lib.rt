// Each filter's steps on a filter that its caller lends: what the step tells is returned, and the filter that it leaves stands in the
// place of the one that was lent. A module for each filter; the steps by value are in the filters' own crates.
#![tactic(auto)]

pub mod bank;
pub mod information;
pub mod linear;
pub mod square_root;

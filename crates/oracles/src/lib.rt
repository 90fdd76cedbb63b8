// Search steps, bounds and outcomes, written a second time from the paper, to hold the index against. Each function
// takes any memory and any numbers.
#![tactic(auto)]

pub mod bounds;
pub mod outcomes;
pub mod steps;
pub mod updates;

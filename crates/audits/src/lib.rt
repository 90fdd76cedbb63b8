// Lengths, charges, soundness and the listing, written a second time from the paper, to hold the index against. Each
// function takes any memory and any numbers.
#![tactic(auto)]

pub mod charges;
pub mod lengths;
pub mod listings;
pub mod sound;

// What the tests draw from: the calls, labels by number, charges, and numbers that look random.
#![tactic(auto)]

pub mod calls;
pub mod charges;
pub mod numbers;
pub mod shapes;

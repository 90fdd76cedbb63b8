// What a call is lent and what it says, as the tests hold them: memory with its lengths and sizes, an output, an answer
// or a refusal.
#![tactic(auto)]

pub mod memory;
pub mod outputs;
pub mod packing;
pub mod refusals;
pub mod sizes;

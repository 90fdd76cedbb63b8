// The search for a label in a table and a store of any content, by the search steps.
// It reads only words of the nodes it visits, and only the label bytes that it counts.
#![tactic(auto)]

pub mod walks;

// Rotations of a tree in a table, by its words alone: no label is lent to them. Every function takes any table.
#![tactic(auto)]

pub mod rotate;

// A subtree after an update: its link, and whether it is the taller of the two heights that it can have now
// (after an insert its old height or one more, after a delete one less or its old height).
#[derive(Clone, Copy)]
pub struct Rebuilt {
    pub link: u16,
    pub tall: bool,
}

// The search of an update: where it ended, and the way it went.
#![tactic(auto)]

pub mod tracing;

// Where a search ended: the slot found, 0 for none; the numbers P and S of the search steps; the slots of the nearest
// smaller and larger node on the way, 0 for none; the way, a bit for each side taken; and the counts. Slots are links as
// the table has them, so 0 is none and there is no Option.
#[derive(Clone, Copy)]
pub struct Trace {
    pub found: u16,
    pub p: usize,
    pub s: usize,
    pub below: u16,
    pub above: u16,
    pub path: usize,
    pub length: usize,
    pub visits: usize,
    pub places: usize,
}

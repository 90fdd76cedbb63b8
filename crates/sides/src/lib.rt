// Rows of a table seen from a side, and the rows that a rotation stores. Both sides are one: `flip` is true where the
// near side is the right one, and a row is then read and stored with its sides exchanged.
// A read past the table's end gives 0, a store past its end does nothing.
#![tactic(auto)]

pub mod doubles;
pub mod rotated;
pub mod rows;

// The balances of the three nodes of a double rotation, in label order.
#[derive(Clone, Copy, Debug, PartialEq, Eq)]
pub struct Balances {
    pub lower: u16,
    pub middle: u16,
    pub upper: u16,
}

// The prefix fields of a node, both words of the table's format.
#[derive(Clone, Copy, Debug, PartialEq, Eq)]
pub struct Fields {
    pub place: u16,
    pub side: u16,
}

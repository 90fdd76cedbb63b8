// Texts of rosters: written out by hand, made of drawn pieces, and of many names. Each is written into the front of an
// array.
#![tactic(auto)]

pub mod drawn;
pub mod names;
mod signs;
pub mod written;

use images::refusals::Refusal;

// What is to come of taking a text: so many records go in; or the record of a number is refused.
#[derive(Clone, Copy, Debug, PartialEq, Eq)]
pub enum Due {
    Taken(usize),
    Refused(usize, Refusal),
}

// A text: its bytes, and what is to come of it where that is known.
#[derive(Clone, Copy, Debug, PartialEq, Eq)]
pub struct Sheet {
    pub bytes: usize,
    pub due: Option<Due>,
}

impl Sheet {
    // A text of so many bytes, of which nothing is said.
    pub fn any(bytes: usize) -> Sheet {
        Sheet { bytes, due: None }
    }
}

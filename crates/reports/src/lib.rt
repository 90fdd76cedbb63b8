// What the tests count and print.
#![tactic(auto)]

pub mod counts;
pub mod faults;
pub mod hexes;
pub mod tallies;

use faults::Fault;
use images::packing::Answer;
use std::io::Stdout;

// What came of a call: its answer, where that and what it left agree, or what differs first. Counted beside a fault
// too: the answer that it gave, and whether its search reached the bound by shared bytes.
#[derive(Clone, Copy, Debug)]
pub struct Round {
    pub said: Result<Answer, Fault>,
    pub given: Option<Answer>,
    pub reached: bool,
}

// What a group counts, and where its lines are printed.
#[derive(Clone, Copy)]
pub struct Report<T> {
    pub out: Stdout,
    pub tally: T,
}

impl<T: Default> Report<T> {
    pub fn new(out: Stdout) -> Self {
        Report {
            out,
            tally: T::default(),
        }
    }
}

// What a call of the index said and left, compared with the plain map and with the second writing of the paper. No
// function here makes a call.
#![tactic(auto)]

pub mod answers;
mod charges;
pub mod judged;
pub mod loads;
mod maps;
pub mod saves;
pub mod states;

use samples::calls::Call;

// A call, on a label, with a value, a charge or a slot.
#[derive(Clone, Copy)]
pub struct Request<'a> {
    pub call: Call,
    pub label: &'a [u8],
    pub number: usize,
}

impl Request<'_> {
    // A call that takes neither.
    pub fn bare(call: Call) -> Request<'static> {
        Request {
            call,
            label: b"",
            number: 0,
        }
    }
}

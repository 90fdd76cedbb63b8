// A call that a group makes.
use images::refusals::Refusal;
use samples::calls::Call;
use samples::shapes::Shape;

// What is to come of a call: what the judges alone say, no refusal, or this refusal.
#[derive(Clone, Copy, Debug, PartialEq, Eq)]
pub enum Due {
    Judged,
    Done,
    Refused(Refusal),
}

impl Due {
    pub fn allows(self, refusal: Option<Refusal>) -> bool {
        match self {
            Due::Judged => true,
            Due::Done => refusal.is_none(),
            Due::Refused(due) => refusal == Some(due),
        }
    }

    // The number that stands for it where one is mixed: the numbers drawn are the tests' inputs, which may not change.
    pub fn number(self) -> usize {
        match self {
            Due::Judged => 12,
            Due::Done => 0,
            Due::Refused(refusal) => refusal.number(),
        }
    }
}

// Which call, on which label of which shape, with which charge where it sets one, and what is to come of it.
#[derive(Clone, Copy, Debug)]
pub struct Planned {
    pub call: Call,
    pub shape: Shape,
    pub label: usize,
    pub charge: Option<usize>,
    pub due: Due,
}

impl Planned {
    pub fn new(call: Call, shape: Shape, label: usize, due: Due) -> Planned {
        Planned {
            call,
            shape,
            label,
            charge: None,
            due,
        }
    }

    // A call that sets a charge.
    pub fn charge(shape: Shape, label: usize, charge: usize, due: Due) -> Planned {
        Planned {
            charge: Some(charge),
            ..Planned::new(Call::SetCharge, shape, label, due)
        }
    }
}

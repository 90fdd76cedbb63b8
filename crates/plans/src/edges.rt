// The charges at the edges, set on memory that is sound and on memory that is refused.
use crate::planned::{Due, Planned};
use images::memory::{Entry, Head, Image};
use images::refusals::Refusal;
use samples::charges::{EDGES, RIGHT_EDGES};
use samples::shapes::Shape;

// The memories: sound; with a table of a word less, a store of a byte less, or both; with a head that says one label
// more than there is.
#[derive(Clone, Copy, Debug, PartialEq, Eq)]
pub enum Memory {
    Sound,
    TableLess,
    StoreLess,
    BothLess,
    Unsound,
}

// The labels: the roster's second, which is held, its first, which is not, one too long, and none.
#[derive(Clone, Copy, Debug, PartialEq, Eq)]
enum Given {
    Held,
    Absent,
    Longer,
    Empty,
}

const GIVEN: [Given; 4] = [Given::Held, Given::Absent, Given::Longer, Given::Empty];

// The calls on each memory: every charge, for each of the four labels.
pub const CALLS: usize = 44;

impl Memory {
    // Those that are refused.
    pub const REFUSED: [Memory; 4] = [
        Memory::TableLess,
        Memory::StoreLess,
        Memory::BothLess,
        Memory::Unsound,
    ];

    // Makes one of these memories of sound memory.
    pub fn make(self, image: &mut Image) {
        match self {
            Memory::Sound => {}
            Memory::TableLess => image.lent.words = image.lent.words.saturating_sub(1),
            Memory::StoreLess => image.lent.bytes = image.lent.bytes.saturating_sub(1),
            Memory::BothLess => {
                image.lent.words = image.lent.words.saturating_sub(1);
                image.lent.bytes = image.lent.bytes.saturating_sub(1);
            }
            Memory::Unsound => {
                let held = image.head(Head::Held);
                image.put(Entry::of_head(Head::Held), held.wrapping_add(1));
            }
        }
    }

    // Call `i` on a memory.
    pub fn call(self, i: usize) -> Planned {
        let edge = i % EDGES.len();
        let given = GIVEN[i / EDGES.len() % GIVEN.len()];
        let (shape, label) = given.label();
        Planned::charge(
            shape,
            label,
            EDGES[edge],
            self.due(given, edge < RIGHT_EDGES),
        )
    }

    // By the table's length, then the store's, then what is given, then what is held.
    fn due(self, given: Given, is_right: bool) -> Due {
        match self {
            Memory::Sound => given.due(is_right, given.held_due()),
            Memory::Unsound => given.due(is_right, Due::Refused(Refusal::NotSound)),
            Memory::StoreLess => Due::Refused(Refusal::WrongStore),
            Memory::TableLess | Memory::BothLess => Due::Refused(Refusal::WrongTable),
        }
    }
}

impl Given {
    fn label(self) -> (Shape, usize) {
        match self {
            Given::Held => (Shape::Roster, 1),
            Given::Absent => (Shape::Roster, 0),
            Given::Longer => (Shape::Longest, 1),
            Given::Empty => (Shape::Longest, 2),
        }
    }

    // By the label's length, then the charge; or another.
    fn due(self, is_right: bool, other: Due) -> Due {
        match self {
            Given::Longer => Due::Refused(Refusal::LongLabel),
            Given::Empty => Due::Refused(Refusal::EmptyLabel),
            Given::Held | Given::Absent if is_right => other,
            Given::Held | Given::Absent => Due::Refused(Refusal::WrongCharge),
        }
    }

    fn held_due(self) -> Due {
        match self {
            Given::Absent => Due::Refused(Refusal::NotHeld),
            _ => Due::Done,
        }
    }
}

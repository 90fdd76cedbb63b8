// The values that the calls of the label index take and give.
#![tactic(auto)]

ghost use Rattle.std.specs.Prelude.{◌≡◌};
ghost use Rattle.types.specs.Sizes.{hub, page};
ghost use Rattle.types.specs.Answers.{refusal_number};

// The sizes of an index: slots of the table, bytes of a label, nodes on a path from the root.
#[derive(Clone, Copy, Debug, PartialEq, Eq)]
pub struct Limits {
    pub slots: usize,
    pub width: usize,
    pub depth: usize,
}

// The eight words of a slot.
#[derive(Clone, Copy, Debug, PartialEq, Eq)]
pub struct Row {
    pub left: u16,
    pub right: u16,
    pub place: u16,
    pub side: u16,
    pub balance: u16,
    pub len: u16,
    pub value: u16,
    pub charge: u16,
}

// Why a call is refused, with the paper's numbers, in the order in which the reasons are looked for.
#[derive(Clone, Copy, Debug, PartialEq, Eq)]
pub enum Refusal {
    WrongTable = 1,
    WrongStore = 2,
    LongText = 12,
    BrokenFile = 18,
    NotAscending = 19,
    BytesAfter = 20,
    BrokenRecord = 13,
    EmptyLabel = 3,
    LongLabel = 4,
    WrongCharge = 24,
    WrongSlot = 11,
    BrokenWalk = 5,
    NotSound = 6,
    AlreadyHeld = 7,
    NotHeld = 8,
    Full = 9,
    ShortList = 10,
    ShortOutput = 17,
}

impl Refusal {
    // The number of a refusal.
    pub fn number(self) -> usize
        ensures { result ≡ refusal_number self }
    {
        self as usize
    }
}

// What a search says that is not refused. With absent go the slots of the nearest smaller and the nearest larger label
// held, 0 for none.
#[derive(Clone, Copy, Debug, PartialEq, Eq)]
pub enum Searched {
    Found {
        slot: usize,
        value: u16,
        visits: usize,
        places: usize,
    },
    Absent {
        below: usize,
        above: usize,
        visits: usize,
        places: usize,
    },
}

// What an insert, a delete or a charge set says that is not refused: the label's slot, and the counts of the search that
// it made.
#[derive(Clone, Copy, Debug, PartialEq, Eq)]
pub struct Updated {
    pub slot: usize,
    pub visits: usize,
    pub places: usize,
}

// The first record of a roster that is refused, by its number, from 1, and its refusal; 0 where the lent memory or the
// text is refused.
#[derive(Clone, Copy, Debug, PartialEq, Eq)]
pub struct RefusedRecord {
    pub number: usize,
    pub refusal: Refusal,
}

// The hub's index: 512 labels of at most 64 bytes.
pub fn hub() -> Limits
    ensures { result ≡ hub }
{
    Limits {
        slots: 512,
        width: 64,
        depth: 12,
    }
}

// The pairing page's index: 32 labels of at most 20 bytes.
pub fn page() -> Limits
    ensures { result ≡ page }
{
    Limits {
        slots: 32,
        width: 20,
        depth: 6,
    }
}

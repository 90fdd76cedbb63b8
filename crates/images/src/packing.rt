// What a call says, and that in one number: from the lowest bits 4 of kind, 12 of places, 16 of visits, then 16 and 16.
use crate::refusals::Refusal;

// The nodes that a search visits and the places that it examines.
#[derive(Clone, Copy, Debug, Default, PartialEq, Eq)]
pub struct Counts {
    pub visits: usize,
    pub places: usize,
}

// Refused, a roster at one of its records, which count from 1, or else at 0; slot and value; the slots of the nearest
// smaller and the nearest larger label, 0 for none as the paper writes them; the slot of an update; nothing; how many
// slots are listed; how many bytes a view has; how many bytes are written; how many labels are loaded; how many records
// are taken.
#[derive(Clone, Copy, Debug, PartialEq, Eq)]
pub enum Answer {
    Refused {
        refusal: Refusal,
        record: usize,
    },
    Found {
        slot: usize,
        value: usize,
        counts: Counts,
    },
    Absent {
        below: usize,
        above: usize,
        counts: Counts,
    },
    Updated {
        slot: usize,
        counts: Counts,
    },
    Done,
    Listed(usize),
    Viewed(usize),
    Saved(usize),
    Loaded(usize),
    Taken(usize),
}

// A number that no answer has.
#[derive(Clone, Copy, Debug, PartialEq, Eq)]
pub struct NoAnswer(pub usize);

impl Answer {
    pub fn refused(refusal: Refusal) -> Answer {
        Answer::Refused { refusal, record: 0 }
    }

    pub fn refusal(self) -> Option<Refusal> {
        match self {
            Answer::Refused { refusal, .. } => Some(refusal),
            _ => None,
        }
    }

    // The counts of a search; none where the answer has none.
    pub fn counts(self) -> Counts {
        match self {
            Answer::Found { counts, .. }
            | Answer::Absent { counts, .. }
            | Answer::Updated { counts, .. } => counts,
            _ => Counts::default(),
        }
    }

    // The same answer with other counts, where it has counts.
    pub fn with_counts(self, counts: Counts) -> Answer {
        match self {
            Answer::Found { slot, value, .. } => Answer::Found {
                slot,
                value,
                counts,
            },
            Answer::Absent { below, above, .. } => Answer::Absent {
                below,
                above,
                counts,
            },
            Answer::Updated { slot, .. } => Answer::Updated { slot, counts },
            other => other,
        }
    }

    fn kind(self) -> usize {
        match self {
            Answer::Refused { .. } => 0,
            Answer::Found { .. } => 1,
            Answer::Absent { .. } => 2,
            Answer::Updated { .. } => 3,
            Answer::Done => 4,
            Answer::Listed(_) => 5,
            Answer::Viewed(_) => 6,
            Answer::Saved(_) => 7,
            Answer::Loaded(_) => 8,
            Answer::Taken(_) => 9,
        }
    }

    // The two numbers of 16 bits.
    fn numbers(self) -> (usize, usize) {
        match self {
            Answer::Refused { refusal, record } => (refusal.number(), record),
            Answer::Found { slot, value, .. } => (slot, value),
            Answer::Absent { below, above, .. } => (below, above),
            Answer::Updated { slot, .. } => (slot, 0),
            Answer::Done => (0, 0),
            Answer::Listed(n)
            | Answer::Viewed(n)
            | Answer::Saved(n)
            | Answer::Loaded(n)
            | Answer::Taken(n) => (n, 0),
        }
    }
}

impl From<Result<Answer, Refusal>> for Answer {
    fn from(said: Result<Answer, Refusal>) -> Answer {
        said.unwrap_or_else(Answer::refused)
    }
}

impl From<Answer> for usize {
    fn from(answer: Answer) -> usize {
        let Counts { visits, places } = answer.counts();
        let (one, other) = answer.numbers();
        answer.kind()
            | places % 4096 << 4
            | visits % 65536 << 16
            | one % 65536 << 32
            | other % 65536 << 48
    }
}

impl TryFrom<usize> for Answer {
    type Error = NoAnswer;

    fn try_from(said: usize) -> Result<Answer, NoAnswer> {
        let counts = Counts {
            visits: (said >> 16) % 65536,
            places: (said >> 4) % 4096,
        };
        let one = (said >> 32) % 65536;
        let other = (said >> 48) % 65536;
        let answer = match said % 16 {
            0 => Answer::Refused {
                refusal: Refusal::from_number(one).ok_or(NoAnswer(said))?,
                record: other,
            },
            1 => Answer::Found {
                slot: one,
                value: other,
                counts,
            },
            2 => Answer::Absent {
                below: one,
                above: other,
                counts,
            },
            3 => Answer::Updated { slot: one, counts },
            4 => Answer::Done,
            5 => Answer::Listed(one),
            6 => Answer::Viewed(one),
            7 => Answer::Saved(one),
            8 => Answer::Loaded(one),
            9 => Answer::Taken(one),
            _ => return Err(NoAnswer(said)),
        };
        // The bits that the answer does not have are 0.
        if usize::from(answer) == said {
            Ok(answer)
        } else {
            Err(NoAnswer(said))
        }
    }
}

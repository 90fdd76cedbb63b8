// Why a call is refused, with the paper's numbers: the judges' own, which shares no code with the index.
#[derive(Clone, Copy, Debug, PartialEq, Eq)]
pub enum Refusal {
    WrongTable = 1,
    WrongStore = 2,
    EmptyLabel = 3,
    LongLabel = 4,
    BrokenWalk = 5,
    NotSound = 6,
    AlreadyHeld = 7,
    NotHeld = 8,
    Full = 9,
    ShortList = 10,
    WrongSlot = 11,
    LongText = 12,
    BrokenRecord = 13,
    ShortOutput = 17,
    BrokenFile = 18,
    NotAscending = 19,
    BytesAfter = 20,
    WrongCharge = 24,
}

impl Refusal {
    const ALL: [Refusal; 18] = [
        Refusal::WrongTable,
        Refusal::WrongStore,
        Refusal::EmptyLabel,
        Refusal::LongLabel,
        Refusal::BrokenWalk,
        Refusal::NotSound,
        Refusal::AlreadyHeld,
        Refusal::NotHeld,
        Refusal::Full,
        Refusal::ShortList,
        Refusal::WrongSlot,
        Refusal::LongText,
        Refusal::BrokenRecord,
        Refusal::ShortOutput,
        Refusal::BrokenFile,
        Refusal::NotAscending,
        Refusal::BytesAfter,
        Refusal::WrongCharge,
    ];

    pub fn number(self) -> usize {
        self as usize
    }

    // The refusal of a number, where it is one: a `TryFrom` would want an error that its one caller drops.
    pub fn from_number(number: usize) -> Option<Refusal> {
        Refusal::ALL
            .iter()
            .copied()
            .find(|refusal| refusal.number() == number)
    }
}

// The lengths at which the tests lend memory, labels, lists and outputs, besides the index's own.
use images::memory::Image;
use images::outputs;
use images::sizes::Sizes;

// How much is lent: one less than the index's own length, as much, one more; nothing; as much as the other index has.
#[derive(Clone, Copy, Debug, PartialEq, Eq)]
pub enum Length {
    Less,
    Own,
    More,
    Nothing,
    Others,
}

// A pair of a table's and a store's length; or all this memory lent to the other index.
#[derive(Clone, Copy, Debug, PartialEq, Eq)]
pub enum Pair {
    Of(Length, Length),
    AllToOther,
}

impl Pair {
    // Each of one less, the index's own and one more with each; then none of one of the two, and the other index's of
    // one of the two.
    pub const ALL: [Pair; 14] = [
        Pair::Of(Length::Less, Length::Less),
        Pair::Of(Length::Less, Length::Own),
        Pair::Of(Length::Less, Length::More),
        Pair::Of(Length::Own, Length::Less),
        Pair::Of(Length::Own, Length::Own),
        Pair::Of(Length::Own, Length::More),
        Pair::Of(Length::More, Length::Less),
        Pair::Of(Length::More, Length::Own),
        Pair::Of(Length::More, Length::More),
        Pair::Of(Length::Nothing, Length::Own),
        Pair::Of(Length::Own, Length::Nothing),
        Pair::Of(Length::Others, Length::Own),
        Pair::Of(Length::Own, Length::Others),
        Pair::AllToOther,
    ];

    // Lends memory at these lengths.
    pub fn lend(self, image: &mut Image) {
        let other = if image.is_page() {
            Sizes::HUB
        } else {
            Sizes::PAGE
        };
        match self {
            Pair::AllToOther => image.sizes = other,
            Pair::Of(table, store) => {
                image.lent.words = table.of(image.lent.words, other.words());
                image.lent.bytes = store.of(image.lent.bytes, other.bytes());
            }
        }
    }
}

impl Length {
    fn of(self, own: usize, others: usize) -> usize {
        match self {
            Length::Less => own.wrapping_sub(1),
            Length::Own => own,
            Length::More => own.wrapping_add(1),
            Length::Nothing => 0,
            Length::Others => others,
        }
    }
}

// The bytes of a label, where it may have so many: none, one, one too many.
pub fn labels(width: usize) -> [usize; 3] {
    [0, 1, width.wrapping_add(1)]
}

// The words of a list: none, one less than the slots held, as many, and one more.
pub fn rooms(held: usize) -> [usize; 4] {
    [0, held.wrapping_sub(1), held, held.wrapping_add(1)]
}

// The bytes of an output, where the file has so many: as many, one less, one more, as many as there are, none.
pub fn outputs(file: usize) -> [usize; 5] {
    [
        file,
        file.wrapping_sub(1),
        file.wrapping_add(1),
        outputs::ALL,
        0,
    ]
}

// How many of them are taken in turn.
pub const TURNS: usize = 4;

pub fn output_in_turn(turn: usize, file: usize) -> usize {
    outputs(file)[turn % TURNS]
}

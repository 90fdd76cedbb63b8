// The changes of one byte of a file, and the shapes of which files are changed and cut short.
use samples::numbers;
use samples::shapes::Shape;

// The shapes, and the first labels of each that a file has.
pub const SHAPES: [Shape; 6] = [
    Shape::Roster,
    Shape::Alike,
    Shape::Ends,
    Shape::Any,
    Shape::Spelled,
    Shape::Letters,
];

pub const LABELS: usize = 6;

// The ways in which a byte is changed: one more, its top bit, to 0, to 255, to one that is drawn, letter case.
#[derive(Clone, Copy, Debug, PartialEq, Eq)]
pub enum Way {
    OneMore,
    TopBit,
    Zero,
    Most,
    Drawn,
    Case,
}

impl Way {
    pub const ALL: [Way; 6] = [
        Way::OneMore,
        Way::TopBit,
        Way::Zero,
        Way::Most,
        Way::Drawn,
        Way::Case,
    ];

    // The byte that stands for another at a place.
    pub fn changed(self, byte: u8, at: usize) -> u8 {
        match self {
            Way::OneMore => byte.wrapping_add(1),
            Way::TopBit => byte ^ 128,
            Way::Zero => 0,
            Way::Most => 255,
            Way::Drawn => (numbers::mixed(at, usize::from(byte)) % 256) as u8,
            Way::Case => byte ^ 32,
        }
    }
}

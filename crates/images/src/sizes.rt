// The sizes of an index: slots, bytes of a label, nodes on a path.
#[derive(Clone, Copy, Debug, PartialEq, Eq)]
pub struct Sizes {
    pub slots: usize,
    pub width: usize,
    pub depth: usize,
}

impl Sizes {
    pub const HUB: Sizes = Sizes {
        slots: 512,
        width: 64,
        depth: 12,
    };

    // The pairing page's.
    pub const PAGE: Sizes = Sizes {
        slots: 32,
        width: 20,
        depth: 6,
    };

    // How many words the table has.
    pub fn words(self) -> usize {
        self.slots.wrapping_mul(8).wrapping_add(4)
    }

    // How many bytes the store has.
    pub fn bytes(self) -> usize {
        self.slots.wrapping_mul(self.width)
    }
}

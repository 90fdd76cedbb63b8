// Charges: the right ones are 0 to 100, and 255 where it is unknown; all others are wrong.
use crate::numbers;

// The charges at the edges, the right ones first.
pub const EDGES: [usize; 11] = [0, 1, 99, 100, 255, 101, 102, 200, 254, 256, 65535];

pub const RIGHT_EDGES: usize = 5;

// A right charge, every second one at the edges.
pub fn right(seed: u64) -> usize {
    let other = numbers::next(seed);
    if numbers::below(seed, 2) == 0 {
        return numbers::one_of(other, &EDGES[..RIGHT_EDGES]);
    }
    numbers::below(other, 101)
}

// A wrong charge: at the edges, below 255, or above.
pub fn wrong(seed: u64) -> usize {
    let other = numbers::next(seed);
    match numbers::below(seed, 3) {
        0 => numbers::one_of(other, &EDGES[RIGHT_EDGES..]),
        1 => numbers::below(other, 154).wrapping_add(101),
        _ => numbers::below(other, 65280).wrapping_add(256),
    }
}

// A charge, one of eight wrong.
pub fn drawn(seed: u64) -> usize {
    let other = numbers::next(seed);
    if numbers::below(seed, 8) == 0 {
        return wrong(other);
    }
    right(other)
}

// The charge of a label by its number, one of all the right ones: no label near it has the same.
pub fn own(label: usize) -> usize {
    match label % 102 {
        101 => 255,
        charge => charge,
    }
}

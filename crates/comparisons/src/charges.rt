// The charges that a call left.
use images::memory::{Field, Image};
use plainmap::PlainMap;

pub fn of_slot(image: &Image, slot: usize) -> usize {
    image.field(slot, Field::Charge)
}

// Whether every label that the map holds has its charge.
pub fn agree(image: &Image, map: &PlainMap) -> bool {
    map.entries()
        .iter()
        .all(|entry| of_slot(image, entry.slot) == entry.charge)
}

// Whether one slot is left with a charge, and every other with the charge that it had.
pub fn stay(found: &Image, left: &Image, slot: usize, charge: usize) -> bool {
    (0..513).all(|i| {
        let due = if i == slot { charge } else { of_slot(found, i) };
        of_slot(left, i) == due
    })
}

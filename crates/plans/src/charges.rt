// The changes of charges in a sound table.
use crate::changes;
use crate::changes::Use;
use images::memory::{Field, Head, Image};
use samples::{charges, numbers};

// Numbers that are charges and numbers that are none.
const STORED: [usize; 9] = [0, 50, 100, 101, 200, 254, 255, 256, 65535];

// The last word of a slot in use, of a freed slot or of one never used becomes a number.
pub fn change_one(image: &Image, copy: &mut Image, seed: u64) {
    let draw = drawn(seed);
    let slot = match numbers::below(draw, 4) {
        0 => Some(changes::slot_by_use(image, seed, Use::Freed)),
        1 => unused(image, draw),
        _ => Some(changes::slot_by_use(image, seed, Use::Held)),
    };
    if let Some(slot) = slot {
        let to = numbers::one_of(numbers::next(draw), &STORED);
        copy.put_field(slot, Field::Charge, to);
    }
}

// The charge of each slot in use becomes one of its own; or 0, as in a table that was written when no slot had one.
pub fn change_each(image: &Image, copy: &mut Image, seed: u64) {
    let draw = drawn(seed);
    let none = numbers::below(draw, 4) == 0;
    let first = numbers::below(numbers::next(draw), 102);
    for slot in 1..=changes::slots(image) {
        if changes::in_use(image, slot) {
            let to = if none {
                0
            } else {
                charges::own(first.wrapping_add(slot))
            };
            copy.put_field(slot, Field::Charge, to);
        }
    }
}

// The number that these changes draw from: a field's number is part of its seed, as the inputs may not change.
fn drawn(seed: u64) -> u64 {
    numbers::mixed_seed(seed, Field::Charge as usize)
}

// A slot above the high mark.
fn unused(image: &Image, seed: u64) -> Option<usize> {
    let mark = image.head(Head::Mark);
    let left = image.sizes.slots.checked_sub(mark)?;
    if left == 0 {
        return None;
    }
    let more = numbers::below(numbers::next(seed), left);
    Some(mark.wrapping_add(more).wrapping_add(1))
}

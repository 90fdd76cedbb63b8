// The changes that damage a sound table: what is written where.
use crate::charges;
use images::memory::{Entry, Field, Head, Image};
use images::sizes::Sizes;
use samples::shapes::{Label, Shape};
use samples::{numbers, shapes};

// The kinds of change.
#[derive(Clone, Copy, Debug, PartialEq, Eq)]
pub enum Kind {
    OneWord,
    TwoWords,
    ThreeWords,
    Byte,
    // Two rows exchanged.
    Rows,
    // A link between the tree and the freed slots.
    Freed,
    // A link back to a node above, or to a freed slot earlier in the chain.
    Cycle,
    // A path on one side alone, of as many nodes as a walk may visit, one less or one more.
    Path,
    // Labels whose letters were told apart by their case, as a table holds them that was written when capital letters
    // counted as bytes like any other.
    Old,
    // A small place and a side of a node, so that walks take every line of the search steps.
    Fields,
    // The last word of a slot.
    Charge,
    // The charges of all slots in use.
    Charges,
}

impl Kind {
    pub const ALL: [Kind; 12] = [
        Kind::OneWord,
        Kind::TwoWords,
        Kind::ThreeWords,
        Kind::Byte,
        Kind::Rows,
        Kind::Freed,
        Kind::Cycle,
        Kind::Path,
        Kind::Old,
        Kind::Fields,
        Kind::Charge,
        Kind::Charges,
    ];

    pub fn name(self) -> &'static str {
        match self {
            Kind::OneWord => "one word",
            Kind::TwoWords => "two words",
            Kind::ThreeWords => "three words",
            Kind::Byte => "one byte",
            Kind::Rows => "two rows",
            Kind::Freed => "freed slots",
            Kind::Cycle => "cycles",
            Kind::Path => "paths",
            Kind::Old => "old",
            Kind::Fields => "fields",
            Kind::Charge => "one charge",
            Kind::Charges => "charges",
        }
    }

    // How many changes are made on a table of a shape: old labels on bytes 1 to 4 alone, and there nothing else.
    pub fn times(self, shape: Shape) -> usize {
        match (self, shape) {
            (Kind::Old, Shape::Four) => 120,
            (Kind::Old, _) | (_, Shape::Four) => 0,
            (Kind::Path, _) => 60,
            (Kind::Charges, Shape::Roster) => 40,
            (_, Shape::Roster) => 150,
            (Kind::OneWord, _) => 900,
            (Kind::Byte, _) => 500,
            _ => 300,
        }
    }

    // Makes a change on a copy of the memory; whether it is one of this kind.
    pub fn make(self, image: &Image, copy: &mut Image, seed: u64) -> bool {
        match self {
            Kind::OneWord => change_words(image, copy, seed, 1),
            Kind::TwoWords => change_words(image, copy, seed, 2),
            Kind::ThreeWords => change_words(image, copy, seed, 3),
            Kind::Byte => change_byte(image, copy, seed),
            Kind::Rows => exchange_rows(image, copy, seed),
            Kind::Freed => link_freed(image, copy, seed),
            Kind::Cycle => link_back(image, copy, seed),
            Kind::Path => make_path(image, copy, seed),
            Kind::Old => make_old(image, copy, seed),
            Kind::Fields => change_fields(image, copy, seed),
            Kind::Charge => charges::change_one(image, copy, seed),
            Kind::Charges => charges::change_each(image, copy, seed),
        }
        image.unlike(copy) >= self.differing()
    }

    // How many entries must differ, at least, for the change to be one of this kind.
    fn differing(self) -> usize {
        match self {
            Kind::TwoWords | Kind::Rows => 2,
            Kind::ThreeWords => 3,
            _ => 1,
        }
    }
}

// The slots up to the high mark, and one above it if there is one.
pub fn slots(image: &Image) -> usize {
    image
        .head(Head::Mark)
        .saturating_add(1)
        .min(image.sizes.slots)
}

// The sizes of an index that has these slots alone.
fn used(image: &Image) -> Sizes {
    Sizes {
        slots: slots(image),
        ..image.sizes
    }
}

fn change_words(image: &Image, copy: &mut Image, seed: u64, words: usize) {
    for j in 0..words {
        let draw = numbers::mixed_seed(seed, j);
        let word = Entry::Word(numbers::below(draw, used(image).words()));
        copy.put(word, another(image, word, draw));
    }
}

fn change_byte(image: &Image, copy: &mut Image, seed: u64) {
    let byte = Entry::Byte(numbers::below(seed, used(image).bytes()));
    copy.put(byte, another(image, byte, seed));
}

// Another number for an entry, or by chance the same: one beside it, 0, a small one, one about the number of slots, or
// any.
fn another(image: &Image, entry: Entry, seed: u64) -> usize {
    let found = image.entry(entry);
    let draw = numbers::next(seed);
    let other = numbers::next(draw);
    match numbers::below(draw, 6) {
        0 => found.wrapping_add(1),
        1 => found.wrapping_sub(1),
        2 => 0,
        3 => numbers::below(other, 50),
        4 => numbers::below(other, 2).wrapping_add(image.sizes.slots),
        _ => numbers::below(other, 65536),
    }
}

// One of these slots.
fn any_slot(image: &Image, seed: u64) -> usize {
    numbers::below(seed, slots(image)).wrapping_add(1)
}

// The eight words of two slots change places.
fn exchange_rows(image: &Image, copy: &mut Image, seed: u64) {
    let one = any_slot(image, seed);
    let other = any_slot(image, numbers::next(seed));
    for field in Field::ALL {
        copy.put_field(one, field, image.field(other, field));
        copy.put_field(other, field, image.field(one, field));
    }
}

// A link of the head or of a node to a freed slot, or of the chain to a node.
fn link_freed(image: &Image, copy: &mut Image, seed: u64) {
    let owner = numbers::below(seed, slots(image));
    let side = link(numbers::below(numbers::next(seed), 2));
    let held = slot_by_use(image, seed, Use::Held);
    let freed = slot_by_use(image, seed, Use::Freed);
    if owner > 0 {
        if in_use(image, owner) {
            copy.put_field(owner, side, freed);
        } else {
            copy.put_field(owner, Field::Left, held);
        }
    } else if side == Field::Left {
        copy.put(Entry::of_head(Head::Root), freed);
    } else {
        copy.put(Entry::of_head(Head::Free), held);
    }
}

pub fn in_use(image: &Image, slot: usize) -> bool {
    image.field(slot, Field::Length) > 0
}

// Whether a slot up to the high mark holds a label.
#[derive(Clone, Copy, Debug, PartialEq, Eq)]
pub enum Use {
    Held,
    Freed,
}

// A slot up to the high mark in this use: the first from a drawn one on.
pub fn slot_by_use(image: &Image, seed: u64, due: Use) -> usize {
    let mark = image.head(Head::Mark);
    let mut slot = numbers::below(numbers::next(numbers::next(seed)), mark);
    for _ in 0..mark {
        slot = if slot < mark { slot + 1 } else { 1 };
        if in_use(image, slot) == (due == Use::Held) {
            return slot;
        }
    }
    slot
}

// A link to a node above, or to a freed slot earlier in the chain, or to the slot itself.
fn link_back(image: &Image, copy: &mut Image, seed: u64) {
    let steps = numbers::next(seed);
    if numbers::below(seed, 4) == 0 {
        let earlier = walked(image, image.head(Head::Free), 0, steps);
        let later = walked(image, earlier, 0, numbers::next(steps));
        copy.put_field(later, Field::Left, earlier);
    } else {
        let above = walked(image, image.head(Head::Root), seed, steps);
        let below = walked(image, above, steps, numbers::next(steps));
        let side = link(numbers::below(numbers::next(steps), 2));
        copy.put_field(below, side, above);
    }
}

// The link of a slot on a side.
fn link(side: usize) -> Field {
    match side {
        0 => Field::Left,
        _ => Field::Right,
    }
}

// Where up to seven links lead from a slot, on the sides that one number says, as many as another says.
fn walked(image: &Image, from: usize, sides: u64, steps: u64) -> usize {
    let mut slot = from;
    for step in 1..=numbers::below(steps, 8) {
        let side = (sides >> (step % 8)) % 2;
        // Of u64 and usize no `From` leads to the other.
        let son = image.field(slot, link(side as usize));
        if son > 0 {
            slot = son;
        }
    }
    slot
}

// The root's link, then the nodes of a path from slot 1 on. Each sends every walk on to the next slot, with no place
// read: its place is 2, and a walk that has read none stands at 1 on both sides.
fn make_path(image: &Image, copy: &mut Image, seed: u64) {
    copy.put(Entry::of_head(Head::Root), 1);
    let fewer = image.sizes.depth.wrapping_sub(1);
    let end = numbers::below(seed, 3).wrapping_add(fewer);
    let side = numbers::below(numbers::next(seed), 2);
    let onward = match side {
        0 => Field::Right,
        _ => Field::Left,
    };
    for node in 1..=end {
        let next = if node < end { node + 1 } else { 0 };
        copy.put_field(node, onward, next);
        copy.put_field(node, Field::Place, 2);
        copy.put_field(node, Field::Side, side);
        copy.put_field(node, Field::Length, 1);
    }
}

// The place, from 1 to 3, and the side of a node that up to seven links lead to.
fn change_fields(image: &Image, copy: &mut Image, seed: u64) {
    let steps = numbers::next(seed);
    let slot = walked(image, image.head(Head::Root), seed, steps);
    let place = numbers::next(steps);
    copy.put_field(slot, Field::Place, numbers::below(place, 3).wrapping_add(1));
    copy.put_field(slot, Field::Side, numbers::below(numbers::next(place), 2));
}

// Each byte of the slots becomes the one that stands for it.
fn make_old(image: &Image, copy: &mut Image, seed: u64) {
    let letters = old_letters(seed);
    for i in 0..used(image).bytes() {
        let byte = (image.entry(Entry::Byte(i)) % 256) as u8;
        copy.put(Entry::Byte(i), usize::from(old_byte(letters, byte)));
    }
}

// A label whose bytes 1 to 4 are as such a table has them.
pub fn old_label(label: &Label, seed: u64) -> Label {
    let letters = old_letters(seed);
    let mut old = Label::EMPTY;
    for &byte in label.as_slice() {
        old.push(old_byte(letters, byte));
    }
    old
}

// The byte that stands for 1, 2, 3 or 4, one of these.
fn old_byte(letters: [u8; 4], byte: u8) -> u8 {
    match byte {
        1..=4 => letters[usize::from(byte) - 1],
        _ => byte,
    }
}

// Four bytes that ascend, of the 16 of the letters. As the order of the labels stays, so do their places and sides where
// each byte counts as itself. The first is "@" or a capital letter.
fn old_letters(seed: u64) -> [u8; 4] {
    let second = numbers::next(seed);
    let third = numbers::next(second);
    let a = numbers::below(seed, 4);
    let b = rank_above(a, 13, second);
    let c = rank_above(b, 14, third);
    let d = rank_above(c, 15, numbers::next(third));
    [a, b, c, d].map(shapes::letter)
}

// A number above one and up to another.
fn rank_above(rank: usize, last: usize, seed: u64) -> usize {
    let more = numbers::below(seed, last.wrapping_sub(rank));
    rank.wrapping_add(more).wrapping_add(1)
}

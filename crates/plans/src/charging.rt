// The calls of the groups that set charges.
use crate::edges::Memory;
use crate::planned::{Due, Planned};
use samples::calls::Call;
use samples::shapes::Shape;
use samples::{charges, numbers};

// A call that is drawn, or in two of five a charge for its label.
pub fn or_charge(drawn: Planned, seed: u64) -> Planned {
    // The call's number is part of the seed: the inputs may not change.
    let draw = numbers::mixed_seed(seed, Call::SetCharge as usize);
    if numbers::below(draw, 5) > 1 {
        return drawn;
    }
    let charge = charges::drawn(numbers::next(draw));
    Planned::charge(drawn.shape, drawn.label, charge, Due::Judged)
}

// A roster is inserted in order, each label is given its charge, all are deleted by halves, and inserted anew.
pub fn charged(labels: usize, i: usize) -> Planned {
    let k = i.checked_rem(labels).unwrap_or(0);
    match i.checked_div(labels) {
        Some(1) => Planned::charge(Shape::Roster, k, charges::own(k), Due::Done),
        Some(2) => Planned::new(Call::Delete, Shape::Roster, halved(labels, k), Due::Done),
        _ => Planned::new(Call::Insert, Shape::Roster, k, Due::Done),
    }
}

// The label that is deleted after `i` others: those from the middle up, then from the middle of those left up, and so
// on. Of 511 labels inserted in order the middle one is the root, and nearly every one has two sons when it goes.
fn halved(labels: usize, i: usize) -> usize {
    let left = labels.wrapping_sub(i);
    let mut top = labels;
    for _ in 0..10 {
        if top / 2 >= left {
            top /= 2;
        }
    }
    top.wrapping_add(top / 2).wrapping_sub(left)
}

// A roster is inserted but for its first label; then come the charges at the edges.
pub fn at_edges(labels: usize, i: usize) -> Planned {
    match i.checked_sub(labels) {
        None => Planned::new(Call::Insert, Shape::Roster, i.wrapping_add(1), Due::Done),
        Some(k) => Memory::Sound.call(k),
    }
}

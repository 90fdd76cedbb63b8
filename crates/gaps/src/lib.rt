// How a label lies in a window, between the labels in two slots: whether all ascend, and part by its place and side.
#![tactic(auto)]

ghost use Rattle.std.specs.Prelude.{◌≡◌, true, ◌≤◌};
ghost use Rattle.gaps.specs.Windows.{toward, is_toward, Beside, MayTie, Between};
ghost use Rattle.gaps.specs.Gapped.{gap_in, parts_at, gaps_in, fields_fine, alone, by_upper, by_lower};

use std::cmp::Ordering;
use types::Limits;

// The difference places of a label with its neighbours below and above, between which it lies as it should.
#[derive(Clone, Copy, Debug, PartialEq, Eq)]
pub struct Gaps {
    pub lower: usize,
    pub upper: usize,
}

// Of two numbers the one for a side: that below, or upward that above.
fn toward(upward: bool, below: usize, above: usize) -> usize
    ensures { result ≡ toward upward below above }
{
    if upward { above } else { below }
}

// Whether a neighbour's order is that of one below, or upward that of one above.
// By `is_gt` and `is_lt` the soundness test of 512 labels takes 2% more instructions: the `match` is decided by jumps.
fn is_toward(upward: bool, order: Ordering) -> bool
    ensures { result ≡ is_toward upward order }
{
    match order {
        Ordering::Less => !upward,
        Ordering::Equal => false,
        Ordering::Greater => upward,
    }
}

// Whether a label and its neighbour in a slot, below it or upward of it, ascend and part at this place.
fn parts_at(
    limits: Limits,
    table: &[u16],
    store: &[u8],
    label: &[u8],
    upward: bool,
    slot: usize,
    place: usize,
) -> bool
    requires beside { Beside limits table.now store.now slot }
    requires le_slot { 1 ≤ slot }
    requires le_place { 1 ≤ place }
    ensures { result
        ≡ parts_at place (gap_in limits table.now store.now upward slot label.now) }
{
    let other = words::parts::held_label(limits, table, store, slot);
    let order = eights::order_at(other, label, place);
    is_toward(upward, order)
}

// The difference places of a label with no neighbour on the side that is named: the root's, alone in its window.
fn alone(place: usize, upward: bool, above: usize) -> Option<Gaps>
    ensures { result ≡ alone place upward above }
{
    (!upward && above == 0 && place == 1).then_some(Gaps { lower: 0, upper: 0 })
}

// Both difference places, by the one with the neighbour above, in a window that parts at a place.
fn by_upper(upper: usize, apart: usize) -> Option<Gaps>
    ensures { result ≡ by_upper upper apart }
{
    (apart < upper).then_some(Gaps {
        lower: apart,
        upper,
    })
}

// The same, by the one with the neighbour below. The neighbour above is read only where both are the window's, and at
// that place alone. The tests stand in the order that takes the fewest instructions.
fn by_lower(
    limits: Limits,
    table: &[u16],
    store: &[u8],
    label: &[u8],
    lower: usize,
    above: usize,
    apart: usize,
) -> Option<Gaps>
    requires beside { Beside limits table.now store.now above }
    requires may_tie { MayTie limits table.now store.now above label.now lower apart }
    ensures { result
        ≡ by_lower lower apart
        (gap_in limits table.now store.now true above label.now) }
{
    let both = Gaps {
        lower,
        upper: apart,
    };
    if apart < lower {
        return Some(both);
    }
    if lower < apart {
        return None;
    }
    let other = words::parts::held_label(limits, table, store, above);
    let order = compares::at_place(other, label, apart);
    if order.is_gt() { Some(both) } else { None }
}

// Both difference places of a label whose place and side are by them. With the neighbour that the side names it is to
// part at the place: no other place is looked for.
pub fn gaps_in(
    limits: Limits,
    table: &[u16],
    store: &[u8],
    label: &[u8],
    place: usize,
    side: u16,
    below: usize,
    above: usize,
    apart: usize,
) -> Option<Gaps>
    requires { Between limits table.now store.now below above apart }
    ensures { result
        ≡ fields_fine place side
        (gaps_in limits table.now store.now below label.now above) }
{
    if place == 0 || 1 < side {
        return None;
    }
    let upward = side == 1;
    let near = toward(upward, below, above);
    if near == 0 {
        return alone(place, upward, above);
    }
    if !parts_at(limits, table, store, label, upward, near, place) {
        return None;
    }
    if upward {
        by_upper(place, apart)
    } else {
        by_lower(limits, table, store, label, place, above, apart)
    }
}

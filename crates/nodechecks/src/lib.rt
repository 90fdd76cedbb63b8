// The test of one node: its words and bytes, its order between its neighbours, its place and side;
// and that of a freed slot.
#![tactic(auto)]

ghost use Rattle.std.specs.Prelude.{◌≡◌, ◌≤◌, drop};
ghost use Rattle.trees.specs.Charges.{is_charge};
ghost use Rattle.tables.specs.Words.{part_at};
ghost use Rattle.tables.specs.Sound.{all_zero, zero_besides_left};
ghost use Rattle.gaps.specs.Windows.{PartFits};
ghost use Rattle.nodechecks.specs.Nodes.{used_row, freed_row, fine_gaps, NodeFits};

use gaps::Gaps;
use types::{Limits, Row};
use words::charge::UNKNOWN;

// Whether the bytes of a slot's part are zero from some byte on. With a call here the test of 512 labels takes 6% more
// instructions.
#[inline(always)]
fn part_zero(limits: Limits, store: &[u8], slot: usize, first: usize) -> bool
    requires { PartFits limits store.now slot first }
    ensures { result ≡ all_zero (drop first (part_at limits store.now slot)) }
{
    let part = words::parts::label_at(limits, store, slot, limits.width);
    zeros::bytes_zero(&part[first..])
}

// Whether a word is a charge. One that is not known, as an insert leaves it, passes by one test. The others are told by
// their square, at most 100 times 100: else the compiler makes both tests at once, which takes more instructions.
fn charge_passes(charge: u16) -> bool
    ensures { result ≡ is_charge charge }
{
    if charge == UNKNOWN {
        return true;
    }
    let n = charge as usize;
    n * n <= 10000
}

// Whether a slot in use has a label's length, a charge, and zeros after the label's end. What the length leaves of the
// width, modulo 2^64, is less than the width exactly where it is 1 to the width.
fn used_row(limits: Limits, store: &[u8], slot: usize, row: Row) -> bool
    requires part_fits { PartFits limits store.now slot 0 }
    requires width_bound { limits.width ≤ 4096 }
    ensures { result ≡ used_row limits store.now slot row }
{
    let len = row.len as usize;
    let rest = limits.width.wrapping_sub(len);
    rest < limits.width && part_zero(limits, store, slot, len) && charge_passes(row.charge)
}

// Whether all words of a row but the first are zero.
fn zero_besides_left(row: Row) -> bool
    ensures { result ≡ zero_besides_left row }
{
    zeros::words_zero(&[
        row.right,
        row.place,
        row.side,
        row.balance,
        row.len,
        row.value,
        row.charge,
    ])
}

// Whether a freed slot is zero besides its link.
#[tactic(auto, unfolding(crate::specs::Nodes::freed_row))]
pub fn freed_row(limits: Limits, store: &[u8], slot: usize, row: Row) -> bool
    requires { PartFits limits store.now slot 0 }
    ensures { result ≡ freed_row limits store.now slot row }
{
    zero_besides_left(row) && part_zero(limits, store, slot, 0)
}

// The whole test of a node between the slots of its window, which part at a place.
pub fn node_gaps(
    limits: Limits,
    table: &[u16],
    store: &[u8],
    slot: usize,
    row: Row,
    below: usize,
    above: usize,
    apart: usize,
) -> Option<Gaps>
    requires { NodeFits limits table.now store.now slot row below above apart }
    ensures { result ≡ fine_gaps limits table.now store.now slot below above }
{
    if !used_row(limits, store, slot, row) {
        return None;
    }
    let label = words::parts::label_at(limits, store, slot, row.len as usize);
    let place = row.place as usize;
    gaps::gaps_in(
        limits, table, store, label, place, row.side, below, above, apart,
    )
}

// The comparison of two labels where it may read bytes freely, and their order at one place: eight bytes that are the
// same are passed over at once, and the first eight that are not are settled place by place.
#![tactic(auto)]

ghost use Rattle.std.specs.Prelude.{◌≡◌, ◌+◌, ◌≤◌, max, leb, length, take, drop};
ghost use Rattle.labels.specs.Labels.{compare_labels, compare_from, difference_place};
ghost use Rattle.compares.specs.Compares.{comparison_of, rest, order_at, HavePlaces, StartsWithin, EndsWithin};
ghost use Rattle.eights.specs.Eights.{Packed, SameEight};

use compares::Compared;
use std::cmp::Ordering;

// The eight bytes from index i on as one number.
pub fn eight_at(bytes: &[u8], i: usize) -> u64
    requires { i + 8 ≤ length bytes.now }
    ensures { Packed result (take 8 (drop i bytes.now)) }
{
    u64::from_le_bytes([
        bytes[i],
        bytes[i + 1],
        bytes[i + 2],
        bytes[i + 3],
        bytes[i + 4],
        bytes[i + 5],
        bytes[i + 6],
        bytes[i + 7],
    ])
}

// Whether the eight bytes from index i on are the same.
fn same_eight(x: &[u8], y: &[u8], i: usize) -> bool
    requires i_in_bounds { i + 8 ≤ length x.now }
    requires i_in_bounds_2 { i + 8 ≤ length y.now }
    ensures { SameEight result x.now y.now i }
{
    eight_at(x, i) == eight_at(y, i)
}

// The first of the indices from, from + 8 and on where eight bytes are not the same, or not left before `end`.
fn past_same(x: &[u8], y: &[u8], from: usize, end: usize) -> usize
    requires { HavePlaces end x.now y.now 0 }
    ensures result_value { rest x.now y.now result ≡ rest x.now y.now from }
    ensures lower_bound { from ≤ result }
    ensures upper_bound { result ≤ max from end }
{
    if end < 8 {
        return from;
    }
    let last = end - 8;
    let mut i = from;
    // A `for` with `step_by` does not give the index at which it ends.
    while i <= last {
        if !same_eight(x, y, i) {
            return i;
        }
        i += 8;
    }
    i
}

// How x lies to y by the places from d on.
pub fn compare(x: &[u8], y: &[u8], d: usize) -> Compared
    requires { StartsWithin d y.now }
    ensures result_value { comparison_of result ≡ compare_from d x.now y.now }
    ensures ends_within { EndsWithin d y.now result.place }
{
    let end = x.len().min(y.len());
    let i = past_same(x, y, d - 1, end);
    compares::by_table(x, y, i + 1)
}

// Whether two labels agree before a place.
fn agree_before(x: &[u8], y: &[u8], place: usize) -> bool
    requires { 1 ≤ place }
    ensures { result ≡ leb place (difference_place x.now y.now) }
{
    let end = place - 1;
    if x.len() < end || y.len() < end {
        return false;
    }
    let from = past_same(x, y, 0, end);
    for i in from..end {
        if !orders::same_letter(x[i], y[i]) {
            return false;
        }
    }
    true
}

// The order of two labels by a place: the same where they part at another, or not at all.
pub fn order_at(x: &[u8], y: &[u8], place: usize) -> Ordering
    requires { 1 ≤ place }
    ensures { result ≡ order_at place (compare_labels x.now y.now) }
{
    if agree_before(x, y, place) {
        compares::at_place(x, y, place)
    } else {
        Ordering::Equal
    }
}

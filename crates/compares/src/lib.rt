// The comparison of two labels from a place on, by the numbers that their bytes stand for: `compare` for a search,
// which passes over bytes that are the same and reads no table, and `by_table` for an update. Neither reads a byte past
// the place at which it ends; the crate `eights` has one that does. `at_place` gives the order at one place alone.
#![tactic(auto)]

ghost use Rattle.std.specs.Prelude.{◌≡◌, ◌+◌, ◌≤◌, ℕ};
ghost use Rattle.std.specs.declared.cmp.Ordering.{Ordering};
ghost use Rattle.labels.specs.Labels.{compare_from};
ghost use Rattle.orders.specs.Orders.{by_numbers};
ghost use Rattle.compares.specs.Compares.{comparison_of, rest, order_at, HavePlaces};
ghost use Rattle.compares.specs.Compares.{StartsWithin, EndsWithin, EndsAt, StaysWithin};

use std::cmp::Ordering;

// The order of two labels, and the place at which their comparison ended: the difference place or the shared end's.
#[derive(Clone, Copy)]
pub struct Compared {
    pub order: Ordering,
    pub place: usize,
}

// How many of the four bytes from index i on are the same before the first that is not; each is tested before the next
// is read.
fn same_of_four(x: &[u8], y: &[u8], i: usize) -> usize
    requires { HavePlaces 4 x.now y.now i }
    ensures result_value { rest x.now y.now (i + result) ≡ rest x.now y.now i }
    ensures upper_bound { result ≤ 4 }
{
    if x[i] != y[i] {
        return 0;
    }
    if x[i + 1] != y[i + 1] {
        return 1;
    }
    if x[i + 2] != y[i + 2] {
        return 2;
    }
    if x[i + 3] != y[i + 3] {
        return 3;
    }
    4
}

// The first index from `from` on where the bytes are not the same, or the first of `from`, `from` + 4 and on where fewer
// than four are left; the shorter label ends at `end`.
// Byte by byte, as `position` goes, a search among labels that share 40 bytes takes 16% more instructions.
fn past_fours(x: &[u8], y: &[u8], from: usize, end: usize) -> usize
    requires { EndsAt x.now y.now from end }
    ensures result_value { rest x.now y.now result ≡ rest x.now y.now from }
    ensures stays_within { StaysWithin from end result }
{
    let mut i = from;
    while 4 <= end - i {
        let same = same_of_four(x, y, i);
        if same < 4 {
            return i + same;
        }
        i += 4;
    }
    i
}

// How x lies to y from the index from on, place by place, by this order of two bytes; the shorter label ends at `end`.
fn onward<F: Fn(u8, u8) -> Ordering>(
    x: &[u8],
    y: &[u8],
    from: usize,
    end: usize,
    order_of: F,
) -> Compared
    requires ends_at { EndsAt x.now y.now from end }
    requires callable { F.IsAlwaysCallable order_of }
    requires by_numbers { (a b : ℕ) (o : Ordering) → F.post order_of a b o → o ≡ by_numbers a b }
    ensures result_value { comparison_of result ≡ rest x.now y.now from }
    ensures ends_within { EndsWithin (from + 1) y.now result.place }
{
    for i in from..end {
        let order = order_of(x[i], y[i]);
        if order.is_ne() {
            return Compared {
                order,
                place: i + 1,
            };
        }
    }
    Compared {
        order: x.len().cmp(&y.len()),
        place: end + 1,
    }
}

// The order at place d alone: the same where it does not end the comparison from there on.
pub fn at_place(x: &[u8], y: &[u8], d: usize) -> Ordering
    requires { 1 ≤ d }
    ensures { result ≡ order_at d (compare_from d x.now y.now) }
{
    let index = d - 1;
    if x.len() <= index {
        return orders::at_end(x.len(), y.len(), index);
    }
    if y.len() <= index {
        return Ordering::Greater;
    }
    orders::by_sight(x[index], y[index])
}

// How x lies to y by the places from d on. Most comparisons of a search end at place d: it is tested by itself.
pub fn compare(x: &[u8], y: &[u8], d: usize) -> Compared
    requires { StartsWithin d y.now }
    ensures result_value { comparison_of result ≡ compare_from d x.now y.now }
    ensures ends_within { EndsWithin d y.now result.place }
{
    let first = d - 1;
    if x.len() <= first {
        let order = orders::at_end(x.len(), y.len(), first);
        return Compared { order, place: d };
    }
    if y.len() <= first {
        return Compared {
            order: Ordering::Greater,
            place: d,
        };
    }
    let order = orders::by_sight(x[first], y[first]);
    if order.is_ne() {
        return Compared { order, place: d };
    }
    let end = x.len().min(y.len());
    let i = past_fours(x, y, d, end);
    onward(x, y, i, end, orders::by_sight)
}

// The same, place by place, each byte read once, by the numbers in the table.
pub fn by_table(x: &[u8], y: &[u8], d: usize) -> Compared
    requires { StartsWithin d y.now }
    ensures result_value { comparison_of result ≡ compare_from d x.now y.now }
    ensures ends_within { EndsWithin d y.now result.place }
{
    let from = d - 1;
    let end = x.len().min(y.len());
    if end < from {
        let order = orders::at_end(x.len(), y.len(), from);
        return Compared { order, place: d };
    }
    onward(x, y, from, end, orders::by_table)
}

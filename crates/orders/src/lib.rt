// The order of two labels by the bytes at one place, or by their ends.
#![tactic(auto)]

ghost use Rattle.std.specs.Prelude.{◌≡◌, eqb};
ghost use Rattle.labels.specs.Labels.{number_of};
ghost use Rattle.orders.specs.Orders.{by_numbers, parts, shown, at_end};

use std::cmp::Ordering;

// The order by two bytes, as their numbers in the table have it: bytes that are the same need no table.
#[tactic(auto, using(crate::proofs::OrderLaws::same_bytes), unfolding(crate::specs::Orders::by_numbers))]
pub fn by_table(a: u8, b: u8) -> Ordering
    ensures { result ≡ by_numbers a b }
{
    if a == b {
        return Ordering::Equal;
    }
    numbers::number(a).cmp(&numbers::number(b))
}

// Whether the numbers of two bytes may lie otherwise than the bytes: the smaller one is a capital letter, and the
// larger one is above "Z".
#[tactic(auto, using(std::proofs::lemmas::Grind::common_steps), unfolding(crate::specs::Orders::parts))]
fn parts(lower: u8, upper: u8) -> bool
    ensures { result ≡ parts lower upper }
{
    lower.is_ascii_uppercase() && b'Z' < upper
}

// The order by two different bytes as far as they show it: the same where their numbers may lie otherwise.
#[tactic(auto, using(std::proofs::lemmas::Grind::common_steps), unfolding(crate::specs::Orders::shown))]
pub fn shown(a: u8, b: u8) -> Ordering
    ensures { result ≡ shown a b }
{
    if a < b {
        if parts(a, b) {
            Ordering::Equal
        } else {
            Ordering::Less
        }
    } else if parts(b, a) {
        Ordering::Equal
    } else {
        Ordering::Greater
    }
}

// Whether one number stands for two bytes: those that are the same, as mostly, need no fold.
#[tactic(auto, using(std::proofs::lemmas::Grind::common_steps), unfolding(labels::specs::Labels::number_of))]
pub fn same_letter(a: u8, b: u8) -> bool
    ensures { result ≡ eqb (number_of a) (number_of b) }
{
    a == b || a.eq_ignore_ascii_case(&b)
}

// The order by two bytes, with no table.
#[tactic(auto, using(std::proofs::lemmas::Grind::common_steps), unfolding(crate::specs::Orders::by_numbers, labels::specs::Labels::number_of))]
pub fn by_letters(a: u8, b: u8) -> Ordering
    ensures { result ≡ by_numbers a b }
{
    a.to_ascii_lowercase().cmp(&b.to_ascii_lowercase())
}

// The same, folded only where different bytes do not show it.
#[tactic(auto, using(crate::proofs::OrderLaws::same_bytes))]
pub fn by_sight(a: u8, b: u8) -> Ordering
    ensures { result ≡ by_numbers a b }
{
    if a == b {
        return Ordering::Equal;
    }
    shown(a, b).then_with(|| by_letters(a, b))
}

// The order of labels of lengths m and n that agree up to the index i, at which one of them ends.
#[tactic(auto, using(std::proofs::lemmas::Grind::common_steps), unfolding(crate::specs::Orders::at_end))]
pub fn at_end(m: usize, n: usize, i: usize) -> Ordering
    ensures { result ≡ at_end m n i }
{
    if i < m {
        Ordering::Greater
    } else if i < n {
        Ordering::Less
    } else {
        Ordering::Equal
    }
}

// The order of labels by the numbers at their places, in which A to Z count as a to z, and the leading bytes that two
// share.
use std::cmp::Ordering;

// The number of a byte: a capital letter's is that of its small letter, any other's the byte plus 1.
fn number_of(byte: u8) -> usize {
    let small = match byte {
        b'A'..=b'Z' => byte - b'A' + b'a',
        _ => byte,
    };
    usize::from(small) + 1
}

// The number at a place of a label, counted from 1: its byte's, and 0 past its end.
pub fn number_at(label: &[u8], place: usize) -> usize {
    match place.checked_sub(1).and_then(|i| label.get(i)) {
        Some(byte) => number_of(*byte),
        None => 0,
    }
}

// The order of two labels: that of the numbers at the first place where they differ.
pub fn order(one: &[u8], other: &[u8]) -> Ordering {
    for (a, b) in one.iter().zip(other.iter()) {
        let numbers = number_of(*a).cmp(&number_of(*b));
        if numbers != Ordering::Equal {
            return numbers;
        }
    }
    one.len().cmp(&other.len())
}

// How many leading bytes two labels share, letters in either case; no end is counted.
pub fn shared(one: &[u8], other: &[u8]) -> usize {
    one.iter()
        .zip(other.iter())
        .take_while(|(a, b)| alike(**a, **b))
        .count()
}

// Whether two bytes have one number, told without it: the same byte, or the same letter in either case.
fn alike(one: u8, other: u8) -> bool {
    one == other || is_capital_of(one, other) || is_capital_of(other, one)
}

// Whether a byte is the capital letter of a small one.
fn is_capital_of(byte: u8, small: u8) -> bool {
    matches!(small, b'a'..=b'z') && byte == small - 32
}

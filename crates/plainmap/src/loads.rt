// A file read into a map, by rules of its own: a number's first three bytes say by their ranges how many it takes. The
// labels stand in slots 1, 2 and on in file order, with no charge known.
use crate::{Entry, PlainMap, UNKNOWN, labels};
use images::refusals::Refusal;
use samples::shapes::Label;
use std::cmp::Ordering;

// Reads a file into an empty map, and gives how many labels it has; of a file that is refused the map holds the labels
// before the one that refuses it.
pub fn read(file: &[u8], map: &mut PlainMap) -> Result<usize, Refusal> {
    let (count, mut rest) = number(file).ok_or(Refusal::BrokenFile)?;
    if count > map.slots {
        return Err(Refusal::BrokenFile);
    }
    for slot in 1..=count {
        let (label, value, after) = entry(rest, map.width).ok_or(Refusal::BrokenFile)?;
        append(map, slot, label, value)?;
        rest = after;
    }
    if !rest.is_empty() {
        return Err(Refusal::BytesAfter);
    }
    Ok(count)
}

// Holds a label that is above them all.
fn append(map: &mut PlainMap, slot: usize, label: &[u8], value: u16) -> Result<(), Refusal> {
    if let Some(last) = map.entries().last() {
        if labels::order(last.label.as_slice(), label) != Ordering::Less {
            return Err(Refusal::NotAscending);
        }
    }
    let held = Entry {
        slot,
        label: Label::of(label),
        value,
        charge: UNKNOWN,
    };
    map.put(map.held, held).ok_or(Refusal::Full)?;
    map.high = slot;
    Ok(())
}

// The label and the value at the start of some bytes, and the bytes after them; none where one of the two is broken.
fn entry(bytes: &[u8], width: usize) -> Option<(&[u8], u16, &[u8])> {
    let (len, rest) = number(bytes)?;
    if len == 0 || len > width {
        return None;
    }
    let (label, rest) = rest.split_at_checked(len)?;
    let (value, rest) = number(rest)?;
    Some((label, u16::try_from(value).ok()?, rest))
}

// The number at the start of some bytes, and the bytes after it: no byte of it but the first may be 0, and none but the
// last may be below 128.
fn number(bytes: &[u8]) -> Option<(usize, &[u8])> {
    match bytes {
        [a @ 0..=127, rest @ ..] => Some((usize::from(*a), rest)),
        [a, b @ 1..=127, rest @ ..] => {
            let low = usize::from(*a % 128);
            Some((low + 128 * usize::from(*b), rest))
        }
        [a, b @ 128..=255, c @ 1..=127, rest @ ..] => {
            let low = usize::from(*a % 128) + 128 * usize::from(*b % 128);
            Some((low + 16384 * usize::from(*c), rest))
        }
        _ => None,
    }
}

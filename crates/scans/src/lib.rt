// A saved file read in order, and nothing written: its entries, and whether the whole of it can be loaded.
// It ends at the first number or label that is not as it must be.
#![tactic(auto)]

pub mod groups;

ghost use Rattle.std.specs.Prelude.{◌≡◌, [], drop, IfSome};
ghost use Rattle.labels.specs.Labels.{compare_labels};
ghost use Rattle.trees.specs.Valid.{is_smaller};
ghost use Rattle.lengths.specs.Tests.{test_says};
ghost use Rattle.files.specs.FileReads.{take_entry, take_entries};
ghost use Rattle.scans.specs.Scanned.{entry_says, EntryInside, verdict_of};

use types::{Limits, Refusal};

// A number that is read, and the position after it.
#[derive(Clone, Copy, Debug, PartialEq, Eq)]
pub struct Number {
    pub n: usize,
    pub next: usize,
}

// An entry of a file: where its label starts and ends, its value, and the position after it.
#[derive(Clone, Copy, Debug, PartialEq, Eq)]
pub struct Entry {
    pub start: usize,
    pub end: usize,
    pub value: u16,
    pub next: usize,
}

// The entry at a position; none where its length, its bytes or its value are not as they must be.
pub fn take_entry(limits: Limits, file: &[u8], at: usize) -> Option<Entry>
    ensures result_value { entry_says file.now result ≡ take_entry limits (drop at file.now) }
    ensures entry_inside { IfSome result (EntryInside file.now) }
{
    let size = groups::take(file, at, 1, limits.width)?;
    if file.len() - size.next < size.n {
        return None;
    }
    let end = size.next + size.n;
    let value = groups::take(file, end, 0, 65535)?;
    Some(Entry {
        start: size.next,
        end,
        value: value.n as u16,
        next: value.next,
    })
}

// Whether a label is above another one.
fn is_above(label: &[u8], before: &[u8]) -> bool
    ensures { result ≡ is_smaller (compare_labels before.now label.now) }
{
    eights::compare(before, label, 1).order.is_lt()
}

// Whether so many entries from a position on, and the end after them, are as they must be: refused by 18, 19 or 20.
pub fn scan(limits: Limits, file: &[u8], at: usize, count: usize) -> Result<(), Refusal>
    ensures { test_says result ≡ verdict_of (take_entries limits count [] (drop at file.now)) }
{
    let mut next = at;
    let mut before: &[u8] = &[];
    for _ in 0..count {
        let entry = take_entry(limits, file, next).ok_or(Refusal::BrokenFile)?;
        let label = &file[entry.start..entry.end];
        if !is_above(label, before) {
            return Err(Refusal::NotAscending);
        }
        next = entry.next;
        before = label;
    }
    if next < file.len() {
        return Err(Refusal::BytesAfter);
    }
    Ok(())
}

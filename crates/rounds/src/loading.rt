// Loads of a file into the memory that an image holds, compared with the file read apart, and with the table and store
// that the public inserts of its labels leave.
use crate::{calls, states};
use comparisons::loads;
use images::memory::Image;
use images::packing::Answer;
use index::Hub;
use plainmap::{Entry, PlainMap};
use reports::Round;
use reports::faults::{Fault, ensure};

// Makes a load of a file, and compares the answer and what is left, past the lengths lent too. The map becomes that of
// the labels that are to be held, an empty one where the load is to be refused.
pub fn made(image: &mut Image, file: &[u8], map: &mut PlainMap) -> Round {
    let found = *image;
    let due = loads::judge(image, file, map);
    let said = calls::answer(make(image, file));
    Round {
        said: compare(&found, image, map, due, said),
        given: said.ok(),
        reached: false,
    }
}

// Compares an answer with the one that is due, and what is left: after a refusal what was found.
fn compare(
    found: &Image,
    left: &Image,
    map: &PlainMap,
    due: Answer,
    said: Result<Answer, Fault>,
) -> Result<Answer, Fault> {
    ensure(said? == due, Fault::Answer)?;
    if matches!(due, Answer::Loaded(_)) {
        compare_loaded(found, left, map)?;
    } else {
        ensure(found == left, Fault::Memory)?;
    }
    Ok(due)
}

// Compares what a load left with what the inserts into an empty table leave, then with the map.
fn compare_loaded(found: &Image, left: &Image, map: &PlainMap) -> Result<(), Fault> {
    let mut due = *found;
    ensure(insert_all(&mut due, map), Fault::Inserts)?;
    ensure(due == *left, Fault::Memory)?;
    states::compare_map(left, map)
}

fn make(image: &mut Image, file: &[u8]) -> usize {
    match image.table_and_store_mut() {
        Some((table, store)) => exports::load(table, store, file),
        None => 0,
    }
}

// Lays out an empty table and inserts the labels of a map into it, slot by slot; whether no call is refused.
fn insert_all(image: &mut Image, map: &PlainMap) -> bool {
    match image.table_and_store_mut() {
        Some((table, store)) => fill(table, store, map),
        None => false,
    }
}

// A map of a file's labels has them in the slots from 1 on.
fn fill(table: &mut [u16], store: &mut [u8], map: &PlainMap) -> bool {
    let mut done = exports::layout::<Hub>(table, store) == usize::from(Answer::Done);
    for entry in map.entries() {
        done = insert(table, store, entry) && done;
    }
    done
}

// Inserts a label; whether it takes the slot that the map has it in.
fn insert(table: &mut [u16], store: &mut [u8], entry: &Entry) -> bool {
    let said = exports::insert::<Hub>(table, store, entry.label.as_slice(), entry.value);
    match Answer::try_from(said) {
        Ok(Answer::Updated { slot, .. }) => slot == entry.slot,
        _ => false,
    }
}

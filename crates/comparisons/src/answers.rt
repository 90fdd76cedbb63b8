// The answer of a call on a sound table, compared with the map's and the second writing's.
use crate::Request;
use images::memory::Image;
use images::packing::{Answer, Counts};
use images::refusals::Refusal;
use oracles::{bounds, updates};
use plainmap::{PlainMap, Searched};
use reports::faults::{Fault, ensure};
use samples::calls::Call;

// Makes a search or an update on the map; the answer has no counts.
pub fn on_map(map: &mut PlainMap, request: Request) -> Answer {
    let Request {
        call,
        label,
        number,
    } = request;
    let updated = match call {
        Call::Search => return searched_on(map, label),
        Call::Insert => map.insert(label, (number % 65536) as u16),
        Call::SetCharge => map.set_charge(label, number),
        _ => map.delete(label),
    };
    let counts = Counts::default();
    match updated {
        Ok(slot) => Answer::Updated { slot, counts },
        Err(refusal) => Answer::refused(refusal),
    }
}

fn searched_on(map: &PlainMap, label: &[u8]) -> Answer {
    let counts = Counts::default();
    match map.search(label) {
        Ok(Searched::Found { slot, value }) => Answer::Found {
            slot,
            value: usize::from(value),
            counts,
        },
        Ok(Searched::Absent { below, above }) => Answer::Absent {
            below: below.unwrap_or(0),
            above: above.unwrap_or(0),
            counts,
        },
        Err(refusal) => Answer::refused(refusal),
    }
}

// Compares an answer with the second writing's, the map's, and the bounds, with the most bytes that the label shares
// with one held before the call.
pub fn compare(
    found: &Image,
    request: Request,
    shared: usize,
    said: Answer,
    plain: Answer,
) -> Result<(), Fault> {
    let Request {
        call,
        label,
        number,
    } = request;
    let due = Answer::from(updates::on_sound(found, call, label, number));
    ensure(said == due, Fault::Answer)?;
    ensure(said == plain.with_counts(said.counts()), Fault::Map)?;
    compare_bounds(found, label, shared, said.counts())
}

// Compares counts with the bounds: those of the answer, and those of the search steps, since a refused call made a
// search too.
pub fn compare_bounds(
    found: &Image,
    label: &[u8],
    shared: usize,
    counts: Counts,
) -> Result<(), Fault> {
    compare_counts(found, label.len(), shared, counts)?;
    compare_counts(found, label.len(), shared, searched(found, label))
}

// The counts of the search steps.
fn searched(found: &Image, label: &[u8]) -> Counts {
    Answer::from(updates::on_sound(found, Call::Search, label, 0)).counts()
}

fn compare_counts(found: &Image, len: usize, shared: usize, counts: Counts) -> Result<(), Fault> {
    ensure(bounds::hold(found, len, counts), Fault::Bounds)?;
    ensure(bounds::shared_holds(shared, counts), Fault::Shared)
}

// Whether the search of a call reached the bound by shared bytes; a call that refuses a charge makes none.
pub fn reached(found: &Image, label: &[u8], shared: usize, said: Answer) -> bool {
    said.refusal() != Some(Refusal::WrongCharge)
        && bounds::shared_reached(shared, searched(found, label))
}

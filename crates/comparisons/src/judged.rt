// A call on any memory, compared with the second writing; where the memory is sound, a search and a charge call also
// with the map of the labels held, and an update's counts with the bytes shared with these.
use crate::{Request, answers, charges, maps};
use audits::{lengths, sound};
use images::memory::{Head, Image};
use images::packing::Answer;
use oracles::{outcomes, updates};
use reports::faults::{Fault, ensure};
use samples::calls::Call;

// Compares a call's answer, what it left, and its counts.
pub fn compare(found: &Image, left: &Image, request: Request, said: Answer) -> Result<(), Fault> {
    let mut judged = *found;
    let due = outcomes::judge(&mut judged, request.call, request.label, request.number);
    ensure(said == due, Fault::Answer)?;
    match said {
        Answer::Updated { slot, .. } if request.call != Call::SetCharge => {
            compare_update(found, left, request, slot)?;
        }
        _ => ensure(judged == *left, Fault::Memory)?,
    }
    if !has_map(found, request.call) {
        return Ok(());
    }
    compare_labelled(found, left, request, said)
}

// Whether a call is one on a label, on sound memory of the right lengths: of any other memory there is no map.
fn has_map(image: &Image, call: Call) -> bool {
    matches!(
        call,
        Call::Search | Call::Insert | Call::Delete | Call::SetCharge
    ) && lengths::admit_lent(image).is_ok()
        && sound::is_sound(image)
}

// Compares a search or an update with the map of the labels held: a search's answer, a charge call's and the charges
// that it left, an insert's or a delete's counts.
fn compare_labelled(
    found: &Image,
    left: &Image,
    request: Request,
    said: Answer,
) -> Result<(), Fault> {
    let mut map = maps::of_table(found);
    let shared = map.most_shared(request.label);
    if matches!(request.call, Call::Insert | Call::Delete) {
        return answers::compare_bounds(found, request.label, shared, said.counts());
    }
    let plain = answers::on_map(&mut map, request);
    answers::compare(found, request, shared, said, plain)?;
    ensure(charges::agree(left, &map), Fault::Charges)
}

// Compares what an insert or a delete left that was not refused: the table is sound, no charge but that of its slot has
// changed, 255 for unknown where the slot is taken and 0 where it is freed, and the call is done.
fn compare_update(found: &Image, left: &Image, request: Request, slot: usize) -> Result<(), Fault> {
    let inserts = request.call == Call::Insert;
    ensure(sound::is_sound(left), Fault::Soundness)?;
    ensure(
        charges::stay(found, left, slot, if inserts { 255 } else { 0 }),
        Fault::Charges,
    )?;
    if inserts {
        return compare_insert(found, left, request, slot);
    }
    ensure(held(found) == held(left).wrapping_add(1), Fault::Head)?;
    ensure(
        matches!(met(left, request), Answer::Absent { .. }),
        Fault::Memory,
    )
}

// One label more, whose bytes stand in the slot, and which a search finds there, with the value.
fn compare_insert(found: &Image, left: &Image, request: Request, slot: usize) -> Result<(), Fault> {
    ensure(stands(left, slot, request.label), Fault::Memory)?;
    ensure(held(found).wrapping_add(1) == held(left), Fault::Head)?;
    let met = met(left, request);
    let due = Answer::Found {
        slot,
        value: request.number % 65536,
        counts: met.counts(),
    };
    ensure(met == due, Fault::Memory)
}

fn held(image: &Image) -> usize {
    image.head(Head::Held)
}

// What a search for the label says then.
fn met(left: &Image, request: Request) -> Answer {
    Answer::from(updates::on_sound(left, Call::Search, request.label, 0))
}

// Whether a slot's bytes begin with a label's, in its spelling.
fn stands(image: &Image, slot: usize, label: &[u8]) -> bool {
    image.part(slot).starts_with(label)
}

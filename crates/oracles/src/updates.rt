// The answers of searches and updates, and what a charge leaves.
use crate::steps;
use audits::{charges, lengths, sound};
use images::memory::{Field, Head, Image};
use images::packing::Answer;
use images::refusals::Refusal;
use samples::calls::Call;

// The answer of a search or an update on memory of the right lengths.
pub fn answer(image: &Image, call: Call, label: &[u8], charge: usize) -> Result<Answer, Refusal> {
    if call != Call::Search {
        admit_given(image, call, label.len(), charge)?;
        sound::admit(image)?;
    }
    on_sound(image, call, label, charge)
}

// Refuses a label by its length or, where one is given, a charge.
fn admit_given(image: &Image, call: Call, len: usize, charge: usize) -> Result<(), Refusal> {
    lengths::admit_label(image, len)?;
    match call {
        Call::SetCharge => charges::admit_charge(charge),
        _ => Ok(()),
    }
}

// The answer of a search, or of an update on memory that is sound.
pub fn on_sound(image: &Image, call: Call, label: &[u8], charge: usize) -> Result<Answer, Refusal> {
    admit_given(image, call, label.len(), charge)?;
    let met = steps::search(image, label)?;
    match call {
        Call::Insert => inserted(image, met),
        Call::Delete | Call::SetCharge => at_held(met),
        _ => Ok(met),
    }
}

fn inserted(image: &Image, met: Answer) -> Result<Answer, Refusal> {
    if matches!(met, Answer::Found { .. }) {
        return Err(Refusal::AlreadyHeld);
    }
    if image.head(Head::Held) >= image.sizes.slots {
        return Err(Refusal::Full);
    }
    Ok(Answer::Updated {
        slot: new_slot(image),
        counts: met.counts(),
    })
}

fn new_slot(image: &Image) -> usize {
    match image.head(Head::Free) {
        0 => image.head(Head::Mark).wrapping_add(1),
        freed => freed,
    }
}

// An update of the slot of a label that is held.
fn at_held(met: Answer) -> Result<Answer, Refusal> {
    match met {
        Answer::Found { slot, counts, .. } => Ok(Answer::Updated { slot, counts }),
        _ => Err(Refusal::NotHeld),
    }
}

// Where a charge is not refused, it is written to the label's slot, and nothing else changes.
pub fn set_charge(image: &mut Image, label: &[u8], charge: usize) -> Result<Answer, Refusal> {
    let said = answer(image, Call::SetCharge, label, charge)?;
    if let Answer::Updated { slot, .. } = said {
        image.put_field(slot, Field::Charge, charge);
    }
    Ok(said)
}

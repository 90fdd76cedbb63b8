// What a call on a sound table left, compared with the map.
use crate::charges;
use audits::sound;
use images::memory::{Field, Head, Image};
use images::packing::Answer;
use plainmap::PlainMap;
use reports::faults::{Fault, ensure};
use samples::calls::Call;

// Compares what a call left with the memory that it is to leave, and with the map.
pub fn compare(
    found: &Image,
    left: &Image,
    map: &PlainMap,
    call: Call,
    said: Answer,
) -> Result<(), Fault> {
    ensure(memory_agrees(found, left, call, said), Fault::Memory)?;
    compare_map(left, map)
}

// Compares memory with what the map holds: it is sound, and has the map's head and each label's charge.
pub fn compare_map(left: &Image, map: &PlainMap) -> Result<(), Fault> {
    ensure(sound::is_sound(left), Fault::Soundness)?;
    ensure(head_agrees(left, map), Fault::Head)?;
    ensure(charges::agree(left, map), Fault::Charges)
}

// Whether a call that updated left other memory, and any other call the same; one that set a charge changed at most
// that word.
fn memory_agrees(found: &Image, left: &Image, call: Call, said: Answer) -> bool {
    match said {
        Answer::Updated { slot, .. } if call == Call::SetCharge => {
            let mut set = *found;
            set.put_field(slot, Field::Charge, charges::of_slot(left, slot));
            set == *left
        }
        Answer::Updated { .. } => found != left,
        _ => found == left,
    }
}

// The labels held, the high mark, and the slot freed last, 0 for none.
fn head_agrees(image: &Image, map: &PlainMap) -> bool {
    image.head(Head::Held) == map.held()
        && image.head(Head::Mark) == map.high()
        && image.head(Head::Free) == map.last_freed().unwrap_or(0)
}

// Whether the first words of the list are the slots of the map's labels, with their values, and the later words have
// stayed.
pub fn list_agrees(image: &Image, map: &PlainMap) -> bool {
    (0..513).all(|i| {
        let word = image.listed(i);
        match map.entries().get(i) {
            Some(entry) => {
                word == entry.slot && image.field(word, Field::Value) == usize::from(entry.value)
            }
            None => word == 65535,
        }
    })
}

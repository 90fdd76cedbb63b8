// A roster's text read apart from the index, and what taking it is to say and to leave in a map. Each function takes
// any text and any memory.
#![tactic(auto)]

pub mod machine;
pub mod values;

use audits::{lengths, sound};
use images::memory::Image;
use images::packing::Answer;
use images::refusals::Refusal;
use plainmap::PlainMap;

// The longest text.
const LONGEST: usize = 16384;

// What taking a text is to say, on an image's memory, which the map stands for where it is sound. The records that are
// to go in are held by the map afterwards.
pub fn judge(image: &Image, text: &[u8], map: &mut PlainMap) -> Answer {
    match admit(image, text) {
        Ok(()) => hold_all(text, map, sound::is_sound(image)),
        Err(refusal) => Answer::refused(refusal),
    }
}

// Refuses memory by its lengths, then a text by its own.
fn admit(image: &Image, text: &[u8]) -> Result<(), Refusal> {
    lengths::admit_lent(image)?;
    if text.len() > LONGEST {
        return Err(Refusal::LongText);
    }
    Ok(())
}

// Each record has a byte at least, so they are no more than the text's bytes.
fn hold_all(text: &[u8], map: &mut PlainMap, is_sound: bool) -> Answer {
    let mut at = 0;
    for k in 0..text.len() {
        if at >= text.len() {
            return Answer::Taken(k);
        }
        let read = machine::read(text, at);
        let value = values::value(text, &read);
        if let Err(refusal) = hold(map, read.label.as_slice(), value, is_sound) {
            return Answer::Refused {
                refusal,
                record: k + 1,
            };
        }
        at = read.end;
    }
    Answer::Taken(text.len())
}

// Holds a record's label with its value. Memory that is not sound lets no record in, so its refusal is the first one's.
fn hold(
    map: &mut PlainMap,
    label: &[u8],
    value: Option<u16>,
    is_sound: bool,
) -> Result<(), Refusal> {
    let value = value.ok_or(Refusal::BrokenRecord)?;
    match label.len() {
        _ if is_sound => {
            map.insert(label, value)?;
            Ok(())
        }
        0 => Err(Refusal::EmptyLabel),
        1..=64 => Err(Refusal::NotSound),
        _ => Err(Refusal::LongLabel),
    }
}

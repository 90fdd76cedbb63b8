// A save on any memory, compared with the file of the map of what the memory holds.
use crate::maps;
use audits::{lengths, sound};
use images::memory::Image;
use images::outputs;
use images::outputs::Output;
use images::packing::Answer;
use images::refusals::Refusal;
use plainmap::{PlainMap, files};
use reports::faults::{Fault, ensure};

// Compares a save into the first bytes of an output, so many: its answer, and what it left of the whole output, past
// the file and past the bytes lent too.
pub fn compare(
    image: &Image,
    map: &PlainMap,
    left: &Output,
    room: usize,
    said: Answer,
) -> Result<(), Fault> {
    let mut due = outputs::fresh();
    let judged = Answer::from(judge(image, map, &mut due, room));
    ensure(said == judged, Fault::Answer)?;
    ensure(due == *left, Fault::Output)
}

// What a save says, and what it leaves in an output of which so many bytes are lent: a file that fits, or what was
// there.
fn judge(
    image: &Image,
    map: &PlainMap,
    output: &mut Output,
    room: usize,
) -> Result<Answer, Refusal> {
    admit(image)?;
    let mut written = *output;
    let n = files::write(&mut written, map);
    if n > room {
        return Err(Refusal::ShortOutput);
    }
    *output = written;
    Ok(Answer::Saved(n))
}

// Refuses a save of memory, whatever the output: by its lengths, then as not sound.
fn admit(image: &Image) -> Result<(), Refusal> {
    lengths::admit_lent(image)?;
    sound::admit(image)
}

// The map of what memory holds, an empty one where a save of it is refused.
pub fn map_of(image: &Image) -> PlainMap {
    match admit(image) {
        Ok(()) => maps::of_table(image),
        Err(_) => PlainMap::new(0, 0),
    }
}

// Saves of the memory that an image holds, compared with the file of a map. Table and store are lent to be read alone,
// and the image stays: what can differ is the output.
use crate::calls;
use comparisons::saves;
use images::memory::Image;
use images::outputs;
use images::outputs::Output;
use images::packing::Answer;
use plainmap::PlainMap;
use reports::Round;
use reports::faults::Fault;

// Makes a save into the first bytes of an output, so many, and compares the answer and the whole output.
pub fn made(image: &Image, map: &PlainMap, room: usize) -> Round {
    let mut output = outputs::fresh();
    into(image, map, &mut output, room)
}

// The same, and leaves the output, which is fresh before.
pub fn into(image: &Image, map: &PlainMap, output: &mut Output, room: usize) -> Round {
    let said = calls::answer(make(image, output, room));
    Round {
        said: compare(image, map, output, room, said),
        given: said.ok(),
        reached: false,
    }
}

fn compare(
    image: &Image,
    map: &PlainMap,
    output: &Output,
    room: usize,
    said: Result<Answer, Fault>,
) -> Result<Answer, Fault> {
    let said = said?;
    saves::compare(image, map, output, room, said)?;
    Ok(said)
}

// Makes a save that is to leave an output as another save left one.
pub fn again(image: &Image, map: &PlainMap, before: &Output) -> Round {
    let mut output = outputs::fresh();
    let mut round = into(image, map, &mut output, outputs::ALL);
    if *before != output {
        round.said = Err(Fault::Output);
    }
    round
}

fn make(image: &Image, output: &mut Output, room: usize) -> usize {
    match (image.table_and_store(), output.get_mut(..room)) {
        (Some((table, store)), Some(output)) => exports::save(table, store, output),
        _ => 0,
    }
}

// The loads, into memory that is full of other things: of what sound tables were saved as, of files at an edge, and of
// any file for the other groups. The hub's index alone has them.
use crate::{saving, sequences};
use images::memory::Image;
use images::outputs;
use images::outputs::Output;
use images::packing::Answer;
use images::refusals::Refusal;
use plainmap::PlainMap;
use plans::lengths;
use plans::planned::Due;
use reports::Report;
use reports::tallies::Tally;
use samples::calls::Call;
use samples::numbers;
use std::io;

// One of so many calls on a sound table, that with this remainder, is followed by a save, a load and a save.
const EVERY: usize = 64;

const TURN: usize = 47;

// Saves, loads and saves after call `i` of a sequence, where it is its turn.
pub fn after(
    report: &mut Report<Tally>,
    image: &Image,
    map: &PlainMap,
    i: usize,
) -> io::Result<()> {
    if image.is_page() || i % EVERY != TURN {
        return Ok(());
    }
    saved(report, image, map)
}

// Saves a table, loads the file, which is to be taken, into other memory, and saves that: the file is the same.
fn saved(report: &mut Report<Tally>, image: &Image, map: &PlainMap) -> io::Result<()> {
    let mut file = outputs::fresh();
    let round = rounds::saving::into(image, map, &mut file, outputs::ALL);
    saving::count(report, round)?;
    let n = match round.given {
        Some(Answer::Saved(n)) => n,
        _ => 0,
    };
    let mut copy = *image;
    let mut loaded = PlainMap::new(0, 0);
    into(report, &mut copy, &file, n, Due::Done, &mut loaded)?;
    saving::count(report, rounds::saving::again(&copy, &loaded, &file))
}

// Loads the first bytes of a file, so many, of which something is to come, into memory of an image's lengths full
// of other things; counts it, and leaves what is loaded, and the map of that.
fn into(
    report: &mut Report<Tally>,
    image: &mut Image,
    file: &Output,
    n: usize,
    due: Due,
    map: &mut PlainMap,
) -> io::Result<()> {
    image.spoil(numbers::mixed(n, due.number()));
    let round = sequences::as_due(
        rounds::loading::made(image, file.get(..n).unwrap_or(file), map),
        due,
    );
    report.count(Call::Load, b"", round, map.held())
}

// Loads a file of so many bytes, of which something is to come; the image stays.
pub fn tried(
    report: &mut Report<Tally>,
    image: &Image,
    file: &Output,
    n: usize,
    due: Due,
) -> io::Result<()> {
    let mut copy = *image;
    let mut map = PlainMap::new(0, 0);
    into(report, &mut copy, file, n, due, &mut map)
}

// Loads the file of a table, then of its bytes one less, one more, far more, and none.
pub fn at_edge(report: &mut Report<Tally>, image: &Image, map: &PlainMap) -> io::Result<()> {
    saved(report, image, map)?;
    let mut file = outputs::fresh();
    let n = plainmap::files::write(&mut file, map);
    for &end in &lengths::outputs(n)[1..] {
        // What refuses a file cut short or followed by other bytes.
        let refusal = if end < n {
            Refusal::BrokenFile
        } else {
            Refusal::BytesAfter
        };
        tried(report, image, &file, end, Due::Refused(refusal))?;
    }
    Ok(())
}

// The groups of texts on memory that is not sound, and on memory of other lengths.
use crate::tallies::Tally;
use crate::{starts, takings, tallies};
use images::memory::Image;
use images::outputs;
use plainmap::PlainMap;
use plans::changes::Kind;
use plans::lengths::Pair;
use reports::Report;
use samples::numbers;
use sheets::written::Group;
use sheets::{Sheet, written};
use std::io;
use std::io::Stdout;

// The changes of each kind.
const TIMES: usize = 5;

// Takes texts on a table that is changed in each way, where it is not sound then.
pub fn run(out: Stdout, image: &mut Image, map: &mut PlainMap) -> io::Result<()> {
    starts::prepare(image, map, Group::NotSound);
    let mut report = Report::<Tally>::new(out);
    let mut seed = numbers::SEED;
    for kind in Kind::ALL {
        for _ in 0..TIMES {
            seed = numbers::next(seed);
            let mut copy = *image;
            kind.make(image, &mut copy, seed);
            report.tally.changes.add(1);
            if audits::sound::is_sound(&copy) {
                report.tally.sound.add(1);
            } else {
                take_all(&mut report, &copy, map, false)?;
            }
        }
    }
    tallies::print(&mut report, "damaged")
}

// Takes the texts for memory that is not sound; where they are for other memory, without what is written by them.
fn take_all(
    report: &mut Report<Tally>,
    image: &Image,
    map: &PlainMap,
    other: bool,
) -> io::Result<()> {
    let mut text = outputs::fresh();
    for i in 0..written::TEXTS {
        if let Some(sheet) = Group::NotSound.write(&mut text, i, 0) {
            let sheet = if other {
                Sheet::any(sheet.bytes)
            } else {
                sheet
            };
            takings::tried(report, image, map, &text, sheet)?;
        }
    }
    Ok(())
}

// Takes the same texts on memory of each pair of lengths.
pub fn run_lent(out: Stdout, image: &mut Image, map: &mut PlainMap) -> io::Result<()> {
    starts::prepare(image, map, Group::NotSound);
    let mut report = Report::<Tally>::new(out);
    for pair in Pair::ALL {
        let mut copy = *image;
        pair.lend(&mut copy);
        if !copy.is_page() {
            report.tally.changes.add(1);
            take_all(&mut report, &copy, map, true)?;
        }
    }
    tallies::print(&mut report, "other lengths")
}

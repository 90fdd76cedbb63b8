// The saves: after calls on sound tables, on damaged memory, and on memory of other lengths. The hub's index alone has
// them.
use comparisons::saves;
use images::memory::Image;
use plainmap::{PlainMap, files};
use plans::lengths;
use plans::lengths::Pair;
use reports::tallies::{Group, Tally};
use reports::{Report, Round};
use samples::calls::Call;
use samples::numbers;
use samples::shapes::Shape;
use std::io;
use std::io::Stdout;

// One of so many calls on a sound table has a save after it.
const EVERY: usize = 16;

// Makes a save after call `i` of a sequence, where it is its turn.
pub fn after(
    report: &mut Report<Tally>,
    image: &Image,
    map: &PlainMap,
    i: usize,
) -> io::Result<()> {
    if image.is_page() || i % EVERY != EVERY - 1 {
        return Ok(());
    }
    in_turn(report, image, map, i / EVERY)
}

// Makes a save of changed memory, and counts the change.
pub fn on_damaged(report: &mut Report<Tally>, image: &Image, seed: u64) -> io::Result<()> {
    if image.is_page() {
        return Ok(());
    }
    let map = saves::map_of(image);
    // The call's number is part of the seed: the inputs may not change.
    let draw = numbers::mixed_seed(seed, Call::Save as usize);
    report.tally.changes.add(1);
    in_turn(report, image, &map, numbers::below(draw, lengths::TURNS))
}

// Makes a save into as many bytes as the map's file has, one less, one more, or all, in turn.
fn in_turn(
    report: &mut Report<Tally>,
    image: &Image,
    map: &PlainMap,
    turn: usize,
) -> io::Result<()> {
    let room = lengths::output_in_turn(turn, files::length(map));
    count(report, rounds::saving::made(image, map, room))
}

// Counts a save, which moves no count of labels.
pub fn count(report: &mut Report<Tally>, round: Round) -> io::Result<()> {
    report.count(Call::Save, b"", round, 0)
}

// Makes saves of memory of each pair of lengths, into outputs of each length, and prints their line.
pub fn run_lent(out: Stdout, image: &Image) -> io::Result<()> {
    let map = saves::map_of(image);
    let mut report = Report::<Tally>::new(out);
    for pair in Pair::ALL {
        let mut copy = *image;
        pair.lend(&mut copy);
        if !copy.is_page() {
            for room in lengths::outputs(files::length(&map)) {
                report.tally.changes.add_if(copy != *image);
                count(&mut report, rounds::saving::made(&copy, &map, room))?;
            }
        }
    }
    report.print_refused_saves(Group {
        page: image.is_page(),
        shape: Shape::Roster,
        name: "other lengths",
    })
}

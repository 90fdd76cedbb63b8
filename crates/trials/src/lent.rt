// The group of calls on memory of other lengths, and of listings into lists of other lengths.
use crate::damage;
use crate::probes::Probe;
use comparisons::Request;
use images::memory::{Head, Image};
use plans::lengths;
use plans::lengths::Pair;
use plans::planned::Due;
use reports::Report;
use reports::tallies::{Group, Tally};
use samples::calls::Call;
use samples::numbers;
use samples::shapes::Shape;
use std::io;
use std::io::Stdout;

// A slot in use: the roster's second label.
const SLOT: usize = 2;

pub fn run(out: Stdout, image: &Image) -> io::Result<()> {
    let mut report = Report::new(out);
    let mut first = 0usize;
    for n in lengths::labels(image.sizes.width) {
        for pair in Pair::ALL {
            lend(&mut report, image, pair, n, first)?;
            first = first.wrapping_add(Probe::ALL.len());
        }
    }
    for room in lengths::rooms(image.head(Head::Held)) {
        list(&mut report, image, room)?;
    }
    report.print_lent(Group {
        page: image.is_page(),
        shape: Shape::Roster,
        name: "other lengths",
    })
}

// All calls on memory of a pair of lengths, with a label of so many bytes; so many calls came before.
fn lend(
    report: &mut Report<Tally>,
    image: &Image,
    pair: Pair,
    n: usize,
    before: usize,
) -> io::Result<()> {
    let mut copy = *image;
    pair.lend(&mut copy);
    let label = [b'h'; 66];
    for (k, probe) in Probe::ALL.iter().enumerate() {
        if probe.fits(&copy) {
            let seed = numbers::mixed_seed(numbers::SEED, before.wrapping_add(k));
            let draw = numbers::mixed_seed(seed, k);
            let request = probe.request(&label[..n.min(66)], SLOT, draw);
            report.tally.changes.add_if(copy != *image);
            damage::tried(report, &copy, request, Due::Judged)?;
        }
    }
    Ok(())
}

// A listing into a list of a length.
fn list(report: &mut Report<Tally>, image: &Image, room: usize) -> io::Result<()> {
    let mut copy = *image;
    copy.lent.room = room;
    report.tally.changes.add_if(copy != *image);
    damage::tried(report, &copy, Request::bare(Call::Listing), Due::Judged)
}

// The groups of calls on damaged memory: sound tables with words, bytes, rows or links changed.
use crate::probes::Probe;
use crate::{saving, sequences};
use comparisons::Request;
use images::memory::Image;
use plans::changes;
use plans::changes::Kind;
use plans::planned::Due;
use reports::Report;
use reports::tallies::{Group, Tally};
use samples::numbers;
use samples::shapes::{Label, Shape};
use std::io;
use std::io::Stdout;

// Makes the changes of each kind on a table of a shape, and prints a line for each, and for the saves of all.
pub fn run(out: Stdout, image: &Image, shape: Shape) -> io::Result<()> {
    let mut saves = Report::new(out);
    for kind in Kind::ALL {
        let n = kind.times(shape);
        if n > 0 {
            let mut report = Report::new(out);
            change_all(&mut report, &mut saves, image, shape, kind, n)?;
            report.print_damage(Group {
                page: image.is_page(),
                shape,
                name: kind.name(),
            })?;
        }
    }
    if !image.is_page() {
        saves.print_refused_saves(Group {
            page: false,
            shape,
            name: "damaged",
        })?;
    }
    Ok(())
}

fn change_all(
    report: &mut Report<Tally>,
    saves: &mut Report<Tally>,
    image: &Image,
    shape: Shape,
    kind: Kind,
    n: usize,
) -> io::Result<()> {
    let mut seed = numbers::SEED;
    for _ in 0..n {
        seed = numbers::next(seed);
        change(report, saves, image, shape, kind, seed)?;
    }
    Ok(())
}

// Draws a change until it is one, at most 20 times, and makes every call on what it leaves.
fn change(
    report: &mut Report<Tally>,
    saves: &mut Report<Tally>,
    image: &Image,
    shape: Shape,
    kind: Kind,
    seed: u64,
) -> io::Result<()> {
    let mut draw = seed;
    for _ in 0..20 {
        let mut copy = *image;
        if kind.make(image, &mut copy, draw) {
            saving::on_damaged(saves, &copy, draw)?;
            return call_all(report, &copy, shape, kind, draw);
        }
        draw = numbers::next(draw);
    }
    Ok(())
}

// Makes every call but a save on changed memory, with a label and a slot.
fn call_all(
    report: &mut Report<Tally>,
    image: &Image,
    shape: Shape,
    kind: Kind,
    seed: u64,
) -> io::Result<()> {
    report.tally.changes.add(1);
    report.tally.sound.add_if(audits::sound::is_sound(image));
    let label = label_of(image.sizes.width, shape, kind, seed);
    let slots = image.sizes.slots.wrapping_add(8);
    let slot = numbers::below(numbers::next(seed), slots.min(80));
    for (k, probe) in Probe::ALL.iter().enumerate() {
        if probe.fits(image) {
            let draw = numbers::mixed_seed(seed, k);
            let request = probe.request(label.as_slice(), slot, draw);
            tried(report, image, request, Due::Judged)?;
        }
    }
    Ok(())
}

// A label of the shape, and for an old table one that fits it.
fn label_of(width: usize, shape: Shape, kind: Kind, seed: u64) -> Label {
    if kind == Kind::Old {
        return old_label(width, shape, seed);
    }
    shape.label(width, numbers::below(seed, 80))
}

// Three times of four a label that the table may hold, else any of letters.
fn old_label(width: usize, shape: Shape, seed: u64) -> Label {
    // The kind's number is part of the seed: the inputs may not change.
    let draw = numbers::mixed_seed(seed, Kind::Old as usize);
    let k = numbers::below(draw, 80);
    if numbers::below(numbers::next(draw), 4) == 0 {
        return Shape::Letters.label(width, k);
    }
    changes::old_label(&shape.label(width, k), seed)
}

// Makes a call of which something is to come, and counts it.
pub fn tried(
    report: &mut Report<Tally>,
    image: &Image,
    request: Request,
    due: Due,
) -> io::Result<()> {
    let round = sequences::as_due(rounds::tried(image, request), due);
    report.count_tried(request.call, request.label, round)
}

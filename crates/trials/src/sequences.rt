// The groups of calls on sound tables, made and counted, and of the hub's with saves and loads among them.
use crate::{loading, saving};
use comparisons::Request;
use images::memory::Image;
use plainmap::PlainMap;
use plans::groups::Plan;
use plans::planned::{Due, Planned};
use reports::faults::Fault;
use reports::tallies::{Group, Tally};
use reports::{Report, Round};
use samples::calls::Call;
use samples::numbers;
use std::io;
use std::io::Stdout;

// Makes a group's calls on an empty index and map, and prints its line.
pub fn run(out: Stdout, image: &mut Image, map: &mut PlainMap, plan: Plan) -> io::Result<()> {
    empty(image, map);
    let mut report = Report::new(out);
    let mut saves = Report::new(out);
    let mut loads = Report::new(out);
    let mut seed = numbers::SEED;
    for i in 0..plan.calls() {
        seed = numbers::next(seed);
        call(&mut report, image, map, plan.call(i, seed))?;
        seed = numbers::next(seed);
        saving::after(&mut saves, image, map, i)?;
        loading::after(&mut loads, image, map, i)?;
    }
    let group = Group {
        page: image.is_page(),
        shape: plan.shape,
        name: plan.way.name(),
    };
    report.print_sequence(group)?;
    if !image.is_page() {
        saves.print_saves(group)?;
        loads.print_loads(group)?;
    }
    Ok(())
}

// Empties an index and a map.
pub fn empty(image: &mut Image, map: &mut PlainMap) {
    // What is left is compared after the first call.
    let _ = rounds::calls::make(image, Request::bare(Call::Layout));
    *map = PlainMap::new(image.sizes.slots, image.sizes.width);
}

// Makes a call with its charge, or with a value after so many inserts.
fn call(
    report: &mut Report<Tally>,
    image: &mut Image,
    map: &mut PlainMap,
    planned: Planned,
) -> io::Result<()> {
    let number = match planned.charge {
        Some(charge) => charge,
        None => usize::from(numbers::value(planned.label, report.tally.inserted.number())),
    };
    numbered(report, image, map, planned, number)
}

// Makes a call with a value or a charge, and counts it.
pub fn numbered(
    report: &mut Report<Tally>,
    image: &mut Image,
    map: &mut PlainMap,
    planned: Planned,
    number: usize,
) -> io::Result<()> {
    let label = planned.shape.label(image.sizes.width, planned.label);
    let request = Request {
        call: planned.call,
        label: label.as_slice(),
        number,
    };
    let round = as_due(rounds::made(image, map, request), planned.due);
    report.count(planned.call, label.as_slice(), round, map.held())
}

// A round of a call of which something was to come: where another thing did, that is its fault.
pub fn as_due(round: Round, due: Due) -> Round {
    match round.said {
        Ok(said) if !due.allows(said.refusal()) => Round {
            said: Err(Fault::Case),
            ..round
        },
        _ => round,
    }
}

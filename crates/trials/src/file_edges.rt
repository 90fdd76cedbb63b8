// The groups of saves of tables whose files are at an edge, each beside the number of bytes that its file is to have,
// and of loads of these files.
use crate::{loading, saving, sequences};
use images::memory::Image;
use images::outputs;
use images::packing::Answer;
use images::refusals::Refusal;
use plainmap::PlainMap;
use plans::files::{Edge, Group};
use plans::planned::{Due, Planned};
use plans::{files, lengths};
use reports::faults::Fault;
use reports::tallies::Tally;
use reports::{Report, Round, tallies};
use samples::calls::Call;
use samples::charges;
use std::io;
use std::io::Stdout;

// Makes the tables of each group, and prints two lines for each; the hub's index alone has them.
pub fn run(out: Stdout, image: &mut Image, map: &mut PlainMap) -> io::Result<()> {
    for group in Group::ALL {
        run_group(out, image, map, group)?;
    }
    Ok(())
}

fn run_group(out: Stdout, image: &mut Image, map: &mut PlainMap, group: Group) -> io::Result<()> {
    let mut saves = Report::new(out);
    let mut loads = Report::new(out);
    for i in 0..files::TABLES {
        if let Some(edge) = group.table(i) {
            make_table(&mut saves, image, map, edge)?;
            loading::at_edge(&mut loads, image, map)?;
        }
    }
    let line = tallies::Group {
        page: false,
        shape: group.shape(),
        name: group.name(),
    };
    saves.print_edge_saves(line)?;
    loads.print_edge_loads(line)
}

// Makes a table, and saves it into an output of each length.
fn make_table(
    report: &mut Report<Tally>,
    image: &mut Image,
    map: &mut PlainMap,
    edge: Edge,
) -> io::Result<()> {
    sequences::empty(image, map);
    call_each(report, image, map, Call::Insert, edge)?;
    match edge.then {
        None => {}
        Some(Call::SetCharge) => charge_each(report, image, map, edge)?,
        Some(call) => call_each(report, image, map, call, edge)?,
    }
    for room in lengths::outputs(edge.bytes) {
        let round = rounds::saving::made(image, map, room);
        saving::count(report, as_due(round, edge.bytes, room))?;
    }
    Ok(())
}

// Makes a call on each label of a table.
fn call_each(
    report: &mut Report<Tally>,
    image: &mut Image,
    map: &mut PlainMap,
    call: Call,
    edge: Edge,
) -> io::Result<()> {
    for k in 0..edge.labels {
        on_label(report, image, map, call, edge, k)?;
    }
    Ok(())
}

// Makes a call on label `k` of a table, with its value or a charge of its own, that is not to be refused.
fn on_label(
    report: &mut Report<Tally>,
    image: &mut Image,
    map: &mut PlainMap,
    call: Call,
    edge: Edge,
    k: usize,
) -> io::Result<()> {
    let number = if call == Call::SetCharge {
        charges::own(k)
    } else {
        usize::from(edge.value)
    };
    let planned = Planned::new(call, edge.shape, k, Due::Done);
    sequences::numbered(report, image, map, planned, number)
}

// Gives each label a charge, and saves the table after each: the output is as it was before all.
fn charge_each(
    report: &mut Report<Tally>,
    image: &mut Image,
    map: &mut PlainMap,
    edge: Edge,
) -> io::Result<()> {
    let mut before = outputs::fresh();
    let round = rounds::saving::into(image, map, &mut before, outputs::ALL);
    saving::count(report, round)?;
    for k in 0..edge.labels {
        on_label(report, image, map, Call::SetCharge, edge, k)?;
        saving::count(report, rounds::saving::again(image, map, &before))?;
    }
    Ok(())
}

// A save of a file of so many bytes: where it is not refused by 17, or does not write them, that is its fault.
fn as_due(round: Round, bytes: usize, room: usize) -> Round {
    if bytes > room {
        return sequences::as_due(round, Due::Refused(Refusal::ShortOutput));
    }
    match round.said {
        Ok(said) if said != Answer::Saved(bytes) => Round {
            said: Err(Fault::Written),
            ..round
        },
        _ => round,
    }
}

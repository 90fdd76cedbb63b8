// The groups of texts on sound tables.
use crate::tallies::Tally;
use crate::{starts, takings, tallies};
use images::memory::Image;
use images::outputs;
use images::outputs::Output;
use plainmap::PlainMap;
use plans::bytes;
use reports::Report;
use samples::numbers;
use sheets::names::{Step, Way};
use sheets::written::Group;
use sheets::{Sheet, names, written};
use std::io;
use std::io::Stdout;

// The bytes that a small text has less than.
const SMALL: usize = 100;

// Takes each text of a group that is written out, with each byte up to one at its place.
pub fn run_written(
    out: Stdout,
    image: &mut Image,
    map: &mut PlainMap,
    group: Group,
    last: u8,
) -> io::Result<()> {
    starts::prepare(image, map, group);
    let mut report = Report::new(out);
    let mut text = outputs::fresh();
    for i in 0..written::TEXTS {
        for byte in 0..=last {
            if let Some(sheet) = group.write(&mut text, i, byte) {
                takings::tried(&mut report, image, map, &text, sheet)?;
            }
        }
    }
    tallies::print(&mut report, group.title())
}

// Writes a small text; its bytes.
fn write_small(text: &mut Output, i: usize) -> usize {
    match Group::Small.write(text, i, 0) {
        Some(sheet) if sheet.bytes < SMALL => sheet.bytes,
        _ => 0,
    }
}

// Takes small texts, cut short at each byte.
pub fn run_cut(out: Stdout, image: &mut Image, map: &mut PlainMap) -> io::Result<()> {
    starts::prepare(image, map, Group::Small);
    let mut report = Report::new(out);
    let mut text = outputs::fresh();
    for i in 0..written::TEXTS {
        for end in 0..write_small(&mut text, i) {
            takings::tried(&mut report, image, map, &text, Sheet::any(end))?;
        }
    }
    tallies::print(&mut report, "cut short")
}

// Takes small texts, with each byte changed in each way, and to each of those that matter.
pub fn run_changed(out: Stdout, image: &mut Image, map: &mut PlainMap) -> io::Result<()> {
    starts::prepare(image, map, Group::Small);
    let mut report = Report::new(out);
    let mut text = outputs::fresh();
    for i in 0..written::TEXTS {
        let n = write_small(&mut text, i);
        for (at, &found) in text.iter().enumerate().take(n) {
            for way in bytes::Way::ALL {
                let byte = way.changed(found, at);
                take_changed(&mut report, image, map, &text, n, at, byte)?;
            }
            for &byte in b"\",\r\n" {
                take_changed(&mut report, image, map, &text, n, at, byte)?;
            }
        }
    }
    tallies::print(&mut report, "one byte changed")
}

// Takes a text of so many bytes, one of them another.
fn take_changed(
    report: &mut Report<Tally>,
    image: &Image,
    map: &PlainMap,
    text: &Output,
    n: usize,
    at: usize,
    byte: u8,
) -> io::Result<()> {
    let mut copy = *text;
    if let Some(place) = copy.get_mut(at) {
        *place = byte;
    }
    takings::tried(report, image, map, &copy, Sheet::any(n))
}

// Takes texts of many names, one after the other, with deletes among them.
pub fn run_names(out: Stdout, image: &mut Image, map: &mut PlainMap) -> io::Result<()> {
    let mut report = Report::<Tally>::new(out);
    for step in names::steps() {
        match step.way {
            Way::Deleted => {
                let done = starts::free(image, map, step);
                report.tally.mismatches.add_if(!done);
            }
            Way::OnTop => take_names(&mut report, image, map, step)?,
            Way::OnEmpty => {
                starts::empty(image, map);
                take_names(&mut report, image, map, step)?;
            }
        }
    }
    tallies::print(&mut report, "many names")
}

fn take_names(
    report: &mut Report<Tally>,
    image: &mut Image,
    map: &mut PlainMap,
    step: Step,
) -> io::Result<()> {
    let mut text = outputs::fresh();
    let sheet = step.write(&mut text);
    takings::made(report, image, map, &text, sheet)
}

// How many texts are drawn, and how many of them are taken by one table.
const DRAWN: usize = 3000;

const BY_ONE: usize = 40;

// Takes drawn texts one after the other, as they are written, with the table emptied now and then.
pub fn run_drawn<F: Fn(&mut Output, u64) -> Sheet>(
    out: Stdout,
    image: &mut Image,
    map: &mut PlainMap,
    title: &str,
    write: F,
) -> io::Result<()>
    requires { F.IsAlwaysCallable write }
{
    let mut report = Report::new(out);
    let mut seed = numbers::SEED;
    for i in 0..DRAWN {
        if i % BY_ONE == 0 {
            starts::empty(image, map);
        }
        seed = numbers::next(seed);
        let mut text = outputs::fresh();
        let sheet = write(&mut text, seed);
        takings::made(&mut report, image, map, &text, sheet)?;
    }
    tallies::print(&mut report, title)
}

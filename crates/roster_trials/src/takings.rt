// Takings of a roster, each compared with the text read apart.
use crate::tallies::Tally;
use crate::{calls, tallies};
use comparisons::Request;
use images::memory::Image;
use images::outputs::Output;
use images::packing::Answer;
use plainmap::PlainMap;
use readings::{machine, values};
use reports::Report;
use reports::faults::{Fault, ensure};
use rounds::states;
use samples::calls::Call;
use sheets::{Due, Sheet};
use std::io;

// Takes a text, and compares the answer and what is left, past the lengths lent too; counts it.
pub fn made(
    report: &mut Report<Tally>,
    image: &mut Image,
    map: &mut PlainMap,
    text: &Output,
    sheet: Sheet,
) -> io::Result<()> {
    let text = text.get(..sheet.bytes).unwrap_or(text);
    let found = *image;
    let due = readings::judge(image, text, map);
    let said = calls::take(image, text);
    match compare(&found, image, map, text, sheet, due, said) {
        Ok(answer) => {
            report.tally.count(answer);
            Ok(())
        }
        Err(fault) => {
            report.tally.count_mismatch(Answer::try_from(said).ok());
            tallies::print_mismatch(report, text, due, said, fault)
        }
    }
}

// The same on a copy of the memory and the map.
pub fn tried(
    report: &mut Report<Tally>,
    image: &Image,
    map: &PlainMap,
    text: &Output,
    sheet: Sheet,
) -> io::Result<()> {
    let mut copy = *image;
    let mut other = *map;
    made(report, &mut copy, &mut other, text, sheet)
}

// Compares an answer with the one that is due, and with what is written by the text; then what is left.
fn compare(
    found: &Image,
    left: &Image,
    map: &PlainMap,
    text: &[u8],
    sheet: Sheet,
    due: Answer,
    said: usize,
) -> Result<Answer, Fault> {
    ensure(said == usize::from(due), Fault::Answer)?;
    ensure(is_due(sheet, due), Fault::Sheet)?;
    compare_left(found, left, map, text, entered(due))?;
    Ok(due)
}

// Whether an answer is what is written by the text.
fn is_due(sheet: Sheet, answer: Answer) -> bool {
    match (sheet.due, answer) {
        (None, _) => true,
        (Some(Due::Taken(records)), Answer::Taken(n)) => n == records,
        (Some(Due::Refused(number, why)), Answer::Refused { refusal, record }) => {
            record == number && refusal == why
        }
        _ => false,
    }
}

// How many records went in, by the answer: all, or those before the one that is refused.
pub fn entered(answer: Answer) -> usize {
    match answer {
        Answer::Taken(records) => records,
        Answer::Refused { record, .. } => record.saturating_sub(1),
        _ => 0,
    }
}

// Compares what is left with what the public inserts of the records that went in leave, then with the map.
fn compare_left(
    found: &Image,
    left: &Image,
    map: &PlainMap,
    text: &[u8],
    records: usize,
) -> Result<(), Fault> {
    let mut due = *found;
    ensure(insert_each(&mut due, text, records), Fault::Inserts)?;
    ensure(due == *left, Fault::Memory)?;
    if records == 0 {
        return Ok(());
    }
    states::compare_map(left, map)
}

// Whether a call is done for each of the first records of a text, so many, with its label and its value; none is left
// out.
fn each<F: FnMut(&[u8], usize) -> bool>(text: &[u8], records: usize, mut call: F) -> bool
    requires { F.IsAlwaysCallable call }
{
    let mut at = 0;
    let mut done = true;
    for _ in 0..records {
        let read = machine::read(text, at);
        let value = values::value(text, &read).map_or(0, usize::from);
        done = call(read.label.as_slice(), value) && done;
        at = read.end;
    }
    done
}

// Makes the public insert of each of the first records of a text, so many, on an image's memory; whether none is
// refused.
pub fn insert_each(image: &mut Image, text: &[u8], records: usize) -> bool {
    each(text, records, |label, number| {
        let request = Request {
            call: Call::Insert,
            label,
            number,
        };
        matches!(
            rounds::calls::make(image, request),
            Ok(Answer::Updated { .. })
        )
    })
}

// Makes the public delete of each, on the map too; whether none is refused and all agree.
pub fn delete_each(image: &mut Image, map: &mut PlainMap, text: &[u8], records: usize) -> bool {
    each(text, records, |label, _| {
        let request = Request {
            call: Call::Delete,
            label,
            number: 0,
        };
        matches!(
            rounds::made(image, map, request).said,
            Ok(Answer::Updated { .. })
        )
    })
}

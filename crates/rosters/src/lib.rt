// Taking a roster within any limits: its records are read and inserted one after the other, up to the first that is
// refused. Table and store are tested once, after the first record's own tests. A refused record has changed nothing;
// those before it stay in. The lent parts are passed one by one, as the calls below take them.
#![tactic(auto)]

ghost use Rattle.std.specs.Prelude.{◌≡◌};
ghost use Rattle.types.specs.Answers.{update_says};
ghost use Rattle.types.specs.RosterReplies.{roster_says};
ghost use Rattle.tables.specs.Written.{lent};
ghost use Rattle.tables.specs.Outcomes.{pass, of_memory, of_table, insert_outcome};
ghost use Rattle.tables.specs.Given.{Gives};
ghost use Rattle.words.specs.Limits.{LimitsFit, SizesFit};
ghost use Rattle.lengths.specs.Tests.{test_says};
ghost use Rattle.rfc4180.specs.Records.{take_record, records_of};
ghost use Rattle.rfc4180.specs.Rosters.{roster_from, of_text, roster_outcome, TakesRoster};
ghost use Rattle.records.specs.Contents.{content_of};
ghost use Rattle.rosters.specs.Inserted.{of_record, RecordRead, FirstInserted};
ghost use Rattle.rosters.specs.Inserted.{LabelReady, RosterReady, RosterFits, SizesReady};

use records::{Content, Record};
use types::{Limits, Refusal, RefusedRecord, Updated};

// The longest text that is taken.
const LONGEST_TEXT: usize = 16384;

// Inserts a label that stands in the text into a sound table; one in which quotes stand doubled is gathered first.
#[tactic(auto, using(crate::proofs::LabelLaws::label_laws))]
fn insert_label(
    limits: Limits,
    table: &mut [u16],
    store: &mut [u8],
    label: Content<'_>,
    value: u16,
    buffer: &mut [u8],
) -> Result<Updated, Refusal>
    requires { LabelReady limits table.old store.old label buffer.old }
    ensures { Gives (insert_outcome limits table.old store.old (content_of label.entry) value)
        (update_says result) table.new store.new }
{
    if label.len == label.part.len() {
        return inserts::insert_ready(limits, table, store, label.part, value);
    }
    records::quotes::gather(label.part, buffer);
    inserts::insert_ready(limits, table, store, &buffer[..label.len], value)
}

// The record at the front of a text, refused by 13 where it is not whole, then by 3 and 4 by its label's length.
#[tactic(auto, using(crate::proofs::RefusalLaws::record_laws))]
fn record_of(limits: Limits, text: &[u8]) -> Result<Record<'_>, Refusal>
    ensures { RecordRead limits text.now result }
{
    let record = records::take(text).ok_or(Refusal::BrokenRecord)?;
    lengths::of_length(limits, record.label.len)?;
    Ok(record)
}

// Inserts the record at the front of a text into a sound table, and gives the text after it. Refused by 13, 3, 4, then 7
// before 9.
#[tactic(auto, using(crate::proofs::RefusalLaws::insert_laws))]
fn insert_first<'a>(
    limits: Limits,
    table: &mut [u16],
    store: &mut [u8],
    text: &'a [u8],
    buffer: &mut [u8],
) -> Result<&'a [u8], Refusal>
    requires { RosterReady limits table.old store.old buffer.old }
    ensures { FirstInserted limits table.old store.old text.now result table.new store.new }
{
    let record = record_of(limits, text)?;
    insert_label(limits, table, store, record.label, record.value, buffer)?;
    Ok(record.rest)
}

// Inserts the records of a text into a sound table, up to the first that is refused.
#[tactic(auto, using(crate::proofs::EnteringLaws::entering_laws))]
fn insert_records(
    limits: Limits,
    table: &mut [u16],
    store: &mut [u8],
    text: &[u8],
    buffer: &mut [u8],
) -> Result<usize, RefusedRecord>
    requires { RosterReady limits table.old store.old buffer.old }
    ensures { TakesRoster
        (roster_from limits 0 (records_of text.now) (lent table.old store.old))
        (roster_says result) table.new store.new }
{
    // No iterator: where a record ends is known by its insert, and the first refusal ends the loop with its number.
    let mut rest = text;
    let mut count = 0;
    while !rest.is_empty() {
        match insert_first(limits, table, store, rest, buffer) {
            Ok(after) => rest = after,
            Err(refusal) => {
                return Err(RefusedRecord {
                    number: count + 1,
                    refusal,
                });
            }
        }
        count += 1;
    }
    Ok(count)
}

// The refusals of a first record before its insert: 13, 3, 4, then 6 where the table is not sound.
#[tactic(auto, using(crate::proofs::RefusalLaws::first_laws))]
fn first_refusal(limits: Limits, table: &[u16], store: &[u8], text: &[u8]) -> Result<(), Refusal>
    requires { SizesFit limits table.now store.now }
    ensures { test_says result
        ≡ of_record limits (take_record text.now)
        (of_table limits table.now store.now pass) }
{
    record_of(limits, text)?;
    verdicts::of_table(limits, table, store)
}

// Takes the records of a text into a table and a store of the right lengths. Without a record nothing is tested.
#[tactic(auto, using(crate::proofs::RosterLaws::text_laws))]
fn take_records(
    limits: Limits,
    table: &mut [u16],
    store: &mut [u8],
    text: &[u8],
    buffer: &mut [u8],
) -> Result<usize, RefusedRecord>
    requires { SizesReady limits table.old store.old buffer.old }
    ensures { TakesRoster
        (roster_from limits 0 (records_of text.now) (lent table.old store.old))
        (roster_says result) table.new store.new }
{
    if text.is_empty() {
        return Ok(0);
    }
    if let Err(refusal) = first_refusal(limits, table, store, text) {
        return Err(RefusedRecord { number: 1, refusal });
    }
    insert_records(limits, table, store, text, buffer)
}

// The refusals that name no record: by 1 and 2, then by 12 where the text is too long.
#[tactic(auto, using(crate::proofs::RosterLaws::early_laws))]
fn early_refusal(limits: Limits, table: &[u16], store: &[u8], text: &[u8]) -> Result<(), Refusal>
    requires { LimitsFit limits }
    ensures { test_says result
        ≡ of_memory limits table.now store.now (of_text text.now pass) }
{
    lengths::of_memory(limits, table, store)?;
    if LONGEST_TEXT < text.len() {
        return Err(Refusal::LongText);
    }
    Ok(())
}

// Takes a roster: its records go in one after the other. Refused by 1, 2 and 12 at record 0, then at a record by 13, 3,
// 4, 6, 7 and 9. The buffer, for a label in which quotes stand doubled, is as wide as a label may be.
#[tactic(auto, using(crate::proofs::RosterLaws::roster_laws))]
pub fn roster_within(
    limits: Limits,
    table: &mut [u16],
    store: &mut [u8],
    text: &[u8],
    buffer: &mut [u8],
) -> Result<usize, RefusedRecord>
    requires { RosterFits limits buffer.old }
    ensures { TakesRoster (roster_outcome limits table.old store.old text.now)
        (roster_says result) table.new store.new }
{
    if let Err(refusal) = early_refusal(limits, table, store, text) {
        return Err(RefusedRecord { number: 0, refusal });
    }
    take_records(limits, table, store, text, buffer)
}

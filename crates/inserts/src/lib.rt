// Insert within any limits: the refusals, one search, and the update of words and bytes.
// A refused call has changed nothing.
#![tactic(auto)]

ghost use Rattle.types.specs.Answers.{update_says};
ghost use Rattle.tables.specs.Outcomes.{insert_outcome};
ghost use Rattle.tables.specs.Given.{Gives};
ghost use Rattle.endings.specs.Ready.{EditsFit, Ready};

use types::{Limits, Refusal, Updated};

// Inserts into a sound table: refused by 7 where the label is held, by 9 where the table is full.
pub fn insert_ready(
    limits: Limits,
    table: &mut [u16],
    store: &mut [u8],
    label: &[u8],
    value: u16,
) -> Result<Updated, Refusal>
    requires { Ready limits table.old store.old label.now }
    ensures { Gives (insert_outcome limits table.old store.old label.now value)
        (update_says result) table.new store.new }
{
    let trace = traces::tracing::trace(limits, table, store, label);
    if trace.found != 0 {
        return Err(Refusal::AlreadyHeld);
    }
    let held = words::total::word(table, 1) as usize;
    if limits.slots <= held {
        return Err(Refusal::Full);
    }
    let slot = insertions::insert_entry(limits, table, store, label, value, trace) as usize;
    Ok(Updated {
        slot,
        visits: trace.visits,
        places: trace.places,
    })
}

// Inserts a label with its value. Refused by 1, 2, 3, 4, 6, then 7 before 9.
pub fn insert_within(
    limits: Limits,
    table: &mut [u16],
    store: &mut [u8],
    label: &[u8],
    value: u16,
) -> Result<Updated, Refusal>
    requires { EditsFit limits }
    ensures { Gives (insert_outcome limits table.old store.old label.now value)
        (update_says result) table.new store.new }
{
    verdicts::labelled::first_refusal(limits, table, store, label)?;
    insert_ready(limits, table, store, label, value)
}

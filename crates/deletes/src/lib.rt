// Delete within any limits: the refusals, one search, and the update of words and bytes.
// A refused call has changed nothing.
#![tactic(auto)]

ghost use Rattle.types.specs.Answers.{update_says};
ghost use Rattle.tables.specs.Outcomes.{delete_outcome};
ghost use Rattle.tables.specs.Given.{Gives};
ghost use Rattle.endings.specs.Ready.{EditsFit, Ready};

use types::{Limits, Refusal, Updated};

// Deletes from a sound table: refused by 8 where the label is not held.
fn delete_ready(
    limits: Limits,
    table: &mut [u16],
    store: &mut [u8],
    label: &[u8],
) -> Result<Updated, Refusal>
    requires { Ready limits table.old store.old label.now }
    ensures { Gives (delete_outcome limits table.old store.old label.now)
        (update_says result) table.new store.new }
{
    let trace = traces::tracing::trace(limits, table, store, label);
    if trace.found == 0 {
        return Err(Refusal::NotHeld);
    }
    deletions::delete_entry(limits, table, store, trace);
    let slot = trace.found as usize;
    Ok(Updated {
        slot,
        visits: trace.visits,
        places: trace.places,
    })
}

// Deletes a label. Refused by 1, 2, 3, 4, 6 and 8.
pub fn delete_within(
    limits: Limits,
    table: &mut [u16],
    store: &mut [u8],
    label: &[u8],
) -> Result<Updated, Refusal>
    requires { EditsFit limits }
    ensures { Gives (delete_outcome limits table.old store.old label.now)
        (update_says result) table.new store.new }
{
    verdicts::labelled::first_refusal(limits, table, store, label)?;
    delete_ready(limits, table, store, label)
}

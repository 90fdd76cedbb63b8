// The call that sets a strap's charge, within any limits: the refusals, one search, and the store of one word.
// A refused call has changed nothing.
#![tactic(auto)]

ghost use Rattle.std.specs.Prelude.{true, ◌≡◌};
ghost use Rattle.types.specs.Answers.{update_says};
ghost use Rattle.trees.specs.Charges.{is_charge};
ghost use Rattle.tables.specs.Outcomes.{charge_outcome};
ghost use Rattle.tables.specs.Given.{Gives};
ghost use Rattle.words.specs.Limits.{LimitsFit};
ghost use Rattle.lengths.specs.Tests.{test_says};
ghost use Rattle.endings.specs.Ready.{EditsFit, Ready};
ghost use Rattle.charges.specs.Verdicts.{charge_verdict};

use types::{Limits, Refusal, Updated};

// The first refusal, in the order of the table: lent memory, label, charge, whole table.
fn first_refusal(
    limits: Limits,
    table: &[u16],
    store: &[u8],
    label: &[u8],
    charge: u16,
) -> Result<(), Refusal>
    requires { LimitsFit limits }
    ensures { test_says result
        ≡ charge_verdict limits table.now store.now label.now charge }
{
    lengths::with_label(limits, table, store, label)?;
    if !words::charge::is_charge(charge) {
        return Err(Refusal::WrongCharge);
    }
    verdicts::of_table(limits, table, store)
}

// Sets the charge in a sound table: refused by 8 where the label is not held.
fn charge_ready(
    limits: Limits,
    table: &mut [u16],
    store: &[u8],
    label: &[u8],
    charge: u16,
) -> Result<Updated, Refusal>
    requires ready { Ready limits table.old store.now label.now }
    requires charge_value { is_charge charge ≡ true }
    ensures { Gives (charge_outcome limits table.old store.now label.now charge)
        (update_says result) table.new store.now }
{
    let trace = traces::tracing::trace(limits, table, store, label);
    if trace.found == 0 {
        return Err(Refusal::NotHeld);
    }
    words::charge::put_charge(table, trace.found, charge);
    let slot = trace.found as usize;
    Ok(Updated {
        slot,
        visits: trace.visits,
        places: trace.places,
    })
}

// Sets the charge of a label. Refused by 1, 2, 3, 4, 24, 6 and 8.
pub fn charge_within(
    limits: Limits,
    table: &mut [u16],
    store: &[u8],
    label: &[u8],
    charge: u16,
) -> Result<Updated, Refusal>
    requires { EditsFit limits }
    ensures { Gives (charge_outcome limits table.old store.now label.now charge)
        (update_says result) table.new store.now }
{
    first_refusal(limits, table, store, label, charge)?;
    charge_ready(limits, table, store, label, charge)
}

// Refusals by lengths, in the order of the table of refusals: of the lent memory for all calls, of the label for those
// that are given one.
#![tactic(auto)]

ghost use Rattle.std.specs.Prelude.{◌≡◌};
ghost use Rattle.tables.specs.Outcomes.{pass, of_memory, of_length, of_label};
ghost use Rattle.words.specs.Limits.{LimitsFit};
ghost use Rattle.lengths.specs.Tests.{test_says};

use types::{Limits, Refusal};

// Refuses a table of another length by 1, and a store of another length by 2.
pub fn of_memory(limits: Limits, table: &[u16], store: &[u8]) -> Result<(), Refusal>
    requires { LimitsFit limits }
    ensures { test_says result ≡ of_memory limits table.now store.now pass }
{
    let table_len = 4 + 8 * limits.slots;
    let store_len = limits.slots * limits.width;
    if table.len() != table_len {
        return Err(Refusal::WrongTable);
    }
    if store.len() != store_len {
        return Err(Refusal::WrongStore);
    }
    Ok(())
}

// Refuses besides an empty label by 3, and one that is too long by 4.
pub fn with_label(limits: Limits, table: &[u16], store: &[u8], label: &[u8]) -> Result<(), Refusal>
    requires { LimitsFit limits }
    ensures { test_says result
        ≡ of_memory limits table.now store.now (of_label limits label.now pass) }
{
    of_memory(limits, table, store)?;
    // Not by `of_length`: a call that answers first costs each search five instructions more.
    if label.is_empty() {
        return Err(Refusal::EmptyLabel);
    }
    if limits.width < label.len() {
        return Err(Refusal::LongLabel);
    }
    Ok(())
}

// Refuses an empty label by 3, and one that is too long by 4, by its length.
pub fn of_length(limits: Limits, len: usize) -> Result<(), Refusal>
    ensures { test_says result ≡ of_length limits len pass }
{
    if len == 0 {
        return Err(Refusal::EmptyLabel);
    }
    if limits.width < len {
        return Err(Refusal::LongLabel);
    }
    Ok(())
}

// The label view of an index of any sizes, in two calls on equal inputs: one gives the refusal number or done,
// the other the part of the store.
#![tactic(auto)]

ghost use Rattle.std.specs.Prelude.{◌≡◌, length};
ghost use Rattle.types.specs.Sizes.{table_length};
ghost use Rattle.types.specs.Answers.{done, done_says};
ghost use Rattle.tables.specs.Outcomes.{pass, answer_by, of_slot, view_outcome};
ghost use Rattle.words.specs.Limits.{LimitsFit};
ghost use Rattle.views.specs.Parts.{Views};

use types::{Limits, Refusal};

// Whether a slot is refused by 11: it is 0 or too high, or its length is.
fn slot_check(limits: Limits, table: &[u16], slot: usize) -> Result<(), Refusal>
    requires { length table.now ≡ table_length limits }
    ensures { done_says result ≡ answer_by (of_slot limits table.now slot pass) done }
{
    if slot == 0 || limits.slots < slot {
        return Err(Refusal::WrongSlot);
    }
    let len = words::read_row(table, slot).len;
    if len == 0 || limits.width < len as usize {
        return Err(Refusal::WrongSlot);
    }
    Ok(())
}

// Whether the view of a slot is refused: by 1 and 2, or by 11.
pub fn view_check_within(
    limits: Limits,
    table: &[u16],
    store: &[u8],
    slot: usize,
) -> Result<(), Refusal>
    requires { LimitsFit limits }
    ensures { done_says result ≡ view_outcome limits table.now store.now slot }
{
    lengths::of_memory(limits, table, store)?;
    slot_check(limits, table, slot)
}

// The part of the lent store that holds the label of a slot;
// where the first call refuses, the empty part at the store's start.
pub fn view_within<'a>(limits: Limits, table: &[u16], store: &'a [u8], slot: usize) -> &'a [u8]
    requires { LimitsFit limits }
    ensures { Views limits table.now store.entry slot result }
{
    let Ok(()) = view_check_within(limits, table, store, slot) else {
        return &store[0..0];
    };
    words::parts::held_label(limits, table, store, slot)
}

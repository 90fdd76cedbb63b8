// Layout: every word and byte is set to 0.
#![tactic(auto)]

ghost use Rattle.std.specs.Prelude.{◌≡◌, length, replicate};
ghost use Rattle.types.specs.Answers.{done_says};
ghost use Rattle.tables.specs.Outcomes.{layout_outcome};
ghost use Rattle.words.specs.Limits.{LimitsFit};
ghost use Rattle.tables.specs.Given.{Gives};

use types::{Limits, Refusal};

// Sets every word and every byte to 0.
pub fn clear(table: &mut [u16], store: &mut [u8])
    ensures words { table.new ≡ replicate (length table.old) 0 }
    ensures bytes { store.new ≡ replicate (length store.old) 0 }
{
    table.fill(0);
    store.fill(0);
}

// Lays out an empty table and its store; refused by 1 and 2, where table and store stay.
pub fn layout_within(limits: Limits, table: &mut [u16], store: &mut [u8]) -> Result<(), Refusal>
    requires { LimitsFit limits }
    ensures { Gives (layout_outcome limits table.old store.old)
        (done_says result) table.new store.new }
{
    lengths::of_memory(limits, table, store)?;
    clear(table, store);
    Ok(())
}

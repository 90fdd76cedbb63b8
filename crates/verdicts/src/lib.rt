// The refusals before a call uses the tree: by the lent lengths, the label, and the soundness of the whole table.
// The check is those of a whole table, and nothing else.
#![tactic(auto)]

pub mod labelled;

ghost use Rattle.std.specs.Prelude.{◌≡◌};
ghost use Rattle.types.specs.Answers.{done_says};
ghost use Rattle.tables.specs.Outcomes.{pass, of_table, check_outcome};
ghost use Rattle.words.specs.Limits.{LimitsFit, SizesFit};
ghost use Rattle.lengths.specs.Tests.{test_says};
ghost use Rattle.verdicts.specs.Verdicts.{of_whole};

use types::{Limits, Refusal};

// Refuses a table and its store by 6 where they are not sound.
pub fn of_table(limits: Limits, table: &[u16], store: &[u8]) -> Result<(), Refusal>
    requires { SizesFit limits table.now store.now }
    ensures { test_says result ≡ of_table limits table.now store.now pass }
{
    if checks::sound_within(limits, table, store) {
        Ok(())
    } else {
        Err(Refusal::NotSound)
    }
}

// The refusals of a whole table: by 1 and 2, or by 6 where it is not sound.
pub fn whole_table(limits: Limits, table: &[u16], store: &[u8]) -> Result<(), Refusal>
    requires { LimitsFit limits }
    ensures { test_says result ≡ of_whole limits table.now store.now pass }
{
    lengths::of_memory(limits, table, store)?;
    of_table(limits, table, store)
}

// The check: done where the table is sound, else refused by 1, 2 or 6.
#[tactic(auto, using(crate::proofs::WholeTests::check_by))]
pub fn check_within(limits: Limits, table: &[u16], store: &[u8]) -> Result<(), Refusal>
    requires { LimitsFit limits }
    ensures { done_says result ≡ check_outcome limits table.now store.now }
{
    whole_table(limits, table, store)
}

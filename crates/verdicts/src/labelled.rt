// The refusals of a call that takes a label and needs a sound table: insert and delete.
ghost use Rattle.std.specs.Prelude.{◌≡◌};
ghost use Rattle.words.specs.Limits.{LimitsFit};
ghost use Rattle.lengths.specs.Tests.{test_says};
ghost use Rattle.verdicts.specs.Verdicts.{update_verdict};

use types::{Limits, Refusal};

// The first refusal of an update, in the order of the table: lent memory, label, whole table.
pub fn first_refusal(
    limits: Limits,
    table: &[u16],
    store: &[u8],
    label: &[u8],
) -> Result<(), Refusal>
    requires { LimitsFit limits }
    ensures { test_says result ≡ update_verdict limits table.now store.now label.now }
{
    lengths::with_label(limits, table, store, label)?;
    crate::of_table(limits, table, store)
}

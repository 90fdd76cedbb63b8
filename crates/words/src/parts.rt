// A slot's part of a store, and the label at its front.
ghost use Rattle.std.specs.Prelude.{◌≡◌};
ghost use Rattle.tables.specs.Words.{row_at, part_start};
ghost use Rattle.words.specs.Rows.{HasRow};
ghost use Rattle.words.specs.Parts.{StartFits, LabelInside, Shows};

use types::Limits;

// Where a slot's part starts.
pub fn part_start(limits: Limits, slot: usize) -> usize
    requires { StartFits limits slot }
    ensures { result ≡ part_start limits slot }
{
    limits.width * (slot - 1)
}

// The label in a slot, by its length. It reads with no test and lends a part whose start is known; `total::label_at` takes
// any store and cuts the label to it: one for both would test here.
pub fn label_at(limits: Limits, store: &[u8], slot: usize, len: usize) -> &[u8]
    requires { LabelInside limits store.now slot len }
    ensures { Shows limits store.entry slot len result }
{
    let start = part_start(limits, slot);
    let end = start + len;
    &store[start..end]
}

// The label of the node in a slot.
pub fn held_label<'a>(limits: Limits, table: &[u16], store: &'a [u8], slot: usize) -> &'a [u8]
    requires has_row { HasRow table.now slot }
    requires label_inside { LabelInside limits store.now slot (row_at table.now slot).len }
    ensures { Shows limits store.entry slot (row_at table.now slot).len result }
{
    let row = crate::read_row(table, slot);
    label_at(limits, store, slot, row.len as usize)
}

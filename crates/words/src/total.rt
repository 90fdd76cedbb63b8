// Words and rows of a table of any length: a read past its end gives 0, a store past its end does nothing.
// Labels in a store of any length: as far as it goes.
ghost use Rattle.std.specs.Prelude.{◌≡◌, ◌<◌, min, get_or, set};
ghost use Rattle.tables.specs.Words.{slot_start, row_at, part_start, label_at};
ghost use Rattle.words.specs.Limits.{LimitsFit};
ghost use Rattle.words.specs.Rows.{put_row};

use crate::parts;
use types::{Limits, Row};

// The word at a place.
pub fn word(table: &[u16], at: usize) -> u16
    ensures { result ≡ get_or table.now at 0 }
{
    table.get(at).copied().unwrap_or(0)
}

// Stores a word at a place.
pub fn set_word(table: &mut [u16], at: usize, value: u16)
    ensures { table.new ≡ set table.old at value }
{
    // std's `get_mut` promises nothing of the table as it is left.
    if at < table.len() {
        table[at] = value;
    }
}

// Where the words of a slot start; slot 0 is taken for slot 1.
pub fn row_start(slot: u16) -> usize
    ensures { result ≡ slot_start slot }
{
    4 + 8 * (slot as usize).saturating_sub(1)
}

// The row of a slot.
pub fn row_of(table: &[u16], slot: u16) -> Row
    ensures { result ≡ row_at table.now slot }
{
    let base = row_start(slot);
    crate::row_by(|i| word(table, base + i))
}

// Stores the row of a slot; every other word stays.
pub fn put_row(table: &mut [u16], slot: u16, row: Row)
    ensures { table.new ≡ put_row table.old slot row }
{
    let base = row_start(slot);
    set_word(table, base, row.left);
    set_word(table, base + 1, row.right);
    set_word(table, base + 2, row.place);
    set_word(table, base + 3, row.side);
    set_word(table, base + 4, row.balance);
    set_word(table, base + 5, row.len);
    set_word(table, base + 6, row.value);
    set_word(table, base + 7, row.charge);
}

// Where a slot's part of a store starts; slot 0 is taken for slot 1.
pub fn part_start(limits: Limits, slot: u16) -> usize
    requires { LimitsFit limits }
    ensures value { result ≡ part_start limits slot }
    ensures upper_bound { result < 268435456 }
{
    if slot == 0 {
        return 0;
    }
    parts::part_start(limits, slot as usize)
}

// The label in a slot, by its length.
pub fn label_at(limits: Limits, store: &[u8], slot: u16, len: u16) -> &[u8]
    requires { LimitsFit limits }
    ensures { result.now ≡ label_at limits store.now slot len }
{
    let start = part_start(limits, slot).min(store.len());
    let end = (start + len as usize).min(store.len());
    &store[start..end]
}

// The label of the node in a slot.
pub fn held_label<'a>(limits: Limits, table: &[u16], store: &'a [u8], slot: u16) -> &'a [u8]
    requires { LimitsFit limits }
    ensures { result.now ≡ label_at limits store.now slot (row_at table.now slot).len }
{
    let row = row_of(table, slot);
    label_at(limits, store, slot, row.len)
}

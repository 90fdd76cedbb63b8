// Slots taken and freed in a table of any length, and labels set into a store and taken out of it.
// A word or a byte past the end is not stored.
#![tactic(auto)]

ghost use Rattle.std.specs.Prelude.{◌≡◌, cond, ◌<◌, eqb, set};
ghost use Rattle.tables.specs.Words.{first_free, high_mark, row_at};
ghost use Rattle.words.specs.Limits.{LimitsFit};
ghost use Rattle.slots.specs.Slots.{free_slot, slot_taken, after_taken, after_freed, with_count, with_root_place};
ghost use Rattle.slots.specs.Slots.{with_label, without_label};

use types::{Limits, Row};

// Takes the slot freed last out of the free chain, where there is one.
pub fn pop_free(table: &mut [u16]) -> Option<u16>
    ensures value { result ≡ free_slot table.old }
    ensures table_after { table.new ≡ cond (eqb (first_free table.old) 0) table.old
        (set table.old 2 (row_at table.old (first_free table.old)).left) }
{
    let first = words::total::word(table, 2);
    if first == 0 {
        return None;
    }
    let row = words::total::row_of(table, first);
    words::total::set_word(table, 2, row.left);
    Some(first)
}

// Takes a slot for a new label: the one freed last, and if none is free, the one just above the high mark.
pub fn take_slot(table: &mut [u16]) -> u16
    requires { high_mark table.old < 65535 }
    ensures value { result ≡ slot_taken table.old }
    ensures table_after { table.new ≡ after_taken table.old }
{
    let Some(slot) = pop_free(table) else {
        let mark = words::total::word(table, 3) + 1;
        words::total::set_word(table, 3, mark);
        return mark;
    };
    slot
}

// Puts a slot in front of the free chain, its other words zero.
pub fn free_slot(table: &mut [u16], slot: u16)
    ensures { table.new ≡ after_freed table.old slot }
{
    let next = words::total::word(table, 2);
    let row = Row {
        left: next,
        right: 0,
        place: 0,
        side: 0,
        balance: 0,
        len: 0,
        value: 0,
        charge: 0,
    };
    words::total::put_row(table, slot, row);
    words::total::set_word(table, 2, slot);
}

// Stores how many labels are held.
pub fn set_count(table: &mut [u16], count: u16)
    ensures { table.new ≡ with_count table.old count }
{
    words::total::set_word(table, 1, count);
}

// Stores the root's place, where there is a root.
pub fn set_root_place(table: &mut [u16], place: u16)
    ensures { table.new ≡ with_root_place table.old place }
{
    let root = words::total::word(table, 0);
    if root != 0 {
        words::total::set_word(table, words::total::row_start(root) + 2, place);
    }
}

// Stores a label at the front of its slot's part.
pub fn set_label(limits: Limits, store: &mut [u8], slot: u16, label: &[u8])
    requires { LimitsFit limits }
    ensures { store.new ≡ with_label limits store.old slot label.now }
{
    let start = words::total::part_start(limits, slot).min(store.len());
    let n = label.len().min(store.len() - start);
    words::runs::put_bytes(store, start, &label[..n]);
}

// Stores zeros in a slot's whole part.
pub fn clear_label(limits: Limits, store: &mut [u8], slot: u16)
    requires { LimitsFit limits }
    ensures { store.new ≡ without_label limits store.old slot }
{
    let start = words::total::part_start(limits, slot).min(store.len());
    let n = limits.width.min(store.len() - start);
    store[start..start + n].fill(0);
}

// Insert in the words and bytes, where a search of a sound table ended at an empty link: a slot taken, the leaf and its
// label stored, the tree put in balance.
#![tactic(auto)]

ghost use Rattle.std.specs.Prelude.{◌≡◌, ◌+◌, ◌≤◌, length};
ghost use Rattle.tables.specs.Words.{labels_held};
ghost use Rattle.words.specs.Rows.{put_row};
ghost use Rattle.insertions.specs.Fits.{EndsFit, CanGrow, CanInsert};
ghost use Rattle.slots.specs.Slots.{slot_taken, after_taken, with_count, with_label};
ghost use Rattle.insertions.specs.Insertions.{leaf_fields, leaf_row, with_leaf, inserted_table};

use sides::Fields;
use traces::Trace;
use types::{Limits, Row};
use words::charge::UNKNOWN;

// The prefix fields of a new leaf at a search's end. Its side goes by which neighbours it has.
pub fn leaf_fields(trace: Trace) -> Fields
    requires { EndsFit trace }
    ensures { result ≡ leaf_fields trace }
{
    let fields = fields::by_differences(trace.p as u16, trace.s as u16);
    if trace.above == 0 {
        if trace.below == 0 {
            return Fields { place: 0, side: 0 };
        }
        return Fields {
            place: fields.place,
            side: 0,
        };
    }
    if trace.below == 0 {
        return Fields {
            place: fields.place,
            side: 1,
        };
    }
    fields
}

// Takes a slot for one more label, and counts it.
pub fn count_in(table: &mut [u16]) -> u16
    requires { CanGrow table.old }
    ensures value { result ≡ slot_taken table.old }
    ensures table_after { table.new
        ≡ with_count (after_taken table.old) (labels_held table.old + 1) }
{
    let held = words::total::word(table, 1);
    let slot = slots::take_slot(table);
    slots::set_count(table, held + 1);
    slot
}

// Stores a new leaf in its slot.
pub fn put_leaf(table: &mut [u16], slot: u16, label: &[u8], value: u16, trace: Trace)
    requires ends_fit { EndsFit trace }
    requires label_len_bound { length label.now ≤ 65535 }
    ensures { table.new
        ≡ put_row table.old slot (leaf_row (leaf_fields trace) (length label.now) value) }
{
    let fields = leaf_fields(trace);
    let row = Row {
        left: 0,
        right: 0,
        place: fields.place,
        side: fields.side,
        balance: 1,
        len: label.len() as u16,
        value,
        charge: UNKNOWN,
    };
    words::total::put_row(table, slot, row);
}

// Stores a new leaf in a slot that it takes, and counts the root's place as 0.
pub fn hang_leaf(table: &mut [u16], label: &[u8], value: u16, trace: Trace) -> u16
    requires can_grow { CanGrow table.old }
    requires ends_fit { EndsFit trace }
    requires label_len_bound { length label.now ≤ 65535 }
    ensures value { result ≡ slot_taken table.old }
    ensures table_after { table.new ≡ with_leaf table.old label.now value trace }
{
    let slot = count_in(table);
    put_leaf(table, slot, label, value, trace);
    slots::set_root_place(table, 0);
    slot
}

// Inserts a label and its value at a search's end; gives the slot.
pub fn insert_entry(
    limits: Limits,
    table: &mut [u16],
    store: &mut [u8],
    label: &[u8],
    value: u16,
    trace: Trace,
) -> u16
    requires { CanInsert limits table.old label.now trace }
    ensures value { result ≡ slot_taken table.old }
    ensures table_after { table.new ≡ inserted_table table.old label.now value trace }
    ensures store_after { store.new
        ≡ with_label limits store.old (slot_taken table.old) label.now }
{
    let root = words::total::word(table, 0);
    let slot = hang_leaf(table, label, value, trace);
    slots::set_label(limits, store, slot, label);
    let top = paths::insert_along(table, trace.length, trace.path, root, slot);
    paths::rooted(table, top);
    slot
}

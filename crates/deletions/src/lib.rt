// Delete in the words and bytes, where a search of a sound table found the label: prefix fields renewed, the node taken
// out and the tree put in balance, the slot freed, the label cleared.
#![tactic(auto)]

ghost use Rattle.std.specs.Prelude.{◌≡◌, ◌-◌};
ghost use Rattle.paths.specs.Paths.{delete_along, rooted};
ghost use Rattle.fields.specs.Fits.{RowsFit};
ghost use Rattle.slots.specs.Slots.{after_freed, with_count, without_label};
ghost use Rattle.deletions.specs.Deletions.{ready_to_delete, deleted_table};

use sides::Fields;
use traces::Trace;
use types::Limits;

// Renews the nodes around the found one, with the root's place counted as 0.
pub fn get_ready(limits: Limits, table: &mut [u16], store: &[u8], trace: Trace) -> Fields
    requires { RowsFit limits table.old }
    ensures value { result ≡ (ready_to_delete limits table.old store.now trace).next }
    ensures table_after { table.new ≡ (ready_to_delete limits table.old store.now trace).table }
{
    slots::set_root_place(table, 0);
    renewals::renew_around(limits, table, store, trace.found, trace.below, trace.above)
}

// Takes the node at the end of the path out of the tree. The fields are those of the node that takes its place.
pub fn take_out(limits: Limits, table: &mut [u16], root: u16, trace: Trace, next: Fields)
    ensures { table.new ≡ rooted
        (delete_along trace.length trace.path limits.depth table.old root
        next.place next.side) }
{
    let top = paths::delete_along(table, trace.length, trace.path, limits.depth, root, next);
    paths::rooted(table, top);
}

// Frees a slot and counts one label less than so many.
pub fn count_out(table: &mut [u16], slot: u16, held: u16)
    ensures { table.new ≡ with_count (after_freed table.old slot) (held - 1) }
{
    slots::free_slot(table, slot);
    if held == 0 {
        slots::set_count(table, 0);
    } else {
        slots::set_count(table, held - 1);
    }
}

// Deletes the label that a search found.
pub fn delete_entry(limits: Limits, table: &mut [u16], store: &mut [u8], trace: Trace)
    requires { RowsFit limits table.old }
    ensures table_after { table.new ≡ deleted_table limits table.old store.old trace }
    ensures store_after { store.new ≡ without_label limits store.old trace.found }
{
    let root = words::total::word(table, 0);
    let held = words::total::word(table, 1);
    let next = get_ready(limits, table, store, trace);
    take_out(limits, table, root, trace, next);
    count_out(table, trace.found, held);
    slots::clear_label(limits, store, trace.found);
}

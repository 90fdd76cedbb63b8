// The hub's label index for C, as a static library: the calls of `exports`, each with its clauses again.
// `include/strap_index.h` names these calls. A slice passes as its pointer and its length. Any length and any content is
// taken, and each call answers as the index does. A caller in another language owes what the language asks of every
// caller here: each pointer reaches as many words or bytes as its length says, the lent parts do not overlap, and they
// live, unchanged by others, through the call.
#![tactic(auto)]

ghost use Rattle.std.specs.Prelude.{◌≡◌};
ghost use Rattle.types.specs.Sizes.{hub};
ghost use Rattle.tables.specs.Outcomes.{layout_outcome, search_outcome, insert_outcome, delete_outcome, check_outcome};
ghost use Rattle.tables.specs.Outcomes.{charge_outcome, listing_outcome, view_outcome};
ghost use Rattle.packs.specs.Packed.{packed};
ghost use Rattle.files.specs.Saves.{save_outcome};
ghost use Rattle.files.specs.Loads.{load_outcome};
ghost use Rattle.rfc4180.specs.Rosters.{roster_outcome};
ghost use Rattle.exported.specs.Given.{packed_view, Packs, PacksList, PacksSave, PacksLoad, PacksRoster};

use index::Hub;

// Lays out an empty table.
#[unsafe(no_mangle)]
pub extern "C" fn strap_layout(table: &mut [u16], store: &mut [u8]) -> usize
    ensures { Packs (layout_outcome hub table.old store.old)
        result table.new store.new }
{
    exports::layout::<Hub>(table, store)
}

// Searches for a label: its slot and value, or the slots of its neighbours.
#[unsafe(no_mangle)]
pub extern "C" fn strap_search(table: &[u16], store: &[u8], label: &[u8]) -> usize
    ensures { result ≡ packed (search_outcome hub table.now store.now label.now) }
{
    exports::search::<Hub>(table, store, label)
}

// Inserts a label with its value.
#[unsafe(no_mangle)]
pub extern "C" fn strap_insert(
    table: &mut [u16],
    store: &mut [u8],
    label: &[u8],
    value: u16,
) -> usize
    ensures { Packs (insert_outcome hub table.old store.old label.now value)
        result table.new store.new }
{
    exports::insert::<Hub>(table, store, label, value)
}

// Deletes a label.
#[unsafe(no_mangle)]
pub extern "C" fn strap_delete(table: &mut [u16], store: &mut [u8], label: &[u8]) -> usize
    ensures { Packs (delete_outcome hub table.old store.old label.now)
        result table.new store.new }
{
    exports::delete::<Hub>(table, store, label)
}

// Sets the charge of a held label.
#[unsafe(no_mangle)]
pub extern "C" fn strap_set_charge(
    table: &mut [u16],
    store: &[u8],
    label: &[u8],
    charge: u16,
) -> usize
    ensures { Packs (charge_outcome hub table.old store.now label.now charge)
        result table.new store.now }
{
    exports::set_charge(table, store, label, charge)
}

// Tests the whole table and store.
#[unsafe(no_mangle)]
pub extern "C" fn strap_check(table: &[u16], store: &[u8]) -> usize
    ensures { result ≡ packed (check_outcome hub table.now store.now) }
{
    exports::check::<Hub>(table, store)
}

// Writes the slots in ascending label order into a lent list.
#[unsafe(no_mangle)]
pub extern "C" fn strap_listing(table: &[u16], store: &[u8], list: &mut [u16]) -> usize
    ensures { PacksList (listing_outcome hub table.now store.now list.old)
        result list.new }
{
    exports::listing::<Hub>(table, store, list)
}

// Writes the file of the labels into the front of a lent output.
#[unsafe(no_mangle)]
pub extern "C" fn strap_save(table: &[u16], store: &[u8], output: &mut [u8]) -> usize
    ensures { PacksSave (save_outcome hub table.now store.now output.old)
        result output.new }
{
    exports::save(table, store, output)
}

// Loads a saved file into table and store, whatever they hold.
#[unsafe(no_mangle)]
pub extern "C" fn strap_load(table: &mut [u16], store: &mut [u8], file: &[u8]) -> usize
    ensures { PacksLoad (load_outcome hub table.old store.old file.now)
        result table.new store.new }
{
    exports::load(table, store, file)
}

// Takes a roster into table and store, record by record.
#[unsafe(no_mangle)]
pub extern "C" fn strap_take_roster(table: &mut [u16], store: &mut [u8], text: &[u8]) -> usize
    ensures { PacksRoster (roster_outcome hub table.old store.old text.now)
        result table.new store.new }
{
    exports::take_roster(table, store, text)
}

// Whether the view of a slot's label is refused.
#[unsafe(no_mangle)]
pub extern "C" fn strap_view_check(table: &[u16], store: &[u8], slot: usize) -> usize
    ensures { result ≡ packed (view_outcome hub table.now store.now slot) }
{
    exports::view_check::<Hub>(table, store, slot)
}

// Where in the lent store a slot's label begins, and how long it is.
#[unsafe(no_mangle)]
pub extern "C" fn strap_view(table: &[u16], store: &[u8], slot: usize) -> usize
    ensures { result ≡ packed_view hub table.now store.now slot }
{
    exports::view::<Hub>(table, store, slot)
}

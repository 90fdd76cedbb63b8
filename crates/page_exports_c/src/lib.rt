// The pairing page's label index for C, as a static library: the calls of `exports`, each with its clauses again.
// What is asked of a caller is said at `exports_c`.
#![tactic(auto)]

ghost use Rattle.std.specs.Prelude.{◌≡◌};
ghost use Rattle.types.specs.Sizes.{page};
ghost use Rattle.tables.specs.Outcomes.{layout_outcome, search_outcome, insert_outcome, delete_outcome, check_outcome};
ghost use Rattle.tables.specs.Outcomes.{listing_outcome, view_outcome};
ghost use Rattle.packs.specs.Packed.{packed};
ghost use Rattle.exported.specs.Given.{packed_view, Packs, PacksList};

use index::Page;

// Lays out an empty table.
#[unsafe(no_mangle)]
pub extern "C" fn strap_page_layout(table: &mut [u16], store: &mut [u8]) -> usize
    ensures { Packs (layout_outcome page table.old store.old)
        result table.new store.new }
{
    exports::layout::<Page>(table, store)
}

// Searches for a label: its slot and value, or the slots of its neighbours.
#[unsafe(no_mangle)]
pub extern "C" fn strap_page_search(table: &[u16], store: &[u8], label: &[u8]) -> usize
    ensures { result ≡ packed (search_outcome page table.now store.now label.now) }
{
    exports::search::<Page>(table, store, label)
}

// Inserts a label with its value.
#[unsafe(no_mangle)]
pub extern "C" fn strap_page_insert(
    table: &mut [u16],
    store: &mut [u8],
    label: &[u8],
    value: u16,
) -> usize
    ensures { Packs (insert_outcome page table.old store.old label.now value)
        result table.new store.new }
{
    exports::insert::<Page>(table, store, label, value)
}

// Deletes a label.
#[unsafe(no_mangle)]
pub extern "C" fn strap_page_delete(table: &mut [u16], store: &mut [u8], label: &[u8]) -> usize
    ensures { Packs (delete_outcome page table.old store.old label.now)
        result table.new store.new }
{
    exports::delete::<Page>(table, store, label)
}

// Tests the whole table and store.
#[unsafe(no_mangle)]
pub extern "C" fn strap_page_check(table: &[u16], store: &[u8]) -> usize
    ensures { result ≡ packed (check_outcome page table.now store.now) }
{
    exports::check::<Page>(table, store)
}

// Writes the slots in ascending label order into a lent list.
#[unsafe(no_mangle)]
pub extern "C" fn strap_page_listing(table: &[u16], store: &[u8], list: &mut [u16]) -> usize
    ensures { PacksList (listing_outcome page table.now store.now list.old)
        result list.new }
{
    exports::listing::<Page>(table, store, list)
}

// Whether the view of a slot's label is refused.
#[unsafe(no_mangle)]
pub extern "C" fn strap_page_view_check(table: &[u16], store: &[u8], slot: usize) -> usize
    ensures { result ≡ packed (view_outcome page table.now store.now slot) }
{
    exports::view_check::<Page>(table, store, slot)
}

// Where in the lent store a slot's label begins, and how long it is.
#[unsafe(no_mangle)]
pub extern "C" fn strap_page_view(table: &[u16], store: &[u8], slot: usize) -> usize
    ensures { result ≡ packed_view page table.now store.now slot }
{
    exports::view::<Page>(table, store, slot)
}

// The label index for other languages: numbers and slices in, the answer packed in one number. The crates `exports_c` and
// `page_exports_c` give these calls to C, for the hub and for the pairing page. Any length and any content of a slice is
// taken, and each call answers as the index does.
#![tactic(auto)]

ghost use Rattle.std.specs.Prelude.{◌≡◌};
ghost use Rattle.types.specs.Sizes.{hub};
ghost use Rattle.tables.specs.Outcomes.{layout_outcome, search_outcome, insert_outcome, delete_outcome, check_outcome};
ghost use Rattle.tables.specs.Outcomes.{charge_outcome, listing_outcome, view_outcome};
ghost use Rattle.packs.specs.Packed.{packed};
ghost use Rattle.files.specs.Saves.{save_outcome};
ghost use Rattle.files.specs.Loads.{load_outcome};
ghost use Rattle.rfc4180.specs.Rosters.{roster_outcome};
ghost use Rattle.exported.specs.Given.{packed_view, Packs, PacksList, PacksSave, PacksLoad, PacksRoster};

use index::Index;

// Lays out an empty table.
pub fn layout<I: Index>(table: &mut [u16], store: &mut [u8]) -> usize
    ensures { Packs (layout_outcome I.limits table.old store.old)
        result table.new store.new }
{
    packs::packed_done(index::layout::<I>(table, store))
}

// Searches for a label: its slot and value, or the slots of its neighbours.
pub fn search<I: Index>(table: &[u16], store: &[u8], label: &[u8]) -> usize
    ensures { result ≡ packed (search_outcome I.limits table.now store.now label.now) }
{
    packs::packed_search(index::search::<I>(table, store, label))
}

// Inserts a label with its value.
pub fn insert<I: Index>(table: &mut [u16], store: &mut [u8], label: &[u8], value: u16) -> usize
    ensures { Packs (insert_outcome I.limits table.old store.old label.now value)
        result table.new store.new }
{
    packs::packed_update(index::insert::<I>(table, store, label, value))
}

// Deletes a label.
pub fn delete<I: Index>(table: &mut [u16], store: &mut [u8], label: &[u8]) -> usize
    ensures { Packs (delete_outcome I.limits table.old store.old label.now)
        result table.new store.new }
{
    packs::packed_update(index::delete::<I>(table, store, label))
}

// Tests the whole table and store.
pub fn check<I: Index>(table: &[u16], store: &[u8]) -> usize
    ensures { result ≡ packed (check_outcome I.limits table.now store.now) }
{
    packs::packed_done(index::check::<I>(table, store))
}

// Writes the slots in ascending label order into a lent list.
pub fn listing<I: Index>(table: &[u16], store: &[u8], list: &mut [u16]) -> usize
    ensures { PacksList (listing_outcome I.limits table.now store.now list.old)
        result list.new }
{
    packs::packed_list(index::listing::<I>(table, store, list))
}

// Whether the view of a slot's label is refused.
pub fn view_check<I: Index>(table: &[u16], store: &[u8], slot: usize) -> usize
    ensures { result ≡ packed (view_outcome I.limits table.now store.now slot) }
{
    packs::packed_done(index::view_check::<I>(table, store, slot))
}

// Where in the lent store a slot's label begins, and how long it is.
pub fn view<I: Index>(table: &[u16], store: &[u8], slot: usize) -> usize
    ensures { result ≡ packed_view I.limits table.now store.now slot }
{
    match index::view_check::<I>(table, store, slot) {
        Ok(()) => {
            let start = words::parts::part_start(I::limits(), slot);
            let part = index::view::<I>(table, store, slot);
            packs::packed_part(start, part.len())
        }
        Err(refusal) => packs::packed_refusal(refusal),
    }
}

// Sets the charge of a held label. The hub's alone, as are the next three.
pub fn set_charge(table: &mut [u16], store: &[u8], label: &[u8], charge: u16) -> usize
    ensures { Packs (charge_outcome hub table.old store.now label.now charge)
        result table.new store.now }
{
    packs::packed_update(index::set_charge(table, store, label, charge))
}

// Writes the file of the labels into the front of a lent output.
pub fn save(table: &[u16], store: &[u8], output: &mut [u8]) -> usize
    ensures { PacksSave (save_outcome hub table.now store.now output.old)
        result output.new }
{
    packs::packed_save(index::save(table, store, output))
}

// Loads a saved file into table and store, whatever they hold.
pub fn load(table: &mut [u16], store: &mut [u8], file: &[u8]) -> usize
    ensures { PacksLoad (load_outcome hub table.old store.old file.now)
        result table.new store.new }
{
    packs::packed_load(index::load(table, store, file))
}

// Takes a roster into table and store, record by record.
pub fn take_roster(table: &mut [u16], store: &mut [u8], text: &[u8]) -> usize
    ensures { PacksRoster (roster_outcome hub table.old store.old text.now)
        result table.new store.new }
{
    packs::packed_roster(index::take_roster(table, store, text))
}

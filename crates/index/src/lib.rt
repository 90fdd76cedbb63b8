// The label index, of the hub or of the pairing page: every call takes the lent memory at any length and with any
// content, and refuses by the paper's numbers. A refused call has changed nothing; a refused roster keeps the records
// before the one that is refused.
#![tactic(auto)]

ghost use Rattle.std.specs.Prelude.{◌≡◌};
ghost use Rattle.types.specs.declared.Limits.{Limits};
ghost use Rattle.types.specs.Sizes.{hub, page};
ghost use Rattle.types.specs.Answers.{search_says, update_says, done_says, list_says};
ghost use Rattle.types.specs.SaveReplies.{save_says};
ghost use Rattle.types.specs.LoadReplies.{load_says};
ghost use Rattle.types.specs.RosterReplies.{roster_says};
ghost use Rattle.tables.specs.Outcomes.{layout_outcome, search_outcome, insert_outcome, delete_outcome};
ghost use Rattle.tables.specs.Outcomes.{charge_outcome, check_outcome, listing_outcome, view_outcome};
ghost use Rattle.tables.specs.Given.{Gives};
ghost use Rattle.views.specs.Parts.{Views};
ghost use Rattle.lists.specs.Given.{Lists};
ghost use Rattle.files.specs.Saves.{save_outcome, Saves};
ghost use Rattle.files.specs.Loads.{load_outcome, Loads};
ghost use Rattle.rfc4180.specs.Rosters.{roster_outcome, TakesRoster};
ghost use Rattle.endings.specs.Ready.{EditsFit};
ghost use Rattle.index.specs.Fits.{hub_fits, page_fits};

use types::{Limits, Refusal, RefusedRecord, Searched, Updated};

// An index, by its sizes: numbers of them fit machine words, and a path is as long as the slots allow.
pub trait Index {
    ghost limits: { Limits };

    // The sizes of the index.
    fn limits() -> Limits
        ensures { result ≡ limits };

    ghost fits: { EditsFit limits };
}

// The hub's index: 512 labels of at most 64 bytes in 4,100 words and 32,768 bytes.
#[derive(Clone, Copy, Debug, PartialEq, Eq)]
pub struct Hub;

impl Index for Hub {
    ghost limits = { hub };

    ghost fits = { hub_fits };

    fn limits() -> Limits {
        types::hub()
    }
}

// The pairing page's index: 32 labels of at most 20 bytes in 260 words and 640 bytes. It has the hub's calls, but for
// the charge call, the save, the load and the roster.
#[derive(Clone, Copy, Debug, PartialEq, Eq)]
pub struct Page;

impl Index for Page {
    ghost limits = { page };

    ghost fits = { page_fits };

    fn limits() -> Limits {
        types::page()
    }
}

// Lays out an empty table: every word and byte becomes 0. Refused by 1 and 2.
pub fn layout<I: Index>(table: &mut [u16], store: &mut [u8]) -> Result<(), Refusal>
    ensures { Gives (layout_outcome I.limits table.old store.old)
        (done_says result) table.new store.new }
{
    layouts::layout_within(I::limits(), table, store)
}

// Searches for a label by the search steps, with both counts. An absent label comes with the slots of its neighbours,
// the nearest smaller and the nearest larger label. Refused by 1 to 5.
pub fn search<I: Index>(table: &[u16], store: &[u8], label: &[u8]) -> Result<Searched, Refusal>
    ensures { search_says result ≡ search_outcome I.limits table.now store.now label.now }
{
    search::walks::search_within(I::limits(), table, store, label)
}

// Inserts a label with its value: the slot it took, and its search's counts. Refused by 1, 2, 3, 4, 6, then 7 before 9.
pub fn insert<I: Index>(
    table: &mut [u16],
    store: &mut [u8],
    label: &[u8],
    value: u16,
) -> Result<Updated, Refusal>
    ensures { Gives (insert_outcome I.limits table.old store.old label.now value)
        (update_says result) table.new store.new }
{
    inserts::insert_within(I::limits(), table, store, label, value)
}

// Deletes a label: the slot it freed, and its search's counts. Refused by 1, 2, 3, 4, 6 and 8.
pub fn delete<I: Index>(
    table: &mut [u16],
    store: &mut [u8],
    label: &[u8],
) -> Result<Updated, Refusal>
    ensures { Gives (delete_outcome I.limits table.old store.old label.now)
        (update_says result) table.new store.new }
{
    deletes::delete_within(I::limits(), table, store, label)
}

// Tests the whole table and store. Refused by 1, 2 and, where they are not sound, 6.
pub fn check<I: Index>(table: &[u16], store: &[u8]) -> Result<(), Refusal>
    ensures { done_says result ≡ check_outcome I.limits table.now store.now }
{
    verdicts::check_within(I::limits(), table, store)
}

// Writes the slots in ascending label order into a lent list, and gives their number; later words stay.
// Refused by 1, 2, 6 and 10.
pub fn listing<I: Index>(table: &[u16], store: &[u8], list: &mut [u16]) -> Result<usize, Refusal>
    ensures { Lists (listing_outcome I.limits table.now store.now list.old)
        (list_says result) list.new }
{
    lists::listing_within(I::limits(), table, store, list)
}

// Whether the view of a slot's label is refused: by 1, 2 or 11.
pub fn view_check<I: Index>(table: &[u16], store: &[u8], slot: usize) -> Result<(), Refusal>
    ensures { done_says result ≡ view_outcome I.limits table.now store.now slot }
{
    views::view_check_within(I::limits(), table, store, slot)
}

// The part of the lent store that holds a slot's label; where `view_check` refuses, the empty part at the store's
// start.
pub fn view<'a, I: Index>(table: &[u16], store: &'a [u8], slot: usize) -> &'a [u8]
    ensures { Views I.limits table.now store.entry slot result }
{
    views::view_within(I::limits(), table, store, slot)
}

// Sets the charge of a held label, 0 to 100 or 255 for unknown: the label's slot, and its search's counts. Only that
// word of the table changes. Refused by 1, 2, 3, 4, 24, 6 and 8. The hub's alone, as are the next three.
pub fn set_charge(
    table: &mut [u16],
    store: &[u8],
    label: &[u8],
    charge: u16,
) -> Result<Updated, Refusal>
    ensures { Gives (charge_outcome hub table.old store.now label.now charge)
        (update_says result) table.new store.now }
{
    charges::charge_within(Hub::limits(), table, store, label, charge)
}

// Writes the file of the labels into the front of a lent output, and gives the number of its bytes; later bytes stay.
// Refused by 1, 2, 6 and 17.
pub fn save(table: &[u16], store: &[u8], output: &mut [u8]) -> Result<usize, Refusal>
    ensures { Saves (save_outcome hub table.now store.now output.old)
        (save_says result) output.new }
{
    saves::save_within(Hub::limits(), table, store, output)
}

// Loads a saved file, whatever table and store hold: they become those that inserting its labels in file order into a
// fresh table leaves. Gives the number of its labels. Refused by 1, 2, 18, 19 and 20.
pub fn load(table: &mut [u16], store: &mut [u8], file: &[u8]) -> Result<usize, Refusal>
    ensures { Loads (load_outcome hub table.old store.old file.now)
        (load_says result) table.new store.new }
{
    loads::load_within(Hub::limits(), table, store, file)
}

// Takes a roster, a text of records by RFC 4180 with two fields, label and value: inserts record by record, up to the
// first that is refused, and gives how many went in. Those before a refused one stay in. Refused by 1, 2 and 12 at
// record 0, then at a record by 13, 3, 4, 6, 7 and 9.
pub fn take_roster(table: &mut [u16], store: &mut [u8], text: &[u8]) -> Result<usize, RefusedRecord>
    ensures { TakesRoster (roster_outcome hub table.old store.old text.now)
        (roster_says result) table.new store.new }
{
    let mut label = [0u8; 64];
    rosters::roster_within(Hub::limits(), table, store, text, &mut label)
}

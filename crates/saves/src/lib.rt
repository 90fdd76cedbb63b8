// The save of a sound table: the file of its labels, written into a lent output. One walk over the tree counts its
// bytes, and where they fit a second one writes them.
#![tactic(auto)]

ghost use Rattle.std.specs.Prelude.{◌≡◌, ◌^◌, ◌<◌, length};
ghost use Rattle.types.specs.SaveReplies.{save_says};
ghost use Rattle.words.specs.Limits.{LimitsFit};
ghost use Rattle.words.specs.Filled.{Filled, HasRoom};
ghost use Rattle.lists.specs.Listed.{ListReady};
ghost use Rattle.files.specs.Saves.{save_outcome, Saves};
ghost use Rattle.saves.specs.Saved.{entry_in_slot, entries_from, file_from, saving_ready};
ghost use Rattle.saves.specs.Saved.{CountFits, WriteFits};

use types::{Limits, Refusal, Row};

// How many bytes the entry of a slot takes, by its row.
fn slot_length(limits: Limits, store: &[u8], slot: u16, row: Row) -> usize
    requires limits_fit { LimitsFit limits }
    requires row_len_bound { length (entry_in_slot limits store.now slot row) < 2 ^ 64 }
    ensures { result ≡ length (entry_in_slot limits store.now slot row) }
{
    let label = words::total::label_at(limits, store, slot, row.len);
    entries::entry_length(label, row.value)
}

// Writes the entry of a slot, by its row, from a position of the output on, and gives the next.
fn put_slot(
    limits: Limits,
    store: &[u8],
    output: &mut [u8],
    at: usize,
    slot: u16,
    row: Row,
) -> usize
    requires limits_fit { LimitsFit limits }
    requires has_room { HasRoom (entry_in_slot limits store.now slot row) at output.old }
    ensures { Filled (entry_in_slot limits store.now slot row) output.old at output.new result }
{
    let label = words::total::label_at(limits, store, slot, row.len);
    entries::put_entry(output, at, label, row.value)
}

// How many bytes the entries at a link take, at most `remaining` nodes deep.
pub fn count_from(
    limits: Limits,
    table: &[u16],
    store: &[u8],
    link: usize,
    remaining: usize,
) -> usize
    requires { CountFits limits table.now store.now remaining link }
    ensures { result ≡ length (entries_from limits table.now store.now remaining link) }
{
    // No walk shared with `write_from`: after one that calls a closure, no proof knows what the closure wrote.
    if remaining == 0 {
        return 0;
    }
    if link == 0 {
        return 0;
    }
    if limits.slots < link {
        return 0;
    }
    let row = words::read_row(table, link);
    let before = count_from(limits, table, store, row.left as usize, remaining - 1);
    let own = slot_length(limits, store, link as u16, row);
    let after = count_from(limits, table, store, row.right as usize, remaining - 1);
    before + (own + after)
}

// Writes the entries at a link, at most `remaining` nodes deep, from a position of the output on, and gives the next: a
// walk of its own, as `count_from` says.
pub fn write_from(
    limits: Limits,
    table: &[u16],
    store: &[u8],
    output: &mut [u8],
    at: usize,
    link: usize,
    remaining: usize,
) -> usize
    requires { WriteFits limits table.now store.now output.old at remaining link }
    ensures { Filled (entries_from limits table.now store.now remaining link)
        output.old at output.new result }
{
    if remaining == 0 {
        return at;
    }
    if link == 0 {
        return at;
    }
    if limits.slots < link {
        return at;
    }
    let row = words::read_row(table, link);
    let middle = write_from(
        limits,
        table,
        store,
        output,
        at,
        row.left as usize,
        remaining - 1,
    );
    let next = put_slot(limits, store, output, middle, link as u16, row);
    write_from(
        limits,
        table,
        store,
        output,
        next,
        row.right as usize,
        remaining - 1,
    )
}

// How many bytes the file of a table takes, by its links.
fn file_length(limits: Limits, table: &[u16], store: &[u8]) -> usize
    requires { ListReady limits table.now }
    ensures { result ≡ length (file_from limits table.now store.now) }
{
    let held = entries::groups::count(table[1] as usize);
    held + count_from(limits, table, store, table[0] as usize, limits.depth)
}

// Saves a table that has as many nodes as labels held; refused by 17 where the output is shorter than the file.
fn save_ready(
    limits: Limits,
    table: &[u16],
    store: &[u8],
    output: &mut [u8],
) -> Result<usize, Refusal>
    requires { ListReady limits table.now }
    ensures { Saves (saving_ready limits table.now store.now output.old)
        (save_says result) output.new }
{
    if output.len() < file_length(limits, table, store) {
        return Err(Refusal::ShortOutput);
    }
    let start = entries::groups::put(output, 0, table[1] as usize);
    let end = write_from(
        limits,
        table,
        store,
        output,
        start,
        table[0] as usize,
        limits.depth,
    );
    Ok(end)
}

// Saves the labels of a sound table; refused by 1, 2, 6, or 17 where the output is shorter than the file.
// Later bytes stay, and all bytes where it is refused.
pub fn save_within(
    limits: Limits,
    table: &[u16],
    store: &[u8],
    output: &mut [u8],
) -> Result<usize, Refusal>
    requires { LimitsFit limits }
    ensures { Saves (save_outcome limits table.now store.now output.old)
        (save_says result) output.new }
{
    verdicts::whole_table(limits, table, store)?;
    save_ready(limits, table, store, output)
}

// The load of a saved file within any limits. The whole file is read first; where it can be loaded, the table and its
// store are cleared, and its labels are inserted in file order. A refused load has changed nothing.
#![tactic(auto)]

ghost use Rattle.std.specs.Prelude.{drop};
ghost use Rattle.types.specs.LoadReplies.{load_says};
ghost use Rattle.tables.specs.Written.{lent};
ghost use Rattle.tables.specs.Claims.{after_list};
ghost use Rattle.files.specs.FileReads.{read_file};
ghost use Rattle.files.specs.Loads.{loading_by, load_outcome, Loads};
ghost use Rattle.endings.specs.Ready.{EditsFit, InsertsReady};
ghost use Rattle.loads.specs.Inserted.{calls_in, Leaves, LoadReady};

use types::{Limits, Refusal};

// Inserts so many entries of a file from a position on into a sound table, up to the first that is not whole.
fn insert_entries(
    limits: Limits,
    table: &mut [u16],
    store: &mut [u8],
    file: &[u8],
    at: usize,
    count: usize,
)
    requires { InsertsReady limits table.old store.old }
    ensures { Leaves
        (after_list limits (calls_in limits count (drop at file.now))
        (lent table.old store.old))
        table.new store.new }
{
    let mut next = at;
    for _ in 0..count {
        let Some(entry) = scans::take_entry(limits, file, next) else {
            return;
        };
        let label = &file[entry.start..entry.end];
        let _ = inserts::insert_ready(limits, table, store, label, entry.value);
        next = entry.next;
    }
}

// Loads a file into a table and a store of the right lengths; refused by 18, 19 and 20.
fn load_ready(
    limits: Limits,
    table: &mut [u16],
    store: &mut [u8],
    file: &[u8],
) -> Result<usize, Refusal>
    requires { LoadReady limits table.old store.old }
    ensures { Loads (loading_by limits (lent table.old store.old) (read_file limits file.now))
        (load_says result) table.new store.new }
{
    let size = scans::groups::take(file, 0, 0, limits.slots).ok_or(Refusal::BrokenFile)?;
    scans::scan(limits, file, size.next, size.n)?;
    layouts::clear(table, store);
    insert_entries(limits, table, store, file, size.next, size.n);
    Ok(size.n)
}

// Loads a saved file, whatever table and store hold; refused by 1 and 2, then by 18, 19 and 20.
pub fn load_within(
    limits: Limits,
    table: &mut [u16],
    store: &mut [u8],
    file: &[u8],
) -> Result<usize, Refusal>
    requires { EditsFit limits }
    ensures { Loads (load_outcome limits table.old store.old file.now)
        (load_says result) table.new store.new }
{
    lengths::of_memory(limits, table, store)?;
    load_ready(limits, table, store, file)
}

// The ascending listing of a sound table: it writes the slots of the tree from left to right into a lent list of words.
#![tactic(auto)]

ghost use Rattle.types.specs.Answers.{list_says};
ghost use Rattle.tables.specs.Outcomes.{listing_outcome};
ghost use Rattle.words.specs.Limits.{LimitsFit};
ghost use Rattle.words.specs.Filled.{Filled};
ghost use Rattle.lists.specs.Given.{Lists};
ghost use Rattle.lists.specs.Listed.{slots_from, listing_ready, ListFits, ListReady};

use types::{Limits, Refusal};

// Writes the slots at a link, at most `remaining` nodes deep, from a position of the list on, and gives the next one.
pub fn list_from(
    limits: Limits,
    table: &[u16],
    list: &mut [u16],
    at: usize,
    link: usize,
    remaining: usize,
) -> usize
    requires { ListFits limits table.now at remaining }
    ensures { Filled (slots_from limits table.now remaining link) list.old at list.new result }
{
    // No walk shared with those of `saves`: after one that calls a closure, no proof knows what the closure wrote.
    if remaining == 0 {
        return at;
    }
    if link == 0 {
        return at;
    }
    if limits.slots < link {
        return at;
    }
    let row = words::read_row(table, link);
    let middle = list_from(limits, table, list, at, row.left as usize, remaining - 1);
    words::total::set_word(list, middle, link as u16);
    list_from(
        limits,
        table,
        list,
        middle + 1,
        row.right as usize,
        remaining - 1,
    )
}

// Lists the slots of a table that has as many as its labels held; refused by 10 where the list is shorter.
fn list_ready(limits: Limits, table: &[u16], list: &mut [u16]) -> Result<usize, Refusal>
    requires { ListReady limits table.now }
    ensures { Lists (listing_ready limits table.now list.old) (list_says result) list.new }
{
    if list.len() < table[1] as usize {
        return Err(Refusal::ShortList);
    }
    let root = table[0] as usize;
    let count = list_from(limits, table, list, 0, root, limits.depth);
    Ok(count)
}

// Lists the slots of a sound table; refused by 1, 2, 6, or 10 where the list is shorter than the labels held.
// Later words stay, and all words where it is refused.
pub fn listing_within(
    limits: Limits,
    table: &[u16],
    store: &[u8],
    list: &mut [u16],
) -> Result<usize, Refusal>
    requires { LimitsFit limits }
    ensures { Lists (listing_outcome limits table.now store.now list.old)
        (list_says result) list.new }
{
    verdicts::whole_table(limits, table, store)?;
    list_ready(limits, table, list)
}

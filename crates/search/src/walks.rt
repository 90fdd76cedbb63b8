// The walk from the root, and the search with its refusals.
ghost use Rattle.std.specs.Prelude.{◌≡◌};
ghost use Rattle.types.specs.Answers.{search_says};
ghost use Rattle.tables.specs.Steps.{steps};
ghost use Rattle.tables.specs.Outcomes.{walk_answer, search_outcome};
ghost use Rattle.words.specs.Limits.{LimitsFit, SizesFit};
ghost use Rattle.search.specs.Walks.{halted_at};

use nodes::Turn;
use std::cmp::Ordering;
use types::{Limits, Refusal, Searched};

// The answer where no node is visited: absent at an empty link, and else refused.
fn halted(
    link: usize,
    below: usize,
    above: usize,
    visits: usize,
    places: usize,
) -> Result<Searched, Refusal>
    ensures { result ≡ halted_at link below above visits places }
{
    if link != 0 {
        return Err(Refusal::BrokenWalk);
    }
    Ok(Searched::Absent {
        below,
        above,
        visits,
        places,
    })
}

// The walk from the link at the root. P and S stand in an array, by the side that goes by them, and S once more, so
// that it stands behind either. The last nodes where the walk went left and right, which are the nearest larger and the
// nearest smaller one, stand in another, by the index of the link that it took.
fn walk(
    limits: Limits,
    table: &[u16],
    store: &[u8],
    label: &[u8],
    root: usize,
) -> Result<Searched, Refusal>
    requires { SizesFit limits table.now store.now }
    ensures { search_says result
        ≡ walk_answer
        (steps limits table.now store.now label.now limits.depth root 1 1) }
{
    let mut link = root;
    let mut remaining = limits.depth;
    let mut places = 0;
    // Arrays are read and written by the side without a branch.
    let mut ends = [1, 1, 1];
    let mut near = [0, 0];
    // What is left is counted down, as `halts` takes it: a `for` would need an answer past its last node.
    while !nodes::halts(limits, table, link, remaining) {
        let row = words::read_row(table, link);
        let side = row.side as usize;
        let d = row.place as usize;
        let turn = Turn::of(side, d, ends[side], ends[side + 1]);
        let right = match turn {
            Turn::Left => false,
            Turn::Right => true,
            Turn::Compare => {
                let c = nodes::compare_row(limits, store, label, link, row);
                let place = c.place;
                places += place + 1 - d;
                match c.order {
                    Ordering::Less => {
                        ends[1] = place;
                        ends[2] = place;
                        false
                    }
                    Ordering::Equal => {
                        // Kept from the first reading, the value costs each search 1 to 3% more instructions.
                        let found = words::read_row(table, link);
                        return Ok(Searched::Found {
                            slot: link,
                            value: found.value,
                            visits: limits.depth - remaining + 1,
                            places,
                        });
                    }
                    Ordering::Greater => {
                        ends[0] = place;
                        true
                    }
                }
            }
        };
        near[usize::from(right)] = link;
        link = nodes::son_at(table, link, right) as usize;
        remaining -= 1;
    }
    halted(link, near[1], near[0], limits.depth - remaining, places)
}

// The search within these limits. Refuses a table or a store of another length, a label that is empty or too long,
// and a broken walk. Nothing is changed.
pub fn search_within(
    limits: Limits,
    table: &[u16],
    store: &[u8],
    label: &[u8],
) -> Result<Searched, Refusal>
    requires { LimitsFit limits }
    ensures { search_says result ≡ search_outcome limits table.now store.now label.now }
{
    lengths::with_label(limits, table, store, label)?;
    walk(limits, table, store, label, table[0] as usize)
}

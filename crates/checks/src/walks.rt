// The walks of the soundness test: over the tree, each node between the slots of its nearest smaller
// and larger node above, along the free chain, and over the unused rest.
ghost use Rattle.std.specs.Prelude.{◌≡◌};
ghost use Rattle.tables.specs.Sound.{unused_slots};
ghost use Rattle.words.specs.Limits.{SizesFit};
ghost use Rattle.checks.specs.Check.{check_tree, check_chain};
ghost use Rattle.checks.specs.Fits.{WalkFits, ChainFits};

use heights::Subtree;
use types::Limits;

// The subtree at a link, at most `remaining` nodes deep, between the nodes in the slots `below` and `above`, 0 for
// none, whose difference place is `apart`, 0 where one is missing: none if it is not sound.
// It ends at the first node that is not as it must be, and makes no call for a link 0.
pub fn check_tree(
    limits: Limits,
    table: &[u16],
    store: &[u8],
    remaining: usize,
    link: usize,
    below: usize,
    above: usize,
    apart: usize,
) -> Option<Subtree>
    requires { WalkFits limits table.now store.now remaining below above apart }
    ensures { result ≡ check_tree limits table.now store.now remaining link below above }
{
    if link == 0 {
        return Some(heights::EMPTY);
    }
    if remaining == 0 || limits.slots < link {
        return None;
    }
    let row = words::read_row(table, link);
    let gaps = nodechecks::node_gaps(limits, table, store, link, row, below, above, apart)?;
    if row.left == 0 && row.right == 0 {
        return heights::over(row.balance, heights::EMPTY, heights::EMPTY);
    }
    let mut left = heights::EMPTY;
    if row.left != 0 {
        let son = row.left as usize;
        left = check_tree(
            limits,
            table,
            store,
            remaining - 1,
            son,
            below,
            link,
            gaps.lower,
        )?;
    }
    let mut right = heights::EMPTY;
    if row.right != 0 {
        let son = row.right as usize;
        right = check_tree(
            limits,
            table,
            store,
            remaining - 1,
            son,
            link,
            above,
            gaps.upper,
        )?;
    }
    heights::over(row.balance, left, right)
}

// Whether the free chain from a link is exactly `count` slots long, each of them as freed and none above the high mark.
pub fn check_chain(
    limits: Limits,
    table: &[u16],
    store: &[u8],
    high: usize,
    count: usize,
    link: usize,
) -> bool
    requires { ChainFits limits table.now store.now high }
    ensures { result ≡ check_chain limits table.now store.now count link }
{
    let mut slot = link;
    for _ in 0..count {
        if slot < 1 || high < slot {
            return false;
        }
        let row = words::read_row(table, slot);
        if !nodechecks::freed_row(limits, store, slot, row) {
            return false;
        }
        slot = row.left as usize;
    }
    slot == 0
}

// Whether the slots above the high mark are zero.
pub fn unused_slots(limits: Limits, table: &[u16], store: &[u8], high: usize) -> bool
    requires { SizesFit limits table.now store.now }
    ensures { result ≡ unused_slots limits table.now store.now high }
{
    if limits.slots < high {
        return false;
    }
    zeros::words_zero(&table[4 + 8 * high..]) && zeros::bytes_zero(&store[limits.width * high..])
}

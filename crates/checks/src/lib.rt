// The soundness test of a table and its store: all words and bytes are as laid out, the nodes number the labels held,
// labels ascend, every node keeps the height rule and has its true balance, place and side, and the free chain holds
// exactly the other slots up to the high mark.
// It changes nothing, and ends at the first word, byte or node that is not as it must be.
#![tactic(auto)]

pub mod walks;

ghost use Rattle.std.specs.Prelude.{◌≡◌};
ghost use Rattle.words.specs.Limits.{SizesFit};
ghost use Rattle.checks.specs.Check.{sound_by_walks};

use types::Limits;

// The whole test.
pub fn sound_within(limits: Limits, table: &[u16], store: &[u8]) -> bool
    requires { SizesFit limits table.now store.now }
    ensures { result ≡ sound_by_walks limits table.now store.now }
{
    let held = table[1] as usize;
    let high = table[3] as usize;
    if high < held {
        return false;
    }
    if !walks::unused_slots(limits, table, store, high) {
        return false;
    }
    let root = table[0] as usize;
    let Some(tree) = walks::check_tree(limits, table, store, limits.depth, root, 0, 0, 0) else {
        return false;
    };
    let free = table[2] as usize;
    tree.count == held && walks::check_chain(limits, table, store, high, high - held, free)
}

// A node over its two sons, in the soundness test: the height rule, the true balance, and how many nodes there are.
#![tactic(auto)]

ghost use Rattle.std.specs.Prelude.{◌≡◌, Some};
ghost use Rattle.heights.specs.Over.{over};
ghost use Rattle.heights.specs.Fits.{SonsFit};

// A sound subtree: its height and the number of its nodes.
#[derive(Clone, Copy, Debug, PartialEq, Eq)]
pub struct Subtree {
    pub height: usize,
    pub count: usize,
}

// The subtree with no node.
pub const EMPTY: Subtree = Subtree {
    height: 0,
    count: 0,
};

// A node over two sound sons. A balance word is one more than what the right height has over the left one: that is the
// height rule too.
pub fn over(balance: u16, left: Subtree, right: Subtree) -> Option<Subtree>
    requires { SonsFit left right }
    ensures { result ≡ over balance (Some left) (Some right) }
{
    if 2 < balance {
        return None;
    }
    if left.height + balance as usize != right.height + 1 {
        return None;
    }
    Some(Subtree {
        height: left.height.max(right.height) + 1,
        count: left.count + right.count + 1,
    })
}

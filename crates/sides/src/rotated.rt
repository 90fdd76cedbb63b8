// The rows that a rotation stores, by the rows that it reads. `c` is the subtree's root; in every row the near son is
// on the left, so of the three nodes of a double rotation the near son is the lower one here, and c the upper one.
ghost use Rattle.std.specs.Prelude.{◌≡◌};
ghost use Rattle.sides.specs.Rotated.{low_once, high_once, outer_twice, inner_twice, top_twice};

use crate::rows::{EVEN, LEFT_TALLER, RIGHT_TALLER};
use crate::{doubles, rows};
use types::Row;

// The row of c below its near son, after one rotation.
pub fn low_once(flip: bool, parent: Row, son: Row) -> Row
    ensures { result ≡ low_once flip parent son }
{
    let low = rows::lowered(flip, parent, son);
    if son.balance == EVEN {
        rows::linked_row(low, son.right, parent.right, LEFT_TALLER)
    } else {
        rows::linked_row(low, son.right, parent.right, EVEN)
    }
}

// The row of the near son above c, after one rotation.
pub fn high_once(flip: bool, c: u16, parent: Row, son: Row) -> Row
    ensures { result ≡ high_once flip c parent son }
{
    let high = rows::raised(flip, parent, son);
    if son.balance == EVEN {
        rows::linked_row(high, son.left, c, RIGHT_TALLER)
    } else {
        rows::linked_row(high, son.left, c, EVEN)
    }
}

// The row of the near son, after a double rotation.
pub fn outer_twice(flip: bool, son: Row, middle: Row) -> Row
    ensures { result ≡ outer_twice flip son middle }
{
    let now = doubles::double_turn(middle.balance);
    rows::linked_row(
        rows::lowered(!flip, son, middle),
        son.left,
        middle.left,
        now.lower,
    )
}

// The row of c, after a double rotation.
pub fn inner_twice(flip: bool, parent: Row, son: Row, middle: Row) -> Row
    ensures { result ≡ inner_twice flip parent son middle }
{
    let now = doubles::double_turn(middle.balance);
    let once = rows::raised(!flip, son, middle);
    rows::linked_row(
        rows::lowered(flip, parent, once),
        middle.right,
        parent.right,
        now.upper,
    )
}

// The row of the node that rises, after a double rotation.
pub fn top_twice(flip: bool, c: u16, parent: Row, son: Row, middle: Row) -> Row
    ensures { result ≡ top_twice flip c parent son middle }
{
    let now = doubles::double_turn(middle.balance);
    let once = rows::raised(!flip, son, middle);
    rows::linked_row(rows::raised(flip, parent, once), parent.left, c, now.middle)
}

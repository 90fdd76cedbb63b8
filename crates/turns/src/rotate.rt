// Rotations of a subtree and the balance of its root. `c` is the root's slot; in every row the near son is on the left.
ghost use Rattle.std.specs.Prelude.{◌≡◌};
ghost use Rattle.turns.specs.Turns.{Yields, with_son, turn_once, put_twice, turn_twice, turn, lean, grow, shrink};

use crate::Rebuilt;
use sides::rows::{EVEN, LEFT_TALLER, RIGHT_TALLER};
use sides::{rotated, rows};
use types::Row;

// Gives c a new near son: one link of its row is stored.
pub fn with_son(table: &mut [u16], flip: bool, c: u16, son: u16)
    ensures { table.new ≡ with_son flip table.old c son }
{
    let base = words::total::row_start(c);
    if flip {
        words::total::set_word(table, base + 1, son);
    } else {
        words::total::set_word(table, base, son);
    }
}

// One rotation: the near son rises over c. Where that son was even, the subtree stays as tall.
pub fn turn_once(table: &mut [u16], flip: bool, c: u16) -> Rebuilt
    ensures { Yields (turn_once flip table.old c) table.new result }
{
    let parent = rows::row_on(table, flip, c);
    let son = rows::row_on(table, flip, parent.left);
    rows::put_on(table, flip, c, rotated::low_once(flip, parent, son));
    rows::put_on(
        table,
        flip,
        parent.left,
        rotated::high_once(flip, c, parent, son),
    );
    Rebuilt {
        link: parent.left,
        tall: son.balance == EVEN,
    }
}

// Stores the three rows of a double rotation.
pub fn put_twice(table: &mut [u16], flip: bool, c: u16, parent: Row, son: Row, middle: Row)
    ensures { table.new ≡ put_twice flip table.old c parent son middle }
{
    rows::put_on(
        table,
        flip,
        parent.left,
        rotated::outer_twice(flip, son, middle),
    );
    rows::put_on(
        table,
        flip,
        c,
        rotated::inner_twice(flip, parent, son, middle),
    );
    rows::put_on(
        table,
        flip,
        son.right,
        rotated::top_twice(flip, c, parent, son, middle),
    );
}

// A double rotation: the far son of the near son rises over both.
pub fn turn_twice(table: &mut [u16], flip: bool, c: u16) -> Rebuilt
    ensures { Yields (turn_twice flip table.old c) table.new result }
{
    let parent = rows::row_on(table, flip, c);
    let son = rows::row_on(table, flip, parent.left);
    let middle = rows::row_on(table, flip, son.right);
    put_twice(table, flip, c, parent, son, middle);
    Rebuilt {
        link: son.right,
        tall: false,
    }
}

// Turns c, which is out of balance by two on the near side.
pub fn turn(table: &mut [u16], flip: bool, c: u16) -> Rebuilt
    ensures { Yields (turn flip table.old c) table.new result }
{
    let parent = rows::row_on(table, flip, c);
    let son = rows::row_on(table, flip, parent.left);
    if son.balance == RIGHT_TALLER {
        turn_twice(table, flip, c)
    } else {
        turn_once(table, flip, c)
    }
}

// Makes good for c that its near side has become taller by one against the far side.
pub fn lean(table: &mut [u16], flip: bool, c: u16) -> Rebuilt
    ensures { Yields (lean flip table.old c) table.new result }
{
    let row = rows::row_on(table, flip, c);
    if row.balance == RIGHT_TALLER {
        rows::put_on(
            table,
            flip,
            c,
            rows::linked_row(row, row.left, row.right, EVEN),
        );
        return Rebuilt {
            link: c,
            tall: false,
        };
    }
    if row.balance == EVEN {
        rows::put_on(
            table,
            flip,
            c,
            rows::linked_row(row, row.left, row.right, LEFT_TALLER),
        );
        return Rebuilt {
            link: c,
            tall: true,
        };
    }
    turn(table, flip, c)
}

// Puts c over its near son, which was inserted into.
pub fn grow(table: &mut [u16], flip: bool, c: u16, son: Rebuilt) -> Rebuilt
    ensures { Yields (grow flip table.old c son) table.new result }
{
    let tall = son.tall;
    with_son(table, flip, c, son.link);
    if tall {
        lean(table, flip, c)
    } else {
        Rebuilt {
            link: c,
            tall: false,
        }
    }
}

// Puts c over its near son, which was deleted from.
pub fn shrink(table: &mut [u16], flip: bool, c: u16, son: Rebuilt) -> Rebuilt
    ensures { Yields (shrink flip table.old c son) table.new result }
{
    let tall = son.tall;
    with_son(table, flip, c, son.link);
    if tall {
        Rebuilt {
            link: c,
            tall: true,
        }
    } else {
        lean(table, !flip, c)
    }
}

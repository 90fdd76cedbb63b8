// Insert and delete along a path of sides from the root, by a table's words alone: no label is lent to them.
// A path is a number: its lowest bit is the first side, 1 for right. `rooted` sets the root that they leave.
// Every function takes any table.
#![tactic(auto)]

ghost use Rattle.std.specs.Prelude.{◌≡◌, set};
ghost use Rattle.turns.specs.Turns.{Yields};
ghost use Rattle.slots.specs.Slots.{with_root_place};
ghost use Rattle.paths.specs.Paths.{flip_of, insert_along, Pops, pop_least, put_least, cut, delete_along};

use sides::{Fields, rows};
use turns::{Rebuilt, rotate};

// A subtree without its smallest node, and that node's slot.
#[derive(Clone, Copy)]
pub struct Popped {
    pub rest: Rebuilt,
    pub least: u16,
}

// Whether the first side of a path is the right one.
pub fn flip_of(path: usize) -> bool
    ensures { result ≡ flip_of path }
{
    path % 2 == 1
}

// Hangs the leaf in a slot at the end of a path from c, so many sides long, and puts the nodes above it in balance.
pub fn insert_along(table: &mut [u16], length: usize, path: usize, c: u16, slot: u16) -> Rebuilt
    ensures { Yields (insert_along length path table.old c slot) table.new result }
{
    if length == 0 {
        return Rebuilt {
            link: slot,
            tall: true,
        };
    }
    let flip = flip_of(path);
    let row = rows::row_on(table, flip, c);
    let deeper = insert_along(table, length - 1, path / 2, row.left, slot);
    rotate::grow(table, flip, c, deeper)
}

// Takes the smallest node out of the subtree at c, which is at most so high.
pub fn pop_least(table: &mut [u16], height: usize, c: u16) -> Popped
    ensures { Pops (pop_least height table.old c) table.new result }
{
    if height == 0 {
        return Popped {
            rest: Rebuilt {
                link: 0,
                tall: true,
            },
            least: 0,
        };
    }
    let row = words::total::row_of(table, c);
    if row.left == 0 {
        return Popped {
            rest: Rebuilt {
                link: row.right,
                tall: false,
            },
            least: c,
        };
    }
    let deeper = pop_least(table, height - 1, row.left);
    let rest = rotate::shrink(table, false, c, deeper.rest);
    Popped {
        rest,
        least: deeper.least,
    }
}

// Puts the smallest node of the right subtree in the place of c, with its prefix fields there.
pub fn put_least(table: &mut [u16], c: u16, least: u16, fields: Fields)
    ensures { table.new ≡ put_least table.old c least fields.place fields.side }
{
    let row = words::total::row_of(table, c);
    let linked = rows::linked_row(
        words::total::row_of(table, least),
        row.left,
        row.right,
        row.balance,
    );
    words::total::put_row(table, least, rows::prefixed(linked, fields));
}

// Takes c out of its subtree. The fields are those of the node that takes its place, where it has two sons.
pub fn cut(table: &mut [u16], height: usize, c: u16, fields: Fields) -> Rebuilt
    ensures { Yields (cut height table.old c fields.place fields.side) table.new result }
{
    let row = words::total::row_of(table, c);
    if row.left == 0 {
        return Rebuilt {
            link: row.right,
            tall: false,
        };
    }
    if row.right == 0 {
        return Rebuilt {
            link: row.left,
            tall: false,
        };
    }
    let popped = pop_least(table, height, row.right);
    put_least(table, c, popped.least, fields);
    rotate::shrink(table, true, popped.least, popped.rest)
}

// Takes out the node at the end of a path from c, and puts the nodes above it in balance.
pub fn delete_along(
    table: &mut [u16],
    length: usize,
    path: usize,
    height: usize,
    c: u16,
    fields: Fields,
) -> Rebuilt
    ensures { Yields (delete_along length path height table.old c fields.place fields.side) table.new result }
{
    if length == 0 {
        return cut(table, height, c, fields);
    }
    let flip = flip_of(path);
    let row = rows::row_on(table, flip, c);
    let deeper = delete_along(table, length - 1, path / 2, height, row.left, fields);
    rotate::shrink(table, flip, c, deeper)
}

// Sets the tree's root, and its place.
pub fn rooted(table: &mut [u16], top: Rebuilt)
    ensures { table.new ≡ with_root_place (set table.old 0 top.link) 1 }
{
    words::total::set_word(table, 0, top.link);
    slots::set_root_place(table, 1);
}

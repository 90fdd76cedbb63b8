// Rows seen from a side, and the prefix fields of two nodes that a rotation exchanges.
ghost use Rattle.std.specs.Prelude.{◌≡◌};
ghost use Rattle.sides.specs.Rows.{mirrored, flipped, row_on, put_on, linked_row, prefixed};
ghost use Rattle.sides.specs.Rows.{to_parent, exchanges, raised, lowered};

use crate::Fields;
use types::Row;

// The word of a balance: a number of the table's format, which any word may hold, so no enum.
pub const LEFT_TALLER: u16 = 0;

pub const EVEN: u16 = 1;

pub const RIGHT_TALLER: u16 = 2;

// A balance seen from the other side.
pub fn mirrored(balance: u16) -> u16
    ensures { result ≡ mirrored balance }
{
    match balance {
        LEFT_TALLER => RIGHT_TALLER,
        RIGHT_TALLER => LEFT_TALLER,
        _ => balance,
    }
}

// A row with its sides exchanged, where `flip` says so.
pub fn flip_row(flip: bool, row: Row) -> Row
    ensures { result ≡ flipped flip row }
{
    if flip {
        Row {
            left: row.right,
            right: row.left,
            balance: mirrored(row.balance),
            ..row
        }
    } else {
        row
    }
}

// The row of a slot, with its near son on the left.
pub fn row_on(table: &[u16], flip: bool, slot: u16) -> Row
    ensures { result ≡ row_on flip table.now slot }
{
    flip_row(flip, words::total::row_of(table, slot))
}

// Stores a row whose near son is on the left.
pub fn put_on(table: &mut [u16], flip: bool, slot: u16, row: Row)
    ensures { table.new ≡ put_on flip table.old slot row }
{
    words::total::put_row(table, slot, flip_row(flip, row));
}

// A row with other links and another balance.
pub fn linked_row(node: Row, left: u16, right: u16, balance: u16) -> Row
    ensures { result ≡ linked_row node left right balance }
{
    Row {
        left,
        right,
        balance,
        ..node
    }
}

// A row with other prefix fields.
pub fn prefixed(row: Row, fields: Fields) -> Row
    ensures { result ≡ prefixed row fields.place fields.side }
{
    Row {
        place: fields.place,
        side: fields.side,
        ..row
    }
}

// The side word that points from the near son to its parent: a left son's successor, a right son's predecessor.
pub fn to_parent(flip: bool) -> u16
    ensures { result ≡ to_parent flip }
{
    if flip { 0 } else { 1 }
}

// Whether a rotation of the near son over its parent exchanges their prefix fields: the son's side points to the
// parent, and its place is above the parent's. Of two equal places a right son's parent keeps its own where its side is
// predecessor: a tie goes there.
pub fn exchanges(flip: bool, parent: Row, son: Row) -> bool
    ensures { result ≡ exchanges flip parent son }
{
    son.side == to_parent(flip)
        && (parent.place < son.place || (parent.place == son.place && (!flip || parent.side != 0)))
}

// The son's row with the fields that it has above its parent.
pub fn raised(flip: bool, parent: Row, son: Row) -> Row
    ensures { result ≡ raised flip parent son }
{
    if exchanges(flip, parent, son) {
        prefixed(
            son,
            Fields {
                place: parent.place,
                side: parent.side,
            },
        )
    } else {
        son
    }
}

// The parent's row with the fields that it has below its son.
pub fn lowered(flip: bool, parent: Row, son: Row) -> Row
    ensures { result ≡ lowered flip parent son }
{
    if exchanges(flip, parent, son) {
        prefixed(
            parent,
            Fields {
                place: son.place,
                side: to_parent(!flip),
            },
        )
    } else {
        parent
    }
}

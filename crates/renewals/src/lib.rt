// Prefix fields renewed by labels, before a node is taken out: of the nodes that had it as a neighbour.
#![tactic(auto)]

ghost use Rattle.std.specs.Prelude.{◌≡◌, cond};
ghost use Rattle.tables.specs.Words.{row_at};
ghost use Rattle.fields.specs.Fits.{RowsFit};
ghost use Rattle.fields.specs.Between.{fields_between};
ghost use Rattle.renewals.specs.Renewals.{renewed, renewed_spine, least_from, renewed_spines};
ghost use Rattle.renewals.specs.Renewals.{renewed_son, renewed_around};

use sides::Fields;
use types::Limits;

// Renews the prefix fields of the node in a slot.
pub fn renew(limits: Limits, table: &mut [u16], store: &[u8], slot: u16, below: u16, above: u16)
    requires { RowsFit limits table.old }
    ensures table_after { table.new ≡ renewed limits table.old store.now slot below above }
    ensures rows_fit { RowsFit limits table.new }
{
    let fields = fields::between(limits, table, store, slot, below, above);
    let row = words::total::row_of(table, slot);
    words::total::put_row(table, slot, sides::rows::prefixed(row, fields));
}

// Renews the node in a slot between the nodes in the slots outer and least: least above, or below where flipped.
pub fn renew_beside(
    limits: Limits,
    table: &mut [u16],
    store: &[u8],
    flip: bool,
    slot: u16,
    outer: u16,
    least: u16,
)
    requires { RowsFit limits table.old }
    ensures table_after { table.new
        ≡ renewed limits table.old store.now slot
        (cond flip least outer) (cond flip outer least) }
    ensures rows_fit { RowsFit limits table.new }
{
    if flip {
        renew(limits, table, store, slot, least, outer);
    } else {
        renew(limits, table, store, slot, outer, least);
    }
}

// Renews the spine from a slot towards the node in the slot least, with so many nodes remaining at most: to the right,
// or to the left where flipped. outer is the slot of the neighbour on the other side.
pub fn renew_spine(
    limits: Limits,
    table: &mut [u16],
    store: &[u8],
    flip: bool,
    remaining: usize,
    slot: u16,
    outer: u16,
    least: u16,
)
    requires { RowsFit limits table.old }
    ensures table_after { table.new
        ≡ renewed_spine limits flip remaining table.old store.now slot outer least }
    ensures rows_fit { RowsFit limits table.new }
{
    if remaining == 0 {
        return;
    }
    if slot == 0 {
        return;
    }
    if slot == least {
        return;
    }
    let row = sides::rows::row_on(table, flip, slot);
    renew_beside(limits, table, store, flip, slot, outer, least);
    renew_spine(
        limits,
        table,
        store,
        flip,
        remaining - 1,
        row.right,
        slot,
        least,
    );
}

// The smallest node of the subtree at a slot, with so many nodes remaining at most on the way down.
pub fn least_from(remaining: usize, table: &[u16], slot: u16) -> u16
    ensures { result ≡ least_from remaining table.now slot }
{
    if remaining == 0 {
        return slot;
    }
    let row = words::total::row_of(table, slot);
    if row.left == 0 {
        return slot;
    }
    least_from(remaining - 1, table, row.left)
}

// Renews both spines around a node c with two sons; least is the smallest node of its right subtree.
pub fn renew_spines(
    limits: Limits,
    table: &mut [u16],
    store: &[u8],
    c: u16,
    below: u16,
    above: u16,
    least: u16,
)
    requires { RowsFit limits table.old }
    ensures { table.new
        ≡ renewed_spines limits table.old store.now c below above least }
{
    let row = words::total::row_of(table, c);
    renew_spine(
        limits,
        table,
        store,
        false,
        limits.depth,
        row.left,
        below,
        least,
    );
    renew_spine(
        limits,
        table,
        store,
        true,
        limits.depth,
        row.right,
        above,
        least,
    );
}

// Renews an only son, where there is one.
pub fn renew_son(limits: Limits, table: &mut [u16], store: &[u8], son: u16, below: u16, above: u16)
    requires { RowsFit limits table.old }
    ensures { table.new ≡ renewed_son limits table.old store.now son below above }
{
    if son != 0 {
        renew(limits, table, store, son, below, above);
    }
}

// Renews the nodes around c, which has two sons. The fields are those of the node that takes its place.
pub fn renew_two(
    limits: Limits,
    table: &mut [u16],
    store: &[u8],
    c: u16,
    below: u16,
    above: u16,
) -> Fields
    requires { RowsFit limits table.old }
    ensures value { result ≡ fields_between limits table.old store.now
        (least_from limits.depth table.old (row_at table.old c).right) below above }
    ensures table_after { table.new ≡ renewed_spines limits table.old store.now c below above
        (least_from limits.depth table.old (row_at table.old c).right) }
{
    let row = words::total::row_of(table, c);
    let least = least_from(limits.depth, table, row.right);
    let next = fields::between(limits, table, store, least, below, above);
    renew_spines(limits, table, store, c, below, above, least);
    next
}

// Renews the nodes around c, which is to be taken out. The fields are those of the node that takes its place, where it
// has two sons.
pub fn renew_around(
    limits: Limits,
    table: &mut [u16],
    store: &[u8],
    c: u16,
    below: u16,
    above: u16,
) -> Fields
    requires { RowsFit limits table.old }
    ensures value { result ≡ (renewed_around limits table.old store.now c below above).next }
    ensures table_after { table.new
        ≡ (renewed_around limits table.old store.now c below above).table }
{
    let row = words::total::row_of(table, c);
    if row.left == 0 {
        renew_son(limits, table, store, row.right, below, above);
        return Fields { place: 0, side: 0 };
    }
    if row.right == 0 {
        renew_son(limits, table, store, row.left, below, above);
        return Fields { place: 0, side: 0 };
    }
    renew_two(limits, table, store, c, below, above)
}

// The label in a slot, and the prefix fields of a node between two others, by their labels.
#![tactic(auto)]

ghost use Rattle.std.specs.Prelude.{◌≡◌, ◌≤◌, max, length};
ghost use Rattle.labels.specs.Labels.{difference_place};
ghost use Rattle.labels.specs.Neighbours.{held, difference};
ghost use Rattle.tables.specs.Words.{entry_at};
ghost use Rattle.tables.specs.Prefix.{side_by};
ghost use Rattle.gaps.specs.Windows.{below_in, above_in};
ghost use Rattle.fields.specs.Fits.{RowsFit};
ghost use Rattle.fields.specs.Between.{fields_between};

use sides::Fields;
use types::Limits;

// The label of the node in a slot.
pub fn label_in<'a>(limits: Limits, table: &[u16], store: &'a [u8], slot: u16) -> &'a [u8]
    requires { RowsFit limits table.now }
    ensures result_value { result.now ≡ (entry_at limits table.now store.now slot).label }
    ensures result_len_bound { length result.now ≤ limits.width }
{
    words::total::held_label(limits, table, store, slot)
}

// The difference place of two labels.
pub fn difference_place(x: &[u8], y: &[u8]) -> u16
    requires { length y.now ≤ 4096 }
    ensures { result ≡ difference_place x.now y.now }
{
    eights::compare(x, y, 1).place as u16
}

// The difference place of a label with the node in the slot below, 0 for none.
pub fn difference_below(
    limits: Limits,
    table: &[u16],
    store: &[u8],
    below: u16,
    label: &[u8],
) -> u16
    requires rows_fit { RowsFit limits table.now }
    requires label_len_bound { length label.now ≤ limits.width }
    ensures { result
        ≡ difference (below_in limits table.now store.now below) (held label.now) }
{
    if below == 0 {
        return 0;
    }
    difference_place(label_in(limits, table, store, below), label)
}

// The difference place of a label with the node in the slot above, 0 for none. Beside the one below the labels stand the
// other way round and only one needs a bound: a side as one more argument would be no plainer.
pub fn difference_above(
    limits: Limits,
    table: &[u16],
    store: &[u8],
    label: &[u8],
    above: u16,
) -> u16
    requires { RowsFit limits table.now }
    ensures { result
        ≡ difference (held label.now) (above_in limits table.now store.now above) }
{
    if above == 0 {
        return 0;
    }
    difference_place(label, label_in(limits, table, store, above))
}

// The prefix fields by the difference places with both neighbours; the root's place counts as 0.
pub fn by_differences(lower: u16, upper: u16) -> Fields
    ensures place_value { result.place ≡ max lower upper }
    ensures side_value { result.side ≡ side_by lower upper }
{
    if upper <= lower {
        Fields {
            place: lower,
            side: 0,
        }
    } else {
        Fields {
            place: upper,
            side: 1,
        }
    }
}

// The prefix fields of the node in a slot, between the nodes in the slots below and above, 0 for none.
pub fn between(
    limits: Limits,
    table: &[u16],
    store: &[u8],
    slot: u16,
    below: u16,
    above: u16,
) -> Fields
    requires { RowsFit limits table.now }
    ensures { result ≡ fields_between limits table.now store.now slot below above }
{
    let label = label_in(limits, table, store, slot);
    let lower = difference_below(limits, table, store, below, label);
    let upper = difference_above(limits, table, store, label, above);
    by_differences(lower, upper)
}

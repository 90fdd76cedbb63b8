// The lent memory: the rows of a table (the eight words of a slot, read and written as one value), and the parts of a
// store. Slots are counted from 1.
#![tactic(auto)]

pub mod charge;
pub mod parts;
pub mod runs;
pub mod total;

ghost use Rattle.std.specs.Prelude.{◌≡◌, ℕ, ◌<◌};
ghost use Rattle.tables.specs.Words.{row_at};
ghost use Rattle.words.specs.Rows.{put_row, RowBy, HasRow};

use types::Row;

// A row by its eight words.
#[inline(always)]
fn row_by<F: Fn(usize) -> u16>(word: F) -> Row
    requires { (i : ℕ) → i < 8 → F.pre word i }
    ensures { RowBy (F.post word) result }
{
    Row {
        left: word(0),
        right: word(1),
        place: word(2),
        side: word(3),
        balance: word(4),
        len: word(5),
        value: word(6),
        charge: word(7),
    }
}

// The row of a slot.
pub fn read_row(table: &[u16], slot: usize) -> Row
    requires { HasRow table.now slot }
    ensures { result ≡ row_at table.now slot }
{
    let base = 4 + 8 * (slot - 1);
    row_by(|i| table[base + i])
}

// Stores the row of a slot; every other word stays.
#[tactic(auto, unfolding(crate::specs::Rows::put_row))]
pub fn write_row(table: &mut [u16], slot: usize, row: Row)
    requires { HasRow table.old slot }
    ensures { table.new ≡ put_row table.old slot row }
{
    let base = 4 + 8 * (slot - 1);
    table[base] = row.left;
    table[base + 1] = row.right;
    table[base + 2] = row.place;
    table[base + 3] = row.side;
    table[base + 4] = row.balance;
    table[base + 5] = row.len;
    table[base + 6] = row.value;
    table[base + 7] = row.charge;
}

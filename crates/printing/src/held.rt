// The lines of the labels that a table holds.
use index::Hub;
use std::marker::Model;
use texts::Text;

// A table and its store, lent to be read.
#[derive(Drop)]
pub(crate) struct Held<'a> {
    pub(crate) table: &'a [u16],
    pub(crate) store: &'a [u8],
}

impl<'a> Model for Held<'a> {
    ghost use Rattle.tables.specs.Written.{Memory, lent};

    ghost Value = { Memory };

    ghost view = { λ held. lent held.table.now held.store.now };
}

impl Held<'_> {
    ghost use Rattle.std.specs.Prelude.{map, ◌+◌, ◌*◌, ◌≤◌, length};
    ghost use Rattle.types.specs.Sizes.{hub};
    ghost use Rattle.texts.specs.Puts.{Puts};
    ghost use Rattle.printouts.specs.Printouts.{label_line, lines_for, label_lines};
    ghost use Rattle.printouts.specs.Rooms.{line_room};
    ghost use Rattle.printing.specs.Prints.{shown_at};

    // Puts a line for each label held, in ascending order. Memory that the listing refuses has none.
    pub(crate) fn put_labels<const N: usize>(&self, out: &mut Text<N>)
        requires { length out.old + line_room * hub.slots ≤ N }
        ensures { Puts out.old (label_lines self.now) (line_room * hub.slots) out.new }
    {
        let mut list = [0; 512];
        let answer = index::listing::<Hub>(self.table, self.store, &mut list);
        if let Ok(count) = answer {
            self.put_lines(&list[..count], out);
        }
    }

    // Puts the lines of the labels in these slots.
    fn put_lines<const N: usize>(&self, slots: &[u16], out: &mut Text<N>)
        requires { length out.old + line_room * length slots.now ≤ N }
        ensures { Puts out.old (lines_for (map (shown_at self.now) slots.now))
            (line_room * length slots.now) out.new }
    {
        for slot in slots {
            self.put_slot(*slot, out);
        }
    }

    // Puts the line of the label in a slot.
    fn put_slot<const N: usize>(&self, slot: u16, out: &mut Text<N>)
        requires { length out.old + line_room ≤ N }
        ensures { Puts out.old (label_line (shown_at self.now slot)) line_room out.new }
    {
        let row = words::total::row_of(self.table, slot);
        let label = index::view::<Hub>(self.table, self.store, slot as usize);
        printouts::put_line(slot, row.value, label, out);
    }
}

// The printing of a roster: it goes into a table, and the answer's line and a line for each label held, in ascending
// order, are put behind a text. Lent buffers have a module of their own, and so have reading and writing.
#![tactic(auto)]

mod held;
mod lent;
pub mod pipes;

ghost use Rattle.std.specs.Prelude.{◌+◌, ◌≤◌, length};
ghost use Rattle.types.specs.Sizes.{hub};
ghost use Rattle.rfc4180.specs.Rosters.{roster_outcome};
ghost use Rattle.texts.specs.Puts.{Puts};
ghost use Rattle.printouts.specs.Printouts.{printout};
ghost use Rattle.printouts.specs.Rooms.{print_room};
ghost use Rattle.printing.specs.Prints.{PutsPrintout};

use held::Held;
use index::Hub;
pub use lent::{print, print_on};
use texts::Text;

// Puts the printout of a roster that goes into a fresh table.
pub fn put_printout<const N: usize>(text: &[u8], out: &mut Text<N>)
    requires { length out.old + print_room ≤ N }
    ensures { Puts out.old (printout text.now) print_room out.new }
{
    let mut table = [0; 4100];
    let mut store = [0; 32768];
    let _ = index::layout::<Hub>(&mut table, &mut store);
    put_printout_on(&mut table, &mut store, text, out);
}

// Puts the printout of a roster that goes into lent memory of any length and content.
pub fn put_printout_on<const N: usize>(
    table: &mut [u16],
    store: &mut [u8],
    text: &[u8],
    out: &mut Text<N>,
)
    requires { length out.old + print_room ≤ N }
    ensures { PutsPrintout (roster_outcome hub table.old store.old text.now)
        out.old table.new store.new out.new }
{
    let answer = index::take_roster(table, store, text);
    printouts::put_answer(answer, out);
    Held { table, store }.put_labels(out);
}

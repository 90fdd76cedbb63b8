// The shell over the label index: it takes the bytes of an input as they come, and the input's end, and puts what it
// says behind a text. Reading and writing have a module of their own, and so has a caller that keeps its memory.
#![tactic(auto)]

mod begun;
mod lent;
pub mod pipes;

use keeps::Line;
pub use lent::{Progress, finish, take};
use std::marker::Model;
use texts::Text;

// What is kept between two reads: the lent memory of the index, and the line that has begun.
#[derive(Drop)]
pub struct Shell<'a> {
    table: &'a mut [u16],
    store: &'a mut [u8],
    line: Line,
}

impl<'a> Model for Shell<'a> {
    ghost use Rattle.inputs.specs.Reads.{Shell as Kept};

    ghost Value = { Kept };

    ghost use Rattle.tables.specs.Written.{lent};

    ghost view = { λ s. record { memory = lent s.table.now s.store.now; line = s.line } };
}

impl<'a> Shell<'a> {
    ghost use Rattle.std.specs.Prelude.{◌≡◌, ◌+◌, ◌*◌, ◌≤◌, [], length};
    ghost use Rattle.tables.specs.Written.{lent};
    ghost use Rattle.inputs.specs.Reads.{after, replied, ended};
    ghost use Rattle.shell.specs.Shells.{progress_of};

    // The shell over lent memory, with no line that has begun.
    pub fn new(table: &'a mut [u16], store: &'a mut [u8]) -> Self
        ensures { result ≡ record { memory = lent table.old store.old; line = [] } }
    {
        Shell {
            table,
            store,
            line: Line::new(),
        }
    }

    // Takes the next bytes of the input: answers the lines that they end, and keeps the one that they begin. The
    // answers' lines have room, 96 bytes for each byte.
    pub fn take<const N: usize>(&mut self, bytes: &[u8], out: &mut Text<N>)
        requires { length out.old + 96 * length bytes.now ≤ N }
        ensures said { progress_of self.new out.new ≡ after (progress_of self.old out.old) bytes.now }
        ensures room { length out.new ≤ length out.old + 96 * length bytes.now }
    {
        for byte in bytes {
            begun::take_byte(self.table, self.store, &mut self.line, *byte, out);
        }
    }

    // The input's end: answers the line that has begun, if it has a byte.
    pub fn finish<const N: usize>(&mut self, out: &mut Text<N>)
        requires { length out.old + 96 ≤ N }
        ensures said { progress_of self.new out.new ≡ replied out.old (ended self.old) }
        ensures room { length out.new ≤ length out.old + 96 }
    {
        begun::end(self.table, self.store, &mut self.line, out);
    }
}

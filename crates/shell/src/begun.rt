// The line that has begun: what a byte of the input and the input's end make of it, and what they say.
ghost use Rattle.std.specs.Prelude.{◌+◌, ◌≤◌, length};
ghost use Rattle.lines.specs.Commands.{asks};
ghost use Rattle.inputs.specs.Inputs.{reply_to};
ghost use Rattle.inputs.specs.Reads.{next, replied, ended};
ghost use Rattle.shell.specs.Shells.{shell_of, progress_of, Says};

use keeps::Line;
use texts::Text;

// Takes a byte: a byte 10 ends the line, which is answered, and any other is kept.
#[tactic(auto, unfolding(inputs::specs::Reads::next))]
pub fn take_byte<const N: usize>(
    table: &mut [u16],
    store: &mut [u8],
    line: &mut Line,
    byte: u8,
    out: &mut Text<N>,
)
    requires { length out.old + 96 ≤ N }
    ensures { Says out.old (next (progress_of (shell_of table.old store.old line.old) out.old) byte)
        (shell_of table.new store.new line.new) out.new }
{
    if byte == b'\n' {
        answer(table, store, line, out);
    } else {
        line.push(byte);
    }
}

// The input's end: answers the line, if it has a byte.
#[tactic(auto, unfolding(inputs::specs::Reads::ended))]
pub fn end<const N: usize>(table: &mut [u16], store: &mut [u8], line: &mut Line, out: &mut Text<N>)
    requires { length out.old + 96 ≤ N }
    ensures { Says out.old (replied out.old (ended (shell_of table.old store.old line.old)))
        (shell_of table.new store.new line.new) out.new }
{
    let begun = !line.bytes().is_empty();
    if begun {
        answer(table, store, line, out);
    }
}

// Answers the line: its answer's line is put, and nothing is kept of it.
fn answer<const N: usize>(table: &mut [u16], store: &mut [u8], line: &mut Line, out: &mut Text<N>)
    requires { length out.old + 96 ≤ N }
    ensures { Says out.old
        (replied out.old (reply_to (shell_of table.old store.old line.old).memory (asks line.old)))
        (shell_of table.new store.new line.new) out.new }
{
    replies::reply(table, store, line.bytes(), out);
    *line = Line::new();
}

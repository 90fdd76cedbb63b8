// What is said to a line: the call that it asks is made, and its answer's line is put behind a text.
#![tactic(auto)]

ghost use Rattle.std.specs.Prelude.{◌≡◌, ◌+◌, ◌≤◌, length};
ghost use Rattle.tables.specs.Written.{lent};
ghost use Rattle.lines.specs.Commands.{asks};
ghost use Rattle.inputs.specs.Inputs.{reply_to};
ghost use Rattle.replies.specs.Replies.{reply_of, Replies};

use index::Hub;
use lines::Command;
use texts::{Said, Text};

// Answers a line: puts its answer's line.
pub fn reply<const N: usize>(table: &mut [u16], store: &mut [u8], line: &[u8], out: &mut Text<N>)
    requires { length out.old + 96 ≤ N }
    ensures { Replies (reply_to (lent table.old store.old) (asks line.now))
        out.old table.new store.new out.new }
{
    let said = ask(table, store, line);
    out.put_said(said);
}

// Does what a line asks, if it asks something.
#[tactic(auto, unfolding(inputs::specs::Inputs::reply_to))]
fn ask(table: &mut [u16], store: &mut [u8], line: &[u8]) -> Option<Said>
    ensures { reply_of result table.new store.new
        ≡ reply_to (lent table.old store.old) (asks line.now) }
{
    let command = lines::command_of(line)?;
    match command {
        Command::Insert { label, value } => {
            Some(Said::Update(index::insert::<Hub>(table, store, label, value)))
        }
        Command::Delete { label } => Some(Said::Update(index::delete::<Hub>(table, store, label))),
        Command::Search { label } => Some(Said::Search(index::search::<Hub>(table, store, label))),
    }
}

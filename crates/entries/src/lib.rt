// An entry of a saved file: a label's length, its bytes and its value, written into a lent output from a position on.
#![tactic(auto)]

pub mod groups;

ghost use Rattle.std.specs.Prelude.{◌≡◌, ◌^◌, ◌<◌, length};
ghost use Rattle.words.specs.Filled.{Filled, HasRoom};
ghost use Rattle.files.specs.Files.{entry_of};

// How many bytes the entry of a label with its value takes.
pub fn entry_length(label: &[u8], value: u16) -> usize
    requires { length (entry_of label.now value) < 2 ^ 64 }
    ensures { result ≡ length (entry_of label.now value) }
{
    groups::count(label.len()) + (label.len() + groups::count(value as usize))
}

// Writes the entry of a label with its value, and gives the next position.
pub fn put_entry(output: &mut [u8], at: usize, label: &[u8], value: u16) -> usize
    requires { HasRoom (entry_of label.now value) at output.old }
    ensures { Filled (entry_of label.now value) output.old at output.new result }
{
    let start = groups::put(output, at, label.len());
    let end = words::runs::put_bytes(output, start, label);
    groups::put(output, end, value as usize)
}

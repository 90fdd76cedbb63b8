// The shell for a caller whose memory, line and buffer are its own: a call borrows them, and its contract says what
// each of them holds then.
ghost use Rattle.std.specs.Prelude.{◌≡◌, ◌++◌, ◌+◌, ◌*◌, ◌≤◌, length, take};
ghost use Rattle.inputs.specs.Reads.{next, taken, ended};
ghost use Rattle.shell.specs.Shells.{shell_of};
ghost use Rattle.shell.specs.Lent.{progress_in, Ends};

use crate::begun;
use keeps::Line;
use texts::Text;

// What is kept of the line that has begun, and where the text that was put ends.
#[derive(Clone, Copy)]
pub struct Progress {
    pub line: Line,
    pub end: usize,
}

// Takes the next bytes of the input: answers the lines that they end, and keeps the one that they begin. The answers'
// lines are put at the front of `out`, which has room for a line of 96 bytes for each byte.
pub fn take(
    table: &mut [u16],
    store: &mut [u8],
    line: Line,
    bytes: &[u8],
    out: &mut [u8],
) -> Progress
    requires { 96 * length bytes.now ≤ length out.old }
    ensures result_after { progress_in table.new store.new out.new result
        ≡ taken (shell_of table.old store.old line) bytes.now }
    ensures end_in_bounds { result.end ≤ length out.new }
{
    let mut line = line;
    let mut end = 0;
    for byte in bytes {
        end = take_byte(table, store, &mut line, *byte, out, end);
    }
    Progress { line, end }
}

// The input's end: answers the line that has begun, if it has a byte; gives the length of what is put in `out`.
pub fn finish(table: &mut [u16], store: &mut [u8], line: Line, out: &mut [u8]) -> usize
    requires { 96 ≤ length out.old }
    ensures { Ends (ended (shell_of table.old store.old line))
        table.new store.new out.new result }
{
    let mut line = line;
    let mut said = Text::<96>::new();
    begun::end(table, store, &mut line, &mut said);
    put(said.bytes(), out, 0)
}

// Takes a byte: what it says is put at a place.
fn take_byte(
    table: &mut [u16],
    store: &mut [u8],
    line: &mut Line,
    byte: u8,
    out: &mut [u8],
    place: usize,
) -> usize
    requires { place + 96 ≤ length out.old }
    ensures result_after { progress_in table.new store.new out.new (record { line = line.new; end = result })
        ≡ next (progress_in table.old store.old out.old (record { line = line.old; end = place })) byte }
    ensures end_bound { result ≤ place + 96 }
{
    let mut said = Text::<96>::new();
    begun::take_byte(table, store, line, byte, &mut said);
    put(said.bytes(), out, place)
}

// Puts bytes at a place; gives the place behind them.
fn put(bytes: &[u8], out: &mut [u8], place: usize) -> usize
    requires { place + length bytes.now ≤ length out.old }
    ensures text { take result out.new ≡ take place out.old ++ bytes.now }
    ensures end { result ≡ place + length bytes.now }
{
    let end = place + bytes.len();
    out[place..end].copy_from_slice(bytes);
    end
}

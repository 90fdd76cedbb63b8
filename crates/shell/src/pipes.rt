// `hubshell` over an input that is read: it hands each read to the shell, and writes what the shell says to it at once,
// to an output. Lines of any length take the same memory.
ghost use Rattle.std.specs.Prelude.{◌≡◌, false, IfOk, OnOk, IsTrue};
ghost use Rattle.std.specs.Io.KnownBytes.{IsAtEnd, Appends};
ghost use Rattle.inputs.specs.Reads.{ended};
ghost use Rattle.shell.specs.Pipes.{IsShort, Writes, PrintsAll, ReadsOn};

use crate::Shell;
use index::Hub;
use std::io;
use std::io::{Read, Write};
use texts::Text;

// Answers an input, up to its end, on a fresh table. An array's length cannot be computed: both are stated. Where the
// bytes of both are known, and the input's are fewer than 2^64 - 1, what is written is what the whole input prints.
pub fn run<R: Read, W: Write>(input: &mut R, output: &mut W) -> io::Result<()>
    ensures { OnOk result (IsShort (R.remaining input.old)
        → PrintsAll (R.remaining input.old)
        (W.contents output.old) (W.contents output.new)) }
{
    let mut table = [0; 4100];
    let mut store = [0; 32768];
    let _ = index::layout::<Hub>(&mut table, &mut store);
    let mut shell = Shell::new(&mut table, &mut store);
    answer_all(input, output, &mut shell)
}

// Answers the whole input. A proved loop has to end, and nothing says that the input does: so the loop counts its
// turns, up to a number that no run uses up. Each turn but the last reads a byte at least.
fn answer_all<R: Read, W: Write>(
    input: &mut R,
    output: &mut W,
    shell: &mut Shell<'_>,
) -> io::Result<()>
    ensures { OnOk result (IsShort (R.remaining input.old)
        → Writes (R.remaining input.old) shell.old
        (W.contents output.old) (W.contents output.new)) }
{
    let mut out = Text::new();
    for turn in 0..u64::MAX {
        let more = answer_read(input, output, shell, &mut out)?;
        if !more {
            return Ok(());
        }
    }
    Ok(())
}

// Reads once, and answers what was read, or the input's end; gives whether more may come. What is said is put together
// in `out`.
fn answer_read<R: Read, W: Write>(
    input: &mut R,
    output: &mut W,
    shell: &mut Shell<'_>,
    out: &mut Text<49152>,
) -> io::Result<bool>
    ensures more { IfOk result (λ more. IsTrue more
        → ReadsOn (R.remaining input.old) (R.remaining input.new)
        (W.contents output.old) (W.contents output.new) shell.old shell.new) }
    ensures end { IfOk result (λ more. more ≡ false → IsAtEnd (R.remaining input.old)) }
    ensures last { IfOk result (λ more. more ≡ false
        → Appends (W.contents output.old) (W.contents output.new) (ended shell.old).text) }
{
    let mut chunk = [0; 512];
    let n = input.read(&mut chunk)?;
    out.clear();
    if n == 0 {
        shell.finish(out);
        output.write_all(out.bytes())?;
        return Ok(false);
    }
    shell.take(&chunk[..n], out);
    output.write_all(out.bytes())?;
    Ok(true)
}

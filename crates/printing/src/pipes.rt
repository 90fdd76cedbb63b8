// `roster` over an input that is read: it reads the text, and writes what it prints to an output at once.
ghost use Rattle.std.specs.Prelude.{◌≡◌, ◌≤◌, length, take, IfOk, OnOk, IfSome};
ghost use Rattle.printing.specs.Pipes.{PrintsAll};

use std::io;
use std::io::{Read, Write};
use texts::Text;

// Prints for the text of an input: where the bytes of both are known, what is written is the printout of the whole
// text. A text is read up to one byte above the longest that is taken, so that a longer one is refused.
pub fn run<R: Read, W: Write>(input: &mut R, output: &mut W) -> io::Result<()>
    ensures { OnOk result (PrintsAll (R.remaining input.old)
        (W.contents output.old) (W.contents output.new)) }
{
    let mut text = [0; 16385];
    let mut out = Text::<54836>::new();
    let len = read_full(input, &mut text)?;
    crate::put_printout(&text[..len], &mut out);
    output.write_all(out.bytes())
}

// Reads until the text is full or the input ends; gives how many bytes it put at the front. std reads to the end into a
// `Vec` alone, which needs the heap.
fn read_full<R: Read>(input: &mut R, text: &mut [u8]) -> io::Result<usize>
    ensures inside { IfOk result (λ len. len ≤ length text.new) }
    ensures front { IfOk result (λ len. IfSome (R.remaining input.old)
        (λ bytes. take len text.new ≡ take (length text.new) bytes)) }
{
    let mut len = 0;
    while len < text.len() {
        let n = input.read(&mut text[len..])?;
        if n == 0 {
            break;
        }
        len += n;
    }
    Ok(len)
}

// The printout of a roster at the front of a lent buffer, of any length that has room for the longest one, for callers
// that hold no text.
ghost use Rattle.std.specs.Prelude.{◌≡◌, ◌≤◌, length, take};
ghost use Rattle.types.specs.Sizes.{hub};
ghost use Rattle.rfc4180.specs.Rosters.{roster_outcome};
ghost use Rattle.printouts.specs.Printouts.{printout};
ghost use Rattle.printouts.specs.Rooms.{print_room};
ghost use Rattle.printing.specs.Prints.{Prints};

use texts::Text;

// The printout of a roster that goes into a fresh table, put at the front of `out`; gives its length.
pub fn print(text: &[u8], out: &mut [u8]) -> usize
    requires { print_room ≤ length out.old }
    ensures out_after { take result out.new ≡ printout text.now }
    ensures upper_bound { result ≤ length out.new }
{
    let mut printed = Text::<54836>::new();
    crate::put_printout(text, &mut printed);
    put_front(printed.bytes(), out)
}

// The printout of a roster that goes into lent memory of any length and content, put at the front of `out`; gives its
// length.
pub fn print_on(table: &mut [u16], store: &mut [u8], text: &[u8], out: &mut [u8]) -> usize
    requires { print_room ≤ length out.old }
    ensures { Prints (roster_outcome hub table.old store.old text.now)
        table.new store.new out.new result }
{
    let mut printed = Text::<54836>::new();
    crate::put_printout_on(table, store, text, &mut printed);
    put_front(printed.bytes(), out)
}

// Puts bytes at the front of a buffer; gives how many.
fn put_front(bytes: &[u8], out: &mut [u8]) -> usize
    requires { length bytes.now ≤ length out.old }
    ensures out_after { take result out.new ≡ bytes.now }
    ensures upper_bound { result ≤ length out.new }
{
    let end = bytes.len();
    out[..end].copy_from_slice(bytes);
    end
}

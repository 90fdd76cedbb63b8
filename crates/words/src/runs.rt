// Bytes written into a lent list from a position on.
ghost use Rattle.words.specs.Filled.{Filled, HasRoom};

// Writes bytes, and gives the next position.
pub fn put_bytes(output: &mut [u8], at: usize, bytes: &[u8]) -> usize
    requires { HasRoom bytes.now at output.old }
    ensures { Filled bytes.now output.old at output.new result }
{
    // No `copy_from_slice`: the archives for C would need `memmove` from outside.
    for i in 0..bytes.len() {
        output[at + i] = bytes[i];
    }
    at + bytes.len()
}

// `hubshell`: a label index at the standard input. It answers each line of the standard input by one line at the
// standard output. A line is ended by byte 10 or by the input's end; a byte 10 that ends the input starts no further
// line.
#![tactic(auto)]

use std::io;

fn main(rt: HostRuntime) -> io::Result<()> {
    shell::pipes::run(&mut rt.stdin(), &mut rt.stdout())
}

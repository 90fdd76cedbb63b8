// `roster`: takes a club's roster from the standard input into a fresh table, and prints to the standard output the
// answer and then the labels in ascending order, each with its slot and its value.
#![tactic(auto)]

use std::io;

fn main(rt: HostRuntime) -> io::Result<()> {
    printing::pipes::run(&mut rt.stdin(), &mut rt.stdout())
}

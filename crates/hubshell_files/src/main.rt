// `hubshell` on further inputs, each a file and each on a fresh table.
#![tactic(auto)]

use std::io::Write;
use std::{fs, io};

fn main(rt: HostRuntime) -> io::Result<()> {
    for name in ["empty", "newline", "newlines", "ended", "unended"] {
        answer(rt, name)?;
    }
    Ok(())
}

// Prints a file's name, and what `hubshell` prints for it. As in `roster_files`: a crate for this frame would be
// longer than it is.
fn answer(rt: HostRuntime, name: &str) -> io::Result<()> {
    let mut output = rt.stdout();
    output.write_all(name.as_bytes())?;
    output.write_all(b":\n")?;
    match fs::open(&rt, name) {
        Ok(mut file) => shell::pipes::run(&mut file, &mut output),
        Err(_) => output.write_all(b"missing\n"),
    }
}

// What can differ in a call.
use std::fmt;

// The answer from that of the second writing of the paper, or from that of the map; a search's counts from the bounds
// by held labels and length, or its places from the bound by shared bytes; what a call left from what it is to leave;
// the check's answer; what public inserts of the same labels leave; soundness; the listing; a label's view; the words
// of the table's head; the charges of the slots; the refusal from the one that a case of the paper names; a roster's
// answer from the one that is written by its text; what a save left of the output; how many bytes it wrote from the
// number that a case names.
#[derive(Clone, Copy, Debug, PartialEq, Eq)]
pub enum Fault {
    Answer,
    Map,
    Bounds,
    Shared,
    Memory,
    Check,
    Inserts,
    Soundness,
    Listing,
    View,
    Head,
    Charges,
    Case,
    Sheet,
    Output,
    Written,
}

impl fmt::Display for Fault {
    fn fmt<W: fmt::Write>(&self, f: &mut fmt::Formatter<W>) -> fmt::Result {
        f.write_str(match self {
            Fault::Answer => "answer",
            Fault::Map => "answer by the map",
            Fault::Bounds => "bounds",
            Fault::Shared => "shared bytes",
            Fault::Memory => "memory left",
            Fault::Check => "check",
            Fault::Inserts => "inserts",
            Fault::Soundness => "soundness",
            Fault::Listing => "listing",
            Fault::View => "views",
            Fault::Head => "head",
            Fault::Charges => "charges",
            Fault::Case => "refusal",
            Fault::Sheet => "answer by hand",
            Fault::Output => "output",
            Fault::Written => "bytes written",
        })
    }
}

// A fault, where what is to hold does not.
pub fn ensure(holds: bool, fault: Fault) -> Result<(), Fault> {
    if holds { Ok(()) } else { Err(fault) }
}

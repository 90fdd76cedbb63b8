// What a group of calls counts, and the lines that are printed.
use crate::counts::Count;
use crate::hexes::Hex;
use crate::{Report, Round};
use images::packing::Answer;
use images::refusals::Refusal;
use samples::calls::Call;
use samples::shapes::Shape;
use std::io::Write;
use std::{fmt, io};

// The calls; of these the searches that found the label or did not, the updates, and those refused; the most labels
// held; the calls that did not agree; the changes of the memory, and those of them that left the table sound; the calls
// whose search reached the bound by shared bytes; the charges set; the files written, and the bytes of the longest; the
// files loaded, and those refused by 18, 19 and 20.
#[derive(Clone, Copy, Debug, Default)]
pub struct Tally {
    pub calls: Count,
    pub found: Count,
    pub absent: Count,
    pub inserted: Count,
    pub deleted: Count,
    pub refused: Count,
    pub most: Count,
    pub mismatches: Count,
    pub changes: Count,
    pub sound: Count,
    pub reached: Count,
    pub charged: Count,
    pub saved: Count,
    pub longest: Count,
    pub loaded: Count,
    pub broken: Count,
    pub not_ascending: Count,
    pub bytes_after: Count,
}

impl Tally {
    // Counts a call on a sound table that left `held` labels.
    fn count(&mut self, call: Call, round: Round, held: usize) {
        self.calls.add(1);
        self.most.raise_to(held);
        self.reached.add_if(round.reached);
        self.mismatches.add_if(round.said.is_err());
        if let Some(answer) = round.given {
            self.count_end(call, answer);
        }
    }

    // Counts a call's end by its answer.
    fn count_end(&mut self, call: Call, answer: Answer) {
        match answer {
            Answer::Refused { refusal, .. } => self.count_refusal(refusal),
            Answer::Found { .. } => self.found.add(1),
            Answer::Absent { .. } => self.absent.add(1),
            Answer::Updated { .. } => self.count_update(call),
            Answer::Saved(n) => {
                self.saved.add(1);
                self.longest.raise_to(n);
            }
            Answer::Loaded(_) => self.loaded.add(1),
            _ => {}
        }
    }

    fn count_refusal(&mut self, refusal: Refusal) {
        self.refused.add(1);
        match refusal {
            Refusal::BrokenFile => self.broken.add(1),
            Refusal::NotAscending => self.not_ascending.add(1),
            Refusal::BytesAfter => self.bytes_after.add(1),
            _ => {}
        }
    }

    fn count_update(&mut self, call: Call) {
        match call {
            Call::Insert => self.inserted.add(1),
            Call::SetCharge => self.charged.add(1),
            _ => self.deleted.add(1),
        }
    }
}

// A group, as its line begins: which index, the shape of its labels, and its name.
#[derive(Clone, Copy)]
pub struct Group<'a> {
    pub page: bool,
    pub shape: Shape,
    pub name: &'a str,
}

impl fmt::Display for Group<'_> {
    fn fmt<W: fmt::Write>(&self, f: &mut fmt::Formatter<W>) -> fmt::Result {
        let index = if self.page { "page" } else { "hub" };
        let shape = self.shape.name();
        let name = self.name;
        write!(f, "{index}, {shape}, {name}")
    }
}

impl Report<Tally> {
    // Counts a call; where it has a fault it is printed: its name, its label in hexadecimal, and what differs.
    pub fn count(&mut self, call: Call, label: &[u8], round: Round, held: usize) -> io::Result<()> {
        self.tally.count(call, round, held);
        self.print_fault(call, label, round)
    }

    // Counts a call of which neither the end nor what it left is told.
    pub fn count_tried(&mut self, call: Call, label: &[u8], round: Round) -> io::Result<()> {
        self.tally.calls.add(1);
        self.tally.mismatches.add_if(round.said.is_err());
        self.print_fault(call, label, round)
    }

    fn print_fault(&mut self, call: Call, label: &[u8], round: Round) -> io::Result<()> {
        let Err(fault) = round.said else {
            return Ok(());
        };
        let name = call.name();
        let label = Hex(label);
        writeln!(self.out, "mismatch: {name} {label}: the {fault}")
    }

    // The line of calls on sound tables.
    pub fn print_sequence(&mut self, group: Group) -> io::Result<()> {
        let Tally {
            calls,
            found,
            absent,
            inserted,
            deleted,
            charged,
            refused,
            most,
            reached,
            mismatches,
            ..
        } = self.tally;
        writeln!(
            self.out,
            "{group}: calls {calls}, found {found}, absent {absent}, inserted {inserted}, deleted {deleted}, \
            charged {charged}, refused {refused}, most held {most}, at the bound {reached}, mismatches {mismatches}"
        )
    }

    // The line of the saves among them.
    pub fn print_saves(&mut self, group: Group) -> io::Result<()> {
        let Tally {
            calls,
            saved,
            refused,
            longest,
            mismatches,
            ..
        } = self.tally;
        writeln!(
            self.out,
            "{group}, saves: calls {calls}, saved {saved}, refused {refused}, longest file {longest}, \
            mismatches {mismatches}"
        )
    }

    // The line of the loads of what they saved.
    pub fn print_loads(&mut self, group: Group) -> io::Result<()> {
        let Tally {
            calls,
            saved,
            longest,
            loaded,
            refused,
            most,
            mismatches,
            ..
        } = self.tally;
        writeln!(
            self.out,
            "{group}, loads: calls {calls}, saved {saved}, longest file {longest}, loaded {loaded}, refused {refused}, \
            most held {most}, mismatches {mismatches}"
        )
    }

    // The line of changes of one kind.
    pub fn print_damage(&mut self, group: Group) -> io::Result<()> {
        let Tally {
            calls,
            changes,
            sound,
            mismatches,
            ..
        } = self.tally;
        writeln!(
            self.out,
            "{group}: changes {changes}, still sound {sound}, calls {calls}, mismatches {mismatches}"
        )
    }

    // The line of other lengths, or of charges refused.
    pub fn print_lent(&mut self, group: Group) -> io::Result<()> {
        let Tally {
            calls,
            changes,
            mismatches,
            ..
        } = self.tally;
        writeln!(
            self.out,
            "{group}: changes {changes}, calls {calls}, mismatches {mismatches}"
        )
    }

    // The line of the saves on damaged memories of a table, or on memory of other lengths.
    pub fn print_refused_saves(&mut self, group: Group) -> io::Result<()> {
        let Tally {
            calls,
            changes,
            saved,
            refused,
            longest,
            mismatches,
            ..
        } = self.tally;
        writeln!(
            self.out,
            "{group}, saves: changes {changes}, calls {calls}, saved {saved}, refused {refused}, \
            longest file {longest}, mismatches {mismatches}"
        )
    }

    // The line of the saves of tables at an edge.
    pub fn print_edge_saves(&mut self, group: Group) -> io::Result<()> {
        let Tally {
            calls,
            inserted,
            deleted,
            charged,
            saved,
            refused,
            longest,
            mismatches,
            ..
        } = self.tally;
        writeln!(
            self.out,
            "{group}, saves: calls {calls}, inserted {inserted}, deleted {deleted}, charged {charged}, saved {saved}, \
            refused {refused}, longest file {longest}, mismatches {mismatches}"
        )
    }

    // The line of the loads of files at an edge.
    pub fn print_edge_loads(&mut self, group: Group) -> io::Result<()> {
        let Tally {
            calls,
            saved,
            longest,
            loaded,
            broken,
            not_ascending,
            bytes_after,
            most,
            mismatches,
            ..
        } = self.tally;
        writeln!(
            self.out,
            "{group}, loads: calls {calls}, saved {saved}, longest file {longest}, loaded {loaded}, broken {broken}, \
            not ascending {not_ascending}, bytes after {bytes_after}, most held {most}, mismatches {mismatches}"
        )
    }

    // The line of the loads of a shape's file cut short, of the same with a byte changed, or of files written out,
    // loaded into memory of other lengths.
    pub fn print_file_loads(&mut self, group: Group) -> io::Result<()> {
        let Tally {
            calls,
            changes,
            loaded,
            refused,
            broken,
            not_ascending,
            bytes_after,
            mismatches,
            ..
        } = self.tally;
        writeln!(
            self.out,
            "{group}, loads: changes {changes}, calls {calls}, loaded {loaded}, refused {refused}, broken {broken}, \
            not ascending {not_ascending}, bytes after {bytes_after}, mismatches {mismatches}"
        )
    }

    // The line of the loads of a group of files written out.
    pub fn print_written_loads(&mut self, name: &str) -> io::Result<()> {
        let Tally {
            calls,
            loaded,
            broken,
            not_ascending,
            bytes_after,
            most,
            mismatches,
            ..
        } = self.tally;
        writeln!(
            self.out,
            "hub, {name} written out, loads: calls {calls}, loaded {loaded}, broken {broken}, \
            not ascending {not_ascending}, bytes after {bytes_after}, most held {most}, mismatches {mismatches}"
        )
    }
}

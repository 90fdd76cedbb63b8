// What a group counts, and the lines that are printed.
use crate::takings;
use images::packing::Answer;
use images::refusals::Refusal;
use reports::Report;
use reports::counts::Count;
use reports::faults::Fault;
use reports::hexes::Hex;
use std::io;
use std::io::Write;

// The calls; of these those taken; the records that went in; the calls refused by 1, 2, 12, 13, 3, 4, 6, 7 and 9; the
// changes of the memory, and those of them that left the table sound; and the calls that did not agree.
#[derive(Clone, Copy, Debug, Default)]
pub struct Tally {
    calls: Count,
    taken: Count,
    records: Count,
    table: Count,
    store: Count,
    long_text: Count,
    broken: Count,
    no_label: Count,
    long_label: Count,
    not_sound: Count,
    held: Count,
    full: Count,
    pub changes: Count,
    pub sound: Count,
    pub mismatches: Count,
}

impl Tally {
    // Counts a call by its answer.
    pub fn count(&mut self, answer: Answer) {
        self.calls.add(1);
        self.records.add(takings::entered(answer));
        match answer {
            Answer::Refused { refusal, .. } => self.count_refusal(refusal),
            _ => self.taken.add(1),
        }
    }

    fn count_refusal(&mut self, refusal: Refusal) {
        match refusal {
            Refusal::WrongTable => self.table.add(1),
            Refusal::WrongStore => self.store.add(1),
            Refusal::LongText => self.long_text.add(1),
            Refusal::BrokenRecord => self.broken.add(1),
            Refusal::EmptyLabel => self.no_label.add(1),
            Refusal::LongLabel => self.long_label.add(1),
            Refusal::NotSound => self.not_sound.add(1),
            Refusal::AlreadyHeld => self.held.add(1),
            Refusal::Full => self.full.add(1),
            _ => {}
        }
    }

    // Counts a call that did not agree, by the answer that it gave, where it gave one.
    pub fn count_mismatch(&mut self, given: Option<Answer>) {
        self.mismatches.add(1);
        match given {
            Some(answer) => self.count(answer),
            None => self.calls.add(1),
        }
    }
}

// Prints the line of a group.
pub fn print(report: &mut Report<Tally>, title: &str) -> io::Result<()> {
    let Tally {
        calls,
        taken,
        records,
        table,
        store,
        long_text,
        broken,
        no_label,
        long_label,
        not_sound,
        held,
        full,
        changes,
        sound,
        mismatches,
    } = report.tally;
    writeln!(
        report.out,
        "{title}: calls {calls}, taken {taken}, records {records}, refused: table {table}, store {store}, \
        long text {long_text}, broken {broken}, no label {no_label}, long label {long_label}, not sound {not_sound}, \
        held {held}, full {full}; changes {changes}, still sound {sound}, mismatches {mismatches}"
    )
}

// Prints a call that did not agree: what differs, the answer that is due, the one that it gave, and the text's first
// bytes.
pub fn print_mismatch(
    report: &mut Report<Tally>,
    text: &[u8],
    due: Answer,
    said: usize,
    fault: Fault,
) -> io::Result<()> {
    let (due_refusal, due_record) = refusal_and_record(due);
    let (said_refusal, said_record) = Answer::try_from(said).map_or((0, 0), refusal_and_record);
    let text = Hex(text.get(..120).unwrap_or(text));
    writeln!(
        report.out,
        "mismatch: {fault}, due {due_refusal} at {due_record}, said {said_refusal} at {said_record}, text {text}"
    )
}

// The refusal's number, 0 for none, and the record that is refused, or how many went in.
fn refusal_and_record(answer: Answer) -> (usize, usize) {
    match answer {
        Answer::Refused { refusal, record } => (refusal.number(), record),
        other => (0, takings::entered(other)),
    }
}

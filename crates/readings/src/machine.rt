// A record of RFC 4180, read one byte at a time by a machine of states.
use samples::shapes::Label;

// Before a field's first byte; in a field without quotes; inside quotes; after a quote inside quotes; after the CR that
// is to end the record; at its end; where the grammar is broken.
#[derive(Clone, Copy, Debug, PartialEq, Eq)]
pub enum State {
    Start,
    Bare,
    Quoted,
    Quote,
    Return,
    Ended,
    Broken,
}

impl State {
    // The state after a byte, or at the text's end; from the last two states no byte leads on.
    fn next(self, byte: Option<u8>) -> State {
        match (self, byte) {
            (State::Quoted, Some(b'"')) => State::Quote,
            (State::Quoted, Some(b'\r' | b'\n' | b' '..=b'~')) => State::Quoted,
            (State::Start | State::Quote, Some(b'"')) => State::Quoted,
            (State::Start | State::Bare | State::Quote, Some(b',')) => State::Start,
            (State::Start | State::Bare | State::Quote, Some(b'\r')) => State::Return,
            (State::Start | State::Bare | State::Quote, None) => State::Ended,
            (State::Bare, Some(b'"')) => State::Broken,
            (State::Start | State::Bare, Some(b' '..=b'~')) => State::Bare,
            (State::Return, Some(b'\n')) => State::Ended,
            _ => State::Broken,
        }
    }

    fn is_last(self) -> bool {
        matches!(self, State::Ended | State::Broken)
    }
}

// Where the reading of a record stands: its state, the commas that ended a field, the first field's content, the bytes
// of the second's, the place of the last byte of a content, and the place after the byte read last.
#[derive(Clone, Copy)]
pub struct Reading {
    pub state: State,
    pub commas: usize,
    pub label: Label,
    pub value: usize,
    pub last: usize,
    pub end: usize,
}

// Reads the record that begins at a place of a text.
pub fn read(text: &[u8], at: usize) -> Reading {
    let mut reading = Reading {
        state: State::Start,
        commas: 0,
        label: Label::EMPTY,
        value: 0,
        last: 0,
        end: at,
    };
    for byte in text.get(at..).unwrap_or(&[]) {
        reading.step(Some(*byte));
        if reading.state.is_last() {
            return reading;
        }
    }
    reading.step(None);
    reading
}

impl Reading {
    // Reads a byte: it is one of a content where it leads into a field without quotes, or to inside quotes and is not
    // the first quote of a field.
    fn step(&mut self, byte: Option<u8>) {
        let state = self.state.next(byte);
        let is_first = self.state == State::Start;
        self.state = state;
        match (state, byte) {
            (State::Start, _) => self.commas = self.commas.wrapping_add(1),
            (State::Bare, Some(byte)) => self.keep(byte),
            (State::Quoted, Some(byte)) if !is_first => self.keep(byte),
            _ => {}
        }
        self.end = self.end.wrapping_add(1);
    }

    fn keep(&mut self, byte: u8) {
        match self.commas {
            0 => self.label.push(byte),
            1 => self.value = self.value.wrapping_add(1),
            _ => {}
        }
        self.last = self.end;
    }
}

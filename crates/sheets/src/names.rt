// Texts of many names: in order and in reverse, for an empty table, on top of others and after deletes.
use crate::Due::{Refused, Taken};
use crate::{Due, Sheet, signs};
use images::outputs::{Front, Output};
use images::refusals::Refusal::{AlreadyHeld, BrokenRecord, Full, LongText};

// A step: the names of a form, from one on, so far apart in a ring of a thousand, so many. A text of them is taken, by
// an empty table or on top of what is held; or they are deleted.
#[derive(Clone, Copy, Debug)]
pub struct Step {
    pub way: Way,
    form: Form,
    first: usize,
    apart: usize,
    pub names: usize,
    due: Due,
}

#[derive(Clone, Copy, Debug, PartialEq, Eq)]
pub enum Way {
    OnEmpty,
    OnTop,
    Deleted,
}

// Names of straps, and in capital letters; names that share 40 bytes; names of 64 bytes; names of straps in records of
// 32 bytes each, these with the last byte cut, the last two, and one byte more.
#[derive(Clone, Copy, Debug, PartialEq, Eq)]
enum Form {
    Straps,
    Capitals,
    Alike,
    Longest,
    Wide,
    OneCut,
    TwoCut,
    OneMore,
}

// From one name to the one before it, and to the third before it.
const BACK: usize = 999;

const THREE_BACK: usize = 997;

pub fn steps() -> [Step; 35] {
    [
        step_of(Way::OnEmpty, Form::Straps, 0, 1, 384, Taken(384)),
        step_of(Way::OnTop, Form::Straps, 0, 1, 384, Refused(1, AlreadyHeld)),
        step_of(Way::OnTop, Form::Straps, 384, 1, 128, Taken(128)),
        step_of(Way::OnTop, Form::Straps, 512, 1, 9, Refused(1, Full)),
        step_of(Way::OnTop, Form::Straps, 511, 1, 9, Refused(1, AlreadyHeld)),
        step_of(
            Way::OnTop,
            Form::Capitals,
            100,
            1,
            9,
            Refused(1, AlreadyHeld),
        ),
        step_of(Way::OnEmpty, Form::Straps, 383, BACK, 384, Taken(384)),
        step_of(
            Way::OnTop,
            Form::Straps,
            483,
            BACK,
            200,
            Refused(101, AlreadyHeld),
        ),
        step_of(Way::OnTop, Form::Capitals, 484, 1, 29, Refused(29, Full)),
        step_of(Way::OnEmpty, Form::Straps, 0, 1, 512, Taken(512)),
        step_of(Way::OnEmpty, Form::Straps, 0, 1, 513, Refused(513, Full)),
        step_of(Way::OnEmpty, Form::Straps, 511, BACK, 512, Taken(512)),
        step_of(Way::Deleted, Form::Straps, 1, 3, 100, Taken(100)),
        step_of(Way::OnTop, Form::Straps, 600, 1, 60, Taken(60)),
        step_of(
            Way::OnTop,
            Form::Capitals,
            298,
            THREE_BACK,
            41,
            Refused(41, Full),
        ),
        step_of(Way::Deleted, Form::Straps, 511, THREE_BACK, 80, Taken(80)),
        step_of(Way::OnTop, Form::Straps, 700, 1, 80, Taken(80)),
        step_of(Way::OnTop, Form::Straps, 1, 1, 1, Refused(1, Full)),
        step_of(Way::OnEmpty, Form::Capitals, 0, 1, 100, Taken(100)),
        step_of(
            Way::OnTop,
            Form::Straps,
            50,
            BACK,
            60,
            Refused(1, AlreadyHeld),
        ),
        step_of(Way::OnTop, Form::Straps, 100, 1, 20, Taken(20)),
        step_of(
            Way::OnTop,
            Form::Straps,
            122,
            BACK,
            9,
            Refused(4, AlreadyHeld),
        ),
        step_of(Way::OnEmpty, Form::Alike, 0, 1, 280, Taken(280)),
        step_of(
            Way::OnTop,
            Form::Alike,
            511,
            BACK,
            280,
            Refused(233, AlreadyHeld),
        ),
        step_of(Way::OnEmpty, Form::Longest, 0, 1, 200, Taken(200)),
        step_of(Way::OnTop, Form::Longest, 399, BACK, 200, Taken(200)),
        step_of(Way::OnEmpty, Form::Wide, 0, 1, 512, Taken(512)),
        step_of(
            Way::OnEmpty,
            Form::OneCut,
            0,
            1,
            512,
            Refused(512, BrokenRecord),
        ),
        step_of(Way::OnEmpty, Form::TwoCut, 0, 1, 512, Taken(512)),
        step_of(Way::OnEmpty, Form::Wide, 0, 1, 513, Refused(0, LongText)),
        step_of(Way::OnEmpty, Form::OneMore, 0, 1, 512, Refused(0, LongText)),
        step_of(Way::OnEmpty, Form::Wide, 511, BACK, 512, Taken(512)),
        step_of(
            Way::OnTop,
            Form::Wide,
            511,
            BACK,
            512,
            Refused(1, AlreadyHeld),
        ),
        step_of(Way::OnTop, Form::Wide, 600, 1, 512, Refused(1, Full)),
        step_of(Way::OnTop, Form::OneMore, 600, 1, 512, Refused(0, LongText)),
    ]
}

// Names of straps that a table is to hold at first, so many from the first on.
pub fn held(names: usize) -> Step {
    step_of(Way::OnEmpty, Form::Straps, 0, 1, names, Taken(names))
}

// Names of straps that are deleted then.
pub fn freed(first: usize, names: usize) -> Step {
    step_of(Way::Deleted, Form::Straps, first, 3, names, Taken(names))
}

fn step_of(way: Way, form: Form, first: usize, apart: usize, names: usize, due: Due) -> Step {
    Step {
        way,
        form,
        first,
        apart,
        names,
        due,
    }
}

impl Step {
    // Writes the text, with what is to come of it.
    pub fn write(self, output: &mut Output) -> Sheet {
        let mut text = Front::new(output);
        let records = self.form.records();
        let mut name = self.first;
        for _ in 0..self.names {
            let number = 1000 + name % 1000;
            if let Some(record) = records.get(number.checked_rem(records.len()).unwrap_or(0)) {
                signs::write(&mut text, record, number);
            }
            name = name % 1000 + self.apart % 1000;
        }
        Sheet {
            bytes: self.form.cut(text.len()),
            due: Some(self.due),
        }
    }
}

impl Form {
    // A record's number says which of these it is.
    fn records(self) -> &'static [&'static [u8]] {
        match self {
            Form::Straps => &STRAPS,
            Form::Capitals => &CAPITALS,
            Form::Alike => &ALIKE,
            Form::Longest => &LONGEST,
            Form::Wide | Form::OneCut | Form::TwoCut | Form::OneMore => &WIDE,
        }
    }

    // The bytes of a text that has so many.
    fn cut(self, bytes: usize) -> usize {
        match self {
            Form::OneCut => bytes.wrapping_sub(1),
            Form::TwoCut => bytes.wrapping_sub(2),
            Form::OneMore => bytes.wrapping_add(1),
            _ => bytes,
        }
    }
}

// The quotes of a record: none, about the name, about the value, about both.
const STRAPS: [&[u8]; 4] = [b"s-#,#/", b"'s-#',#/", b"s-#,'#'/", b"'s-#','#'/"];

const CAPITALS: [&[u8]; 4] = [b"S-#,#/", b"'S-#',#/", b"S-#,'#'/", b"'S-#','#'/"];

const ALIKE: [&[u8]; 4] = [b"[#,#/", b"'[#',#/", b"[#,'#'/", b"'[#','#'/"];

const LONGEST: [&[u8]; 4] = [
    b"[mmmmmmmmmmmmmmmmmmmm#,#/",
    b"'[,,,,,,,,,,,,,,,,,,,,#',#/",
    b"[....................#,'#'/",
    b"'[////------------#','#'/",
];

const WIDE: [&[u8]; 1] = [b"strap-# of an old club,#/"];

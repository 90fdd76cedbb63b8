// What a line of `hubshell` asks: a call of the index, or nothing. A line is its bytes, without the byte 10.
#![tactic(auto)]

ghost use Rattle.std.specs.Prelude.{◌≡◌};
ghost use Rattle.std.specs.List.{prefix_len};
ghost use Rattle.lines.specs.Commands.{asks, asked_by, after_label, insert_of, by_letter, label_at_front, is_label_byte};

// What a line asks: `I label value`, `D label` or `S label`. The label is a part of the line.
#[derive(Clone, Copy, Debug, PartialEq, Eq)]
pub enum Command<'a> {
    Insert { label: &'a [u8], value: u16 },
    Delete { label: &'a [u8] },
    Search { label: &'a [u8] },
}

// The command of a line of any bytes and any length, if it is one.
#[tactic(auto, using(crate::proofs::Asks::line_laws))]
pub fn command_of(line: &[u8]) -> Option<Command<'_>>
    ensures { asked_by result ≡ asks line.now }
{
    if 80 < line.len() {
        return None;
    }
    let [letter, b' ', text @ ..] = line else {
        return None;
    };
    by_letter(*letter, text)
}

// The command of a letter and the text after its space.
#[tactic(auto, using(crate::proofs::Asks::letter_laws))]
fn by_letter(letter: u8, text: &[u8]) -> Option<Command<'_>>
    ensures { asked_by result ≡ by_letter letter text.now }
{
    let (label, rest) = split_label(text);
    match letter {
        b'I' => insert_of(label, rest),
        b'D' if rest.is_empty() => Some(Command::Delete { label }),
        b'S' if rest.is_empty() => Some(Command::Search { label }),
        _ => None,
    }
}

// The insert of a label, by what comes after it: a space and a value.
#[tactic(auto, using(crate::proofs::Asks::insert_laws))]
fn insert_of<'a>(label: &'a [u8], rest: &[u8]) -> Option<Command<'a>>
    ensures { asked_by result ≡ insert_of label.now rest.now }
{
    let [b' ', digits @ ..] = rest else {
        return None;
    };
    let value = decimals::value_of(digits)?;
    Some(Command::Insert { label, value })
}

// The label at the front of a text, and what comes after it.
#[tactic(auto, using(crate::proofs::Labels::label_laws))]
fn split_label(text: &[u8]) -> (&[u8], &[u8])
    ensures label { result.0.now ≡ label_at_front text.now }
    ensures rest { result.1.now ≡ after_label text.now }
{
    text.split_at(label_length(text))
}

// How many bytes at the front of a text a label may have.
fn label_length(text: &[u8]) -> usize
    ensures { result ≡ prefix_len is_label_byte text.now }
{
    text.iter().take_while(|byte| is_label_byte(**byte)).count()
}

// "A label is any number of bytes 33 to 126"
fn is_label_byte(byte: u8) -> bool
    ensures { result ≡ is_label_byte byte }
{
    (33..=126).contains(&byte)
}

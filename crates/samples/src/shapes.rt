// Labels by their number, in several shapes.
use crate::numbers;

// A label, or the first 66 bytes of a longer one.
#[derive(Clone, Copy, Debug)]
pub struct Label {
    bytes: [u8; 66],
    len: usize,
}

impl Label {
    pub const EMPTY: Label = Label {
        bytes: [0; 66],
        len: 0,
    };

    // The label of these bytes, or of the first of them.
    pub fn of(bytes: &[u8]) -> Label {
        let mut label = Label::EMPTY;
        for byte in bytes {
            label.push(*byte);
        }
        label
    }

    // One more byte, where there is room.
    pub fn push(&mut self, byte: u8) {
        if let Some(place) = self.bytes.get_mut(self.len) {
            *place = byte;
            self.len = self.len.wrapping_add(1);
        }
    }

    pub fn as_slice(&self) -> &[u8] {
        self.bytes.get(..self.len).unwrap_or(&[])
    }
}

#[derive(Clone, Copy, Debug, PartialEq, Eq)]
pub enum Shape {
    // A roster, "strap-0000" and on, whose numbers ascend as its labels do.
    Roster,
    // Labels that share 40 opening bytes, or as many as leave four, some parting early from the others.
    Alike,
    // Bytes 0 and 255 alone, many a label the opening of others.
    Ends,
    // One to three letters of four.
    Short,
    // Any bytes, of each length that a label may have, and now and then none or one too many.
    Any,
    // Letters "z" alone: as many as a label may have, one more, or none.
    Longest,
    // Names in four spellings each, numbered in a row: small letters, capital letters, the first letter capital, every
    // second one.
    Spelled,
    // One to four bytes, letters and the bytes about them, many alike but for the case.
    Letters,
    // One to three bytes of 1 to 4.
    Four,
    // As many bytes as a label may have, told apart by the last four, some parting early from the others.
    Widest,
}

impl Shape {
    pub fn name(self) -> &'static str {
        match self {
            Shape::Roster => "roster",
            Shape::Alike => "alike",
            Shape::Ends => "bytes 0 and 255",
            Shape::Short => "short",
            Shape::Any => "any bytes",
            Shape::Longest => "longest",
            Shape::Spelled => "spelled",
            Shape::Letters => "letters",
            Shape::Four => "bytes 1 to 4",
            Shape::Widest => "widest",
        }
    }

    // The label with number `k`, for an index of labels of so many bytes.
    pub fn label(self, width: usize, k: usize) -> Label {
        let mut label = Label::EMPTY;
        for i in 0..self.length(width, k) {
            label.push(self.byte(width, k, i));
        }
        label
    }

    fn length(self, width: usize, k: usize) -> usize {
        match self {
            Shape::Roster => 10,
            Shape::Alike => shared(width).wrapping_add(4 - k % 2),
            Shape::Ends => k.checked_rem(width).unwrap_or(0).wrapping_add(1),
            Shape::Short | Shape::Four => k % 3 + 1,
            Shape::Letters => k % 4 + 1,
            Shape::Spelled => k / 4 % 14 + 7,
            Shape::Longest => longest_length(width, k),
            Shape::Widest => width,
            Shape::Any => any_length(width, numbers::mixed(k, 66) % 100),
        }
    }

    // Byte `i` of the label with number `k`.
    fn byte(self, width: usize, k: usize, i: usize) -> u8 {
        match self {
            Shape::Roster => roster_byte(k, i),
            Shape::Alike => alike_byte(shared(width), k, i),
            Shape::Ends => end_byte(k.checked_div(width).unwrap_or(0), i),
            Shape::Short => quarter(k / 3, i).wrapping_add(b'a'),
            Shape::Four => quarter(k / 3, i).wrapping_add(1),
            Shape::Letters => letters_byte(k / 4, i),
            Shape::Spelled => spelled_byte(k / 4, k % 4, i),
            Shape::Longest => b'z',
            Shape::Widest => alike_byte(width.saturating_sub(4), k, i),
            Shape::Any => (numbers::mixed(k, i) % 256) as u8,
        }
    }
}

fn longest_length(width: usize, k: usize) -> usize {
    match k {
        0 => width,
        1 => width.wrapping_add(1),
        _ => 0,
    }
}

fn any_length(width: usize, n: usize) -> usize {
    match n {
        98 => 0,
        99 => width.wrapping_add(1),
        _ => n.checked_rem(width).unwrap_or(0).wrapping_add(1),
    }
}

fn roster_byte(k: usize, i: usize) -> u8 {
    match i {
        0 => b's',
        1 => b't',
        2 => b'r',
        3 => b'a',
        4 => b'p',
        5 => b'-',
        6 => digit(k / 1000),
        7 => digit(k / 100),
        8 => digit(k / 10),
        _ => digit(k),
    }
}

// The last decimal digit of a number.
fn digit(x: usize) -> u8 {
    b'0' + (x % 10) as u8
}

// The opening bytes that labels of at most so many share.
fn shared(width: usize) -> usize {
    width.saturating_sub(4).min(40)
}

// Byte `i` after so many that are shared.
fn alike_byte(opening: usize, k: usize, i: usize) -> u8 {
    match i.checked_sub(opening) {
        Some(0) => digit(k / 1000),
        Some(1) => digit(k / 100),
        Some(2) => digit(k / 10),
        Some(3) => digit(k),
        _ => shared_byte(opening, k, i),
    }
}

// One of the opening bytes: of every seventh label one of them may be another.
fn shared_byte(opening: usize, k: usize, i: usize) -> u8 {
    if k % 7 == 0 && k.checked_rem(opening) == Some(i) {
        return b'g' + (k % 3) as u8;
    }
    b'h'
}

// Byte 0 or 255 at a place, by four bits of a number.
fn end_byte(bits: usize, i: usize) -> u8 {
    if (bits >> (i % 4)) % 2 == 1 { 255 } else { 0 }
}

// Digit `i` of a number, from the last on, to the base 4.
fn quarter(k: usize, i: usize) -> u8 {
    let digit = match i {
        0 => k % 4,
        1 => k / 4 % 4,
        _ => k / 16 % 4,
    };
    digit as u8
}

// Byte `i` of a name in a spelling: that is a number, as the label's number has it in its last two bits, and the labels
// that are drawn by number may not change.
fn spelled_byte(name: usize, spelling: usize, i: usize) -> u8 {
    let byte = name_byte(name, i);
    if is_capital(spelling, i) {
        return byte.to_ascii_uppercase();
    }
    byte
}

// Byte `i` of a name: two letters tell it from the others, with a digit between them.
fn name_byte(name: usize, i: usize) -> u8 {
    match i {
        4 => b'a' + (name / 26 % 26) as u8,
        5 => digit(name),
        6 => b'a' + (name % 26) as u8,
        _ => b'a' + (i % 26) as u8,
    }
}

// Whether a letter at `i` is capital in a spelling.
fn is_capital(spelling: usize, i: usize) -> bool {
    match spelling {
        0 => false,
        1 => true,
        2 => i == 0,
        _ => i % 2 == 1,
    }
}

fn letters_byte(k: usize, i: usize) -> u8 {
    match i {
        0 => letter(7 * (k % 16)),
        1 => letter(k / 16),
        _ => letter(numbers::mixed(k, i)),
    }
}

// Sixteen bytes, ascending: "@", three capital letters, the six bytes up to the small letters, three of these, "{", and
// two bytes above 127 that are as far apart as a capital letter and its small one.
const LETTERS: [u8; 16] = *b"@AMZ[\\]^_`amz{\xc0\xe0";

// One of these bytes.
pub fn letter(i: usize) -> u8 {
    LETTERS[i % 16]
}

// Texts written in signs.
use images::outputs::Front;

// Goes on with a text; a number is that of the signs `?` and `#`.
pub fn write(text: &mut Front, signs: &[u8], number: usize) {
    for &sign in signs {
        push(text, sign, number);
    }
}

// Puts what a sign stands for, which is itself but for these: a quote; CRLF; CR; LF; a byte, and a decimal, by the
// number; 40 and 63 letters; 63 times two quotes; a thousand digits 1, and 0; the byte before, up to four bytes below
// the longest text.
fn push(text: &mut Front, sign: u8, number: usize) {
    match sign {
        b'\'' => text.push(b'"'),
        b'/' => {
            text.push(b'\r');
            text.push(b'\n');
        }
        b'<' => text.push(b'\r'),
        b';' => text.push(b'\n'),
        b'?' => text.push((number % 256) as u8),
        b'#' => push_number(text, number),
        b'[' => push_times(text, b'm', 40),
        b'{' => push_times(text, b'm', 63),
        b'}' => push_times(text, b'"', 126),
        b'$' => push_times(text, b'1', 1000),
        b'%' => push_times(text, b'0', 1000),
        b'^' => {
            if let Some(byte) = text.last() {
                let left = 16380usize.saturating_sub(text.len());
                push_times(text, byte, left);
            }
        }
        _ => text.push(sign),
    }
}

fn push_times(text: &mut Front, byte: u8, times: usize) {
    for _ in 0..times {
        text.push(byte);
    }
}

// Puts a number below 10,000 in decimal.
fn push_number(text: &mut Front, number: usize) {
    if number >= 1000 {
        text.push(digit(number / 1000));
    }
    if number >= 100 {
        text.push(digit(number / 100));
    }
    if number >= 10 {
        text.push(digit(number / 10));
    }
    text.push(digit(number));
}

fn digit(x: usize) -> u8 {
    b'0' + (x % 10) as u8
}

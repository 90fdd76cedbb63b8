// A value read from its last digit on.
use crate::machine::{Reading, State};

// The value of a record that is whole: it has two fields, and the second writes it in one to five digits, of which the
// first is 0 in 0 alone. None of any other record: one in whose second field two quotes stand for one has a quote among
// its last bytes.
pub fn value(text: &[u8], reading: &Reading) -> Option<u16> {
    if reading.state != State::Ended || reading.commas != 1 {
        return None;
    }
    let end = reading.last.wrapping_add(1);
    let digits = text.get(end.checked_sub(reading.value)?..end)?;
    match digits {
        [] | [b'0', _, ..] | [_, _, _, _, _, _, ..] => None,
        _ => number(digits),
    }
}

// The number that at most five digits write.
fn number(digits: &[u8]) -> Option<u16> {
    let mut number = 0usize;
    for (byte, power) in digits.iter().rev().zip([1usize, 10, 100, 1000, 10000]) {
        match byte {
            b'0'..=b'9' => {
                let digit = usize::from(*byte - b'0');
                number = number.wrapping_add(digit.wrapping_mul(power));
            }
            _ => return None,
        }
    }
    u16::try_from(number).ok()
}

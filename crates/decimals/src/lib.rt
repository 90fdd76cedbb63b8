// The reader of a decimal value, 0 to 65535 without needless leading zeros.
#![tactic(auto)]

ghost use Rattle.std.specs.Prelude.{◌≡◌};
ghost use Rattle.decimals.specs.Values.{value_of, value_after};

// The value that a text writes, if it writes one: at least one digit, and no needless zero first.
#[tactic(auto, using(crate::proofs::Values::value_laws))]
pub fn value_of(text: &[u8]) -> Option<u16>
    ensures { result ≡ value_of text.now }
{
    match text {
        [] | [b'0', _, ..] => None,
        _ => number_of(text),
    }
}

// The number that a text writes, if all of it is digits and it is at most 65535.
#[tactic(auto, using(crate::proofs::Values::digit_laws))]
fn number_of(text: &[u8]) -> Option<u16>
    ensures { result ≡ value_after 0 text.now }
{
    let mut number: u16 = 0;
    for &byte in text {
        if !byte.is_ascii_digit() {
            return None;
        }
        number = number.checked_mul(10)?.checked_add(u16::from(byte - b'0'))?;
    }
    Some(number)
}

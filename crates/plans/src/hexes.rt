// Files written in hexadecimal digits.
use images::outputs::Front;

// Writes a file: two hexadecimal digits for each byte, `w` for 64 bytes "a", `h` and `H` for a hundred bytes 128 and
// 255.
pub fn write(file: &mut Front, text: &str) {
    let mut high = None;
    for &sign in text.as_bytes() {
        match sign {
            b'w' => push_all(file, 64, b'a'),
            b'h' => push_all(file, 100, 128),
            b'H' => push_all(file, 100, 255),
            b' ' => {}
            _ => {
                let digit = digit(sign);
                match high {
                    None => high = Some(digit),
                    Some(first) => {
                        file.push(first % 16 * 16 + digit % 16);
                        high = None;
                    }
                }
            }
        }
    }
}

// Puts one byte so many times.
fn push_all(file: &mut Front, times: usize, byte: u8) {
    for _ in 0..times {
        file.push(byte);
    }
}

fn digit(sign: u8) -> u8 {
    match sign {
        b'0'..=b'9' => sign - b'0',
        b'a'..=b'f' => sign - b'a' + 10,
        _ => 0,
    }
}

// The file of a map: how many labels it holds, then for each in ascending order its length, its bytes as they were
// spelled, and its value. A number takes one byte below 128, two below 16,384 and else three: the lowest seven bits
// first, and 128 more in each byte but the last.
use crate::PlainMap;
use images::outputs;
use images::outputs::Output;

// Writes the file of a map at the start of an array, and gives its length; later bytes stay.
pub fn write(file: &mut Output, map: &PlainMap) -> usize {
    let mut at = put_number(file, 0, map.held());
    for entry in map.entries() {
        let label = entry.label.as_slice();
        at = put_number(file, at, label.len());
        for byte in label {
            at = put(file, at, *byte);
        }
        at = put_number(file, at, usize::from(entry.value));
    }
    at
}

// How many bytes the file of a map has.
pub fn length(map: &PlainMap) -> usize {
    let mut file = [0; outputs::ALL];
    write(&mut file, map)
}

// Puts a number; gives the place after it.
fn put_number(file: &mut Output, at: usize, x: usize) -> usize {
    let low = (x % 128) as u8;
    let middle = (x / 128 % 128) as u8;
    let high = (x / 16384 % 128) as u8;
    match x {
        0..128 => put(file, at, low),
        128..16384 => {
            let next = put(file, at, 128 + low);
            put(file, next, middle)
        }
        _ => {
            let next = put(file, at, 128 + low);
            let last = put(file, next, 128 + middle);
            put(file, last, high)
        }
    }
}

fn put(file: &mut Output, at: usize, byte: u8) -> usize {
    if let Some(place) = file.get_mut(at) {
        *place = byte;
    }
    at.wrapping_add(1)
}

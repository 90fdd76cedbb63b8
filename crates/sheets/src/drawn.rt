// Texts made of drawn pieces.
use crate::{Sheet, signs};
use images::outputs::{Front, Output};
use samples::numbers;

// Whole records.
const RECORDS: [&[u8]; 24] = [
    b"#,#/",
    b"n#,1/",
    b"N#,2/",
    b"'#',3/",
    b"'n#',#/",
    b"#,'0'/",
    b"n #,'#'/",
    b"'#''',65535/",
    b"'''#',4/",
    b"'#,#',5/",
    b"'/#',6/",
    b"'#;',7/",
    b"'n#<','8'/",
    b"'#'',''#',9/",
    b"'N''''#',10/",
    b"(#),11/",
    b" #,12/",
    b"# ,13/",
    b"'[#',14/",
    b"'[mmmmmmmmmmmmmmmmmmmm#',15/",
    b"s-#,16/",
    b"'S-#',17/",
    b"~#,#/",
    b".#,60000/",
];

// Pieces of a record.
const TOKENS: [&[u8]; 32] = [
    b"'",
    b"''",
    b"'''",
    b",",
    b",,",
    b"/",
    b"//",
    b"<",
    b";",
    b"</",
    b" ",
    b"a",
    b"#",
    b"0",
    b"01",
    b"65536",
    b"\t",
    b"\x7f",
    b"\x80",
    b"?",
    b"a,",
    b",1/",
    b"'a",
    b"a'",
    b"'a',",
    b"a,'",
    b"#,65536/",
    b"#,01/",
    b"#/",
    b"#,1,1/",
    b"'',1/",
    b"{mm,1/",
];

// Writes a text of one to twelve drawn pieces, of which one in twelve is no whole record.
pub fn write(output: &mut Output, seed: u64) -> Sheet {
    let (bytes, _) = write_pieces(output, seed, false);
    Sheet::any(bytes)
}

// Writes a text of whole records, and changes one byte of it.
pub fn write_changed(output: &mut Output, seed: u64) -> Sheet {
    let (bytes, draw) = write_pieces(output, seed, true);
    let at = numbers::below(numbers::mixed_seed(draw, 1), bytes);
    if let Some(byte) = output.get_mut(at) {
        *byte = changed(numbers::mixed_seed(draw, 2));
    }
    Sheet::any(bytes)
}

// The bytes of one to twelve pieces, and the number of the generator for the last.
fn write_pieces(output: &mut Output, seed: u64, whole: bool) -> (usize, u64) {
    let mut text = Front::new(output);
    let mut draw = numbers::mixed_seed(seed, 6);
    for _ in 0..=numbers::below(draw, 12) {
        draw = numbers::next(numbers::next(draw));
        push_piece(&mut text, draw, whole);
    }
    (text.len(), draw)
}

fn push_piece(text: &mut Front, draw: u64, whole: bool) {
    let which = numbers::mixed_seed(draw, 3);
    let number = numbers::below(numbers::mixed_seed(draw, 4), 10000);
    let pieces: &[&[u8]] = if whole || numbers::below(numbers::mixed_seed(draw, 5), 12) > 0 {
        &RECORDS
    } else {
        &TOKENS
    };
    if let Some(piece) = pieces.get(numbers::below(which, pieces.len())) {
        signs::write(text, piece, number);
    }
}

// A byte that matters, or any.
fn changed(draw: u64) -> u8 {
    match numbers::below(draw, 8) {
        0 => b'"',
        1 => b',',
        2 => b'\r',
        3 => b'\n',
        4 => b'0',
        _ => (numbers::below(numbers::next(draw), 256) % 256) as u8,
    }
}

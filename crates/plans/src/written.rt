// Files written out by hand, in groups: which refusal each is to have, or none.
use crate::planned::Due;
use crate::{hexes, rosters};
use images::outputs::{Front, Output};
use images::refusals::Refusal;

// The groups: files that are taken; a broken count, length, label or value; numbers of far too many groups; labels that
// are not above those before; such labels whose own length, bytes or value is broken, or that something broken follows;
// bytes after the last label; and rosters.
#[derive(Clone, Copy, Debug, PartialEq, Eq)]
pub enum Group {
    Taken,
    Counts,
    Lengths,
    Labels,
    Values,
    LongNumbers,
    Order,
    OrderLast,
    OrderFirst,
    Ends,
    Rosters,
}

// The most files that a group has; they are asked for by number, as each is written into the same array.
pub const FILES: usize = 24;

impl Group {
    pub const ALL: [Group; 11] = [
        Group::Taken,
        Group::Counts,
        Group::Lengths,
        Group::Labels,
        Group::Values,
        Group::LongNumbers,
        Group::Order,
        Group::OrderLast,
        Group::OrderFirst,
        Group::Ends,
        Group::Rosters,
    ];

    pub fn name(self) -> &'static str {
        match self {
            Group::Taken => "taken",
            Group::Counts => "counts",
            Group::Lengths => "lengths",
            Group::Labels => "labels",
            Group::Values => "values",
            Group::LongNumbers => "long numbers",
            Group::Order => "order",
            Group::OrderLast => "order last",
            Group::OrderFirst => "order first",
            Group::Ends => "ends",
            Group::Rosters => "rosters",
        }
    }

    // Writes file `i` of the group, where it has so many, into the front of an array; its length, and what is to come of
    // it.
    pub fn write(self, output: &mut Output, i: usize) -> Option<(usize, Due)> {
        let mut file = Front::new(output);
        let due = if self == Group::Rosters {
            let roster = rosters::roster_of(i)?;
            roster.write(&mut file);
            roster.due
        } else {
            hexes::write(&mut file, self.texts().get(i)?);
            self.due()
        };
        Some((file.len(), due))
    }

    // What is to come of each of its texts.
    fn due(self) -> Due {
        match self {
            Group::Taken | Group::Rosters => Due::Done,
            Group::Order | Group::OrderFirst => Due::Refused(Refusal::NotAscending),
            Group::Ends => Due::Refused(Refusal::BytesAfter),
            _ => Due::Refused(Refusal::BrokenFile),
        }
    }

    fn texts(self) -> &'static [&'static str] {
        match self {
            Group::Taken => &TAKEN,
            Group::Counts => &COUNTS,
            Group::Lengths => &LENGTHS,
            Group::Labels => &LABELS,
            Group::Values => &VALUES,
            Group::LongNumbers => &LONG_NUMBERS,
            Group::Order => &ORDER,
            Group::OrderLast => &ORDER_LAST,
            Group::OrderFirst => &ORDER_FIRST,
            Group::Ends => &ENDS,
            Group::Rosters => &[],
        }
    }
}

// No label; one, of 1 byte and of 64, with each length of a value; labels that ascend, about the letters and at their
// ends.
const TAKEN: [&str; 19] = [
    "00",
    "01 0161 00",
    "01 0100 7f",
    "01 01ff 8001",
    "01 0141 ff7f",
    "01 0161 808001",
    "01 0161 ffff03",
    "01 40w 00",
    "02 0161 00 40w 00",
    "02 0161 00 015a 00",
    "02 015f 00 015a 00",
    "02 0140 00 0161 00",
    "02 0141 00 0162 00",
    "02 015a 00 017b 00",
    "02 01c0 00 01e0 00",
    "02 0161 05 026162 05",
    "02 0141 05 026142 05",
    "03 0100 00 020000 00 0101 00",
    "03 025a61 01 025a5a 02 027b61 03",
];

// None; cut short; with needless groups, a whole label after them or not; above 512; fewer labels than it says.
const COUNTS: [&str; 18] = [
    "",
    "80",
    "ff",
    "8080",
    "ffff",
    "8000",
    "808000",
    "8100 0161 00",
    "818000 0161 00",
    "81808000 0161 00",
    "8104",
    "8104 0161 00",
    "818004 0161 00",
    "81808001 0161 00",
    "ffff7f 0161 00",
    "01",
    "8004",
    "02 0161 00",
];

// None; cut short; 0; with needless groups; 65 bytes, 128, and numbers whose lowest bits are those of 1.
const LENGTHS: [&str; 18] = [
    "01",
    "01 81",
    "01 ff",
    "01 00",
    "01 00 00",
    "01 8000 00",
    "01 8100 61 00",
    "01 818000 61 00",
    "01 c000 w 00",
    "01 41 w61 00",
    "01 8001 ww 00",
    "01 8102 61 00",
    "01 818004 61 00",
    "01 81808001 61 00",
    "02 0161 00",
    "02 0161 00 00 00",
    "02 0161 00 8100 62 00",
    "02 0161 00 41 62w 00",
];

// A label cut short.
const LABELS: [&str; 8] = [
    "01 01",
    "01 02 61",
    "01 03 6162",
    "01 40 61 00",
    "01 40",
    "02 0161 00 01",
    "02 0161 00 02 62",
    "02 0161 00 40 62",
];

// None; cut short; with needless groups; 65,536 and above, and numbers whose lowest bits are those of 0 or 1.
const VALUES: [&str; 18] = [
    "01 0161",
    "01 40w",
    "01 0161 80",
    "01 0161 ffff",
    "01 0161 8000",
    "01 0161 ff00",
    "01 0161 808000",
    "01 0161 ffff00",
    "01 0161 80808000",
    "01 0161 ffff8300",
    "01 0161 808004",
    "01 0161 818004",
    "01 0161 ffff7f",
    "01 0161 80808001",
    "02 0161 00 0162",
    "02 0161 8000 0162 00",
    "02 0161 808004 0162 00",
    "02 0161 00 0162 808004",
];

// A hundred groups and more for each number, all but the last continued, or the last too; numbers that are 1 where bits
// above the 32nd or the 64th are lost.
const LONG_NUMBERS: [&str; 18] = [
    "h",
    "h00",
    "h01",
    "H01",
    "81h00 0161 00",
    "01 h",
    "01 h01 61 00",
    "01 H01 61 00",
    "01 81h00 61 00",
    "01 0161 h",
    "01 0161 h01",
    "01 0161 H7f",
    "01 0161 81h00",
    "8180808010 0161 00",
    "81808080808080808002 0161 00",
    "8180808080808080808001 0161 00",
    "01 81808080808080808002 61 00",
    "01 0161 81808080808080808002",
];

// The label before in the same or another spelling; one below it, about the letters too, or its opening; the third of
// three labels, beside the second or the first.
const ORDER: [&str; 18] = [
    "02 0161 00 0161 00",
    "02 0161 00 0141 00",
    "02 0141 00 0161 00",
    "02 0162 00 0161 00",
    "02 015a 00 0161 00",
    "02 015a 00 015f 00",
    "02 017b 00 015a 00",
    "02 01ff 00 0100 00",
    "02 0101 00 020000 00",
    "02 026162 00 0161 00",
    "02 026162 00 0141 00",
    "02 026162 00 024142 00",
    "02 026142 00 026162 00",
    "02 40w 00 40w 00",
    "02 40w 00 0161 00",
    "03 0161 00 0162 00 0162 00",
    "03 0161 00 0163 00 0162 00",
    "03 0162 00 0163 00 0161 00",
];

// A label not above the one before it, of which another thing is broken: its length, bytes or value.
const ORDER_LAST: [&str; 8] = [
    "02 0162 00 00 00",
    "02 0162 00 8100 61 00",
    "02 0162 00 02 61",
    "02 0161 00 0161",
    "02 0162 00 0161 80",
    "02 0162 00 0161 8000",
    "02 0161 00 0141 808004",
    "02 0161 00 0161 h01",
];

// A label not above the one before it, before anything else that is broken: the next label, or bytes after the last.
const ORDER_FIRST: [&str; 8] = [
    "03 0162 00 0161 00",
    "03 0162 00 0161 00 00 00",
    "03 0162 00 0161 00 8100 63 00",
    "03 0161 00 0141 00 02 63",
    "03 0161 00 0161 00 0163 8000",
    "03 0162 00 0161 00 0163 h01",
    "02 0161 00 0161 00 00",
    "02 0162 00 0161 00 0163 00",
];

// One byte after the last label, or many: a whole label, a number, or what is neither.
const ENDS: [&str; 10] = [
    "00 00",
    "00 80",
    "00 0161 00",
    "00 h",
    "01 0161 00 00",
    "01 0161 ffff03 01",
    "01 0161 00 80",
    "01 0161 00 0161 00",
    "01 0161 00 0162 00",
    "02 0161 00 0162 00 www",
];

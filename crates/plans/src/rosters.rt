// Files of rosters, with more labels or fewer than they say.
use crate::planned::Due;
use images::outputs::Front;
use images::refusals::Refusal;
use samples::shapes::Shape;

// A roster's file: the number that stands before its labels, the labels, and how many of its last bytes are cut; and
// what is to come of it.
#[derive(Clone, Copy, Debug)]
pub struct Roster {
    count: usize,
    labels: usize,
    cut: usize,
    pub due: Due,
}

fn straps(count: usize, labels: usize, cut: usize, due: Due) -> Roster {
    Roster {
        count,
        labels,
        cut,
        due,
    }
}

// As many labels as a table holds, and one more; one byte or one label less or more than the count says.
pub fn roster_of(i: usize) -> Option<Roster> {
    Some(match i {
        0 => straps(512, 512, 0, Due::Done),
        1 => straps(512, 512, 1, Due::Refused(Refusal::BrokenFile)),
        2 => straps(512, 511, 0, Due::Refused(Refusal::BrokenFile)),
        3 => straps(511, 512, 0, Due::Refused(Refusal::BytesAfter)),
        4 => straps(513, 513, 0, Due::Refused(Refusal::BrokenFile)),
        5 => straps(513, 512, 0, Due::Refused(Refusal::BrokenFile)),
        6 => straps(512, 513, 0, Due::Refused(Refusal::BytesAfter)),
        7 => straps(128, 128, 0, Due::Done),
        8 => straps(127, 128, 0, Due::Refused(Refusal::BytesAfter)),
        9 => straps(129, 128, 0, Due::Refused(Refusal::BrokenFile)),
        10 => straps(1, 1, 0, Due::Done),
        _ => return None,
    })
}

impl Roster {
    // Writes the file, each label with value 0.
    pub fn write(self, file: &mut Front) {
        push_count(file, self.count);
        for k in 0..self.labels {
            let label = Shape::Roster.label(64, k);
            let bytes = label.as_slice();
            file.push((bytes.len() % 256) as u8);
            for &byte in bytes {
                file.push(byte);
            }
            file.push(0);
        }
        file.cut(self.cut);
    }
}

fn push_count(file: &mut Front, count: usize) {
    if count < 128 {
        file.push((count % 256) as u8);
    } else {
        file.push((128 + count % 128) as u8);
        file.push((count / 128 % 256) as u8);
    }
}

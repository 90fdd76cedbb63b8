// The groups of calls on sound tables: which calls they make.
use crate::planned::{Due, Planned};
use crate::{charging, edges};
use images::refusals::Refusal;
use samples::calls::Call;
use samples::numbers;
use samples::shapes::Shape;

// The ways of a group.
#[derive(Clone, Copy, Debug, PartialEq, Eq)]
pub enum Way {
    // Case 11 of the paper, by the index's sizes.
    Case,
    // All labels of a shape inserted, searched and deleted, in order, in reverse or in steps of 333, and one inserted
    // alone.
    InOrder,
    Reversed,
    Stepped,
    // Calls drawn from a generator.
    Drawn,
    // Some labels inserted, then twelve deleted.
    Prepared,
    // A full table of names, each inserted again in another spelling.
    Respelled,
    // The hub alone has the others: calls drawn, of which some set charges; labels inserted, each given a charge,
    // deleted and inserted anew; the charges at the edges.
    ChargesDrawn,
    Charged,
    ChargeEdges,
}

impl Way {
    pub fn name(self) -> &'static str {
        match self {
            Way::Case => "case 11",
            Way::InOrder => "in order",
            Way::Reversed => "reversed",
            Way::Stepped => "stepped",
            Way::Drawn => "drawn",
            Way::Prepared => "prepared",
            Way::Respelled => "respelled",
            Way::ChargesDrawn => "charges drawn",
            Way::Charged => "charged",
            Way::ChargeEdges => "charge edges",
        }
    }
}

// A group: its way, its shape, and of how many labels.
#[derive(Clone, Copy, Debug)]
pub struct Plan {
    pub way: Way,
    pub shape: Shape,
    pub labels: usize,
}

// The plans on an index of so many slots.
pub fn plans(slots: usize) -> [Plan; 25] {
    // More labels than there are slots: 800 for the hub, 50 for the page.
    let surplus = slots % 513 * 25 / 16;
    // Four times as many labels, where several are one in different spellings; 800 at most.
    let many = (slots % 513 * 25 / 4).min(800);
    // So many labels, or else two fewer than there are slots.
    let fewer = slots.wrapping_sub(2);
    [
        group(Way::Case, Shape::Roster, slots),
        group(Way::InOrder, Shape::Roster, surplus),
        group(Way::Reversed, Shape::Roster, surplus),
        group(Way::Stepped, Shape::Alike, surplus),
        group(Way::Stepped, Shape::Ends, surplus),
        group(Way::Stepped, Shape::Any, surplus),
        group(Way::Drawn, Shape::Roster, surplus),
        group(Way::Drawn, Shape::Alike, surplus),
        group(Way::Drawn, Shape::Ends, surplus),
        group(Way::Drawn, Shape::Short, surplus),
        group(Way::Drawn, Shape::Any, surplus),
        group(Way::Stepped, Shape::Spelled, surplus),
        group(Way::Drawn, Shape::Spelled, many),
        group(Way::Drawn, Shape::Letters, many),
        group(Way::Respelled, Shape::Spelled, slots),
        group(Way::ChargesDrawn, Shape::Alike, surplus),
        group(Way::ChargesDrawn, Shape::Any, surplus),
        group(Way::ChargesDrawn, Shape::Spelled, many),
        group(Way::Charged, Shape::Roster, slots.wrapping_sub(1)),
        group(Way::ChargeEdges, Shape::Roster, 4),
        group(Way::Prepared, Shape::Alike, fewer.min(45)),
        group(Way::Prepared, Shape::Ends, fewer.min(70)),
        group(Way::Prepared, Shape::Letters, fewer.min(70)),
        group(Way::Prepared, Shape::Four, fewer.min(70)),
        group(Way::Prepared, Shape::Roster, slots.wrapping_add(48)),
    ]
}

fn group(way: Way, shape: Shape, labels: usize) -> Plan {
    Plan { way, shape, labels }
}

impl Plan {
    // Whether it makes calls that the pairing page's index does not have.
    pub fn is_hubs(self) -> bool {
        matches!(
            self.way,
            Way::ChargesDrawn | Way::Charged | Way::ChargeEdges
        )
    }

    // How many calls it makes.
    pub fn calls(self) -> usize {
        let labels = self.labels % 801;
        match self.way {
            Way::Case => 2 * labels + 17,
            Way::InOrder | Way::Reversed | Way::Stepped => 3 * labels + 4,
            Way::Drawn => (40 * labels).min(8000),
            Way::Prepared => labels + 12,
            Way::Respelled => 2 * labels + 8,
            Way::ChargesDrawn => (40 * labels).min(4000),
            Way::Charged => 4 * labels,
            Way::ChargeEdges => labels + edges::CALLS,
        }
    }

    // Call `i`, with a number of its generator.
    pub fn call(self, i: usize, seed: u64) -> Planned {
        match self.way {
            Way::Case => case_call(self.labels, i),
            Way::InOrder | Way::Reversed | Way::Stepped => self.swept(i),
            Way::Drawn => self.drawn(i, seed),
            Way::Prepared => self.prepared(i),
            Way::Respelled => respelled(self.labels, i),
            Way::ChargesDrawn => charging::or_charge(self.drawn(i, seed), seed),
            Way::Charged => charging::charged(self.labels, i),
            Way::ChargeEdges => charging::at_edges(self.labels, i),
        }
    }

    // A call of which the judges say what is to come.
    fn judged(self, call: Call, label: usize) -> Planned {
        Planned::new(call, self.shape, label, Due::Judged)
    }

    fn swept(self, i: usize) -> Planned {
        let k = i.checked_rem(self.labels).unwrap_or(0);
        let label = self.swept_label(k);
        match i.checked_div(self.labels).unwrap_or(0) {
            0 => self.judged(Call::Insert, label),
            1 => self.judged(Call::Search, label),
            2 => self.judged(Call::Delete, label),
            _ => self.emptied(k),
        }
    }

    // On a table filled and emptied: a search; then one label is inserted alone, and it and another are searched.
    fn emptied(self, i: usize) -> Planned {
        match i {
            1 => self.judged(Call::Insert, 0),
            3 => self.judged(Call::Search, 1),
            _ => self.judged(Call::Search, 0),
        }
    }

    // The label that comes after `i` others.
    fn swept_label(self, i: usize) -> usize {
        match self.way {
            Way::InOrder => i,
            Way::Reversed => self.around(self.labels.wrapping_sub(i)),
            _ => self.around(i.wrapping_mul(333)),
        }
    }

    // The label that a number reaches around those of the group.
    fn around(self, number: usize) -> usize {
        number.checked_rem(self.labels).unwrap_or(0)
    }

    // Mostly inserts, for as many calls as there are labels and an eighth more; then for as many mostly deletes; and so
    // on.
    fn drawn(self, i: usize, seed: u64) -> Planned {
        let label = numbers::below(numbers::next(seed), self.labels);
        let turn = self.labels.wrapping_add(self.labels / 8);
        let fills = i.checked_div(turn).unwrap_or(0) % 2 == 0;
        let call = match numbers::below(seed, 10) {
            0..=1 => Call::Search,
            2..=7 if fills => Call::Insert,
            2..=7 => Call::Delete,
            _ if fills => Call::Delete,
            _ => Call::Insert,
        };
        self.judged(call, label)
    }

    fn prepared(self, i: usize) -> Planned {
        match i.checked_sub(self.labels) {
            None => self.judged(Call::Insert, i),
            Some(k) => self.judged(Call::Delete, self.around(k.wrapping_mul(5))),
        }
    }
}

// The lengths of a label: the longest, one more and none. Then a roster until the table is full, two labels more, each
// held one again, and the lengths again.
fn case_call(slots: usize, i: usize) -> Planned {
    let Some(i) = i.checked_sub(8) else {
        return lengths_call(i, Due::Done);
    };
    let Some(k) = i.checked_sub(slots) else {
        return member(i, Due::Done);
    };
    match k.checked_sub(2) {
        None => member(slots.wrapping_add(k), Due::Refused(Refusal::Full)),
        Some(held) if held < slots => member(held, Due::Refused(Refusal::AlreadyHeld)),
        Some(more) => lengths_call(more.wrapping_sub(slots), Due::Refused(Refusal::Full)),
    }
}

fn member(label: usize, due: Due) -> Planned {
    Planned::new(Call::Insert, Shape::Roster, label, due)
}

// Calls on the longest label, 0, on one that is longer, 1, and on none, 2.
const LENGTHS: [(Call, usize); 8] = [
    (Call::Insert, 0),
    (Call::Insert, 1),
    (Call::Insert, 2),
    (Call::Search, 1),
    (Call::Search, 2),
    (Call::Delete, 1),
    (Call::Delete, 2),
    (Call::Delete, 0),
];

// The longest label is to be inserted or refused, one longer and none are refused by 4 and 3, and the first is deleted.
fn lengths_call(i: usize, longest: Due) -> Planned {
    let (call, label) = LENGTHS[i % LENGTHS.len()];
    let due = match label {
        0 => longest,
        1 => Due::Refused(Refusal::LongLabel),
        _ => Due::Refused(Refusal::EmptyLabel),
    };
    Planned::new(call, Shape::Longest, label, due)
}

// Names in small letters until the table is full, each again in another spelling, and then some calls on one of them.
fn respelled(slots: usize, i: usize) -> Planned {
    let Some(again) = i.checked_sub(slots) else {
        return name(Call::Insert, i, 0, Due::Done);
    };
    match again.checked_sub(slots) {
        None => name(
            Call::Insert,
            again,
            again % 3 + 1,
            Due::Refused(Refusal::AlreadyHeld),
        ),
        Some(k) => renewed(slots, k),
    }
}

// On a full table: a new name is refused; one held is deleted by another spelling, and inserted anew in a third, in
// which it stays.
fn renewed(slots: usize, i: usize) -> Planned {
    let held = slots / 2;
    match i {
        0 => name(Call::Insert, slots, 1, Due::Refused(Refusal::Full)),
        1 => name(Call::Search, held, 2, Due::Done),
        2 => name(Call::Delete, held, 1, Due::Done),
        3 => name(Call::Delete, held, 0, Due::Refused(Refusal::NotHeld)),
        4 => name(Call::Insert, held, 3, Due::Done),
        5 => name(Call::Insert, held, 0, Due::Refused(Refusal::AlreadyHeld)),
        6 => name(Call::Search, held, 1, Due::Done),
        _ => name(Call::Insert, slots, 0, Due::Refused(Refusal::Full)),
    }
}

// A call on a name in a spelling.
fn name(call: Call, number: usize, spelling: usize, due: Due) -> Planned {
    let label = spelling.wrapping_add(4 * (number % 513));
    Planned::new(call, Shape::Spelled, label, due)
}

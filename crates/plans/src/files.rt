// The tables of the hub whose files are at an edge: how they are made, and how many bytes the file of each has.
use samples::calls::Call;
use samples::shapes::Shape;

// The groups: no label, in a fresh table and in one filled and emptied; one label of one byte, and one of 64, with the
// values at which a number begins to take one byte, two or three, and those before; 127 labels, 128 and 129; 512 labels
// of 64 bytes with the greatest value; 102 of these, each given a charge.
#[derive(Clone, Copy, Debug, PartialEq, Eq)]
pub enum Group {
    Empty,
    ShortLabel,
    LongLabel,
    Counts,
    Full,
    Charged,
}

// A table: the first labels of a shape are inserted, all with one value; then each is deleted or given a charge, or
// neither; and the bytes of its file.
#[derive(Clone, Copy, Debug)]
pub struct Edge {
    pub shape: Shape,
    pub labels: usize,
    pub value: u16,
    pub then: Option<Call>,
    pub bytes: usize,
}

// Values, and the bytes that each takes.
const VALUES: [(u16, usize); 6] = [
    (0, 1),
    (127, 1),
    (128, 2),
    (16383, 2),
    (16384, 3),
    (65535, 3),
];

// Counts of labels of 10 bytes with value 0, and the bytes of their file: 12 for each, and one or two before them.
const COUNTS: [(usize, usize); 3] = [(127, 1525), (128, 1538), (129, 1550)];

// The most tables that a group has; they are asked for by number, as a list of them may be refused its memory.
pub const TABLES: usize = 6;

impl Group {
    pub const ALL: [Group; 6] = [
        Group::Empty,
        Group::ShortLabel,
        Group::LongLabel,
        Group::Counts,
        Group::Full,
        Group::Charged,
    ];

    pub fn name(self) -> &'static str {
        match self {
            Group::Empty => "empty",
            Group::ShortLabel | Group::LongLabel => "values",
            Group::Counts => "counts",
            Group::Full => "full",
            Group::Charged => "charged",
        }
    }

    pub fn shape(self) -> Shape {
        match self {
            Group::Empty | Group::Counts => Shape::Roster,
            Group::ShortLabel => Shape::Short,
            Group::LongLabel => Shape::Longest,
            Group::Full | Group::Charged => Shape::Widest,
        }
    }

    // Table `i` of the group, where it has so many.
    pub fn table(self, i: usize) -> Option<Edge> {
        match self {
            Group::Empty if i < 2 => Some(self.edge(512 * i, 300, Some(Call::Delete), 1)),
            Group::ShortLabel => {
                let (value, bytes) = *VALUES.get(i)?;
                Some(self.edge(1, value, None, bytes.wrapping_add(3)))
            }
            Group::LongLabel => {
                let (value, bytes) = *VALUES.get(i)?;
                Some(self.edge(1, value, None, bytes.wrapping_add(66)))
            }
            Group::Counts => {
                let (labels, bytes) = *COUNTS.get(i)?;
                Some(self.edge(labels, 0, None, bytes))
            }
            Group::Full if i == 0 => Some(self.edge(512, 65535, None, 34818)),
            Group::Charged if i == 0 => Some(self.edge(102, 65535, Some(Call::SetCharge), 6937)),
            _ => None,
        }
    }

    fn edge(self, labels: usize, value: u16, then: Option<Call>, bytes: usize) -> Edge {
        Edge {
            shape: self.shape(),
            labels,
            value,
            then,
            bytes,
        }
    }
}

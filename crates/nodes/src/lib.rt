// The step at one node, in parts: whether there is a node to visit, where its place and side send the walk, the
// comparison with its label, and where the walk stands after it, with the nearest nodes that it went past. The search
// and the search of an update are made of these parts. Only `halts` and `son_at` read the table: all else takes a row.
#![tactic(auto)]

ghost use Rattle.std.specs.Prelude.{◌≡◌, ◌≤◌};
ghost use Rattle.labels.specs.Labels.{compare_from};
ghost use Rattle.compares.specs.Compares.{comparison_of};
ghost use Rattle.tables.specs.Words.{row_at, label_at};
ghost use Rattle.tables.specs.Steps.{is_bad, compare_step};
ghost use Rattle.words.specs.Rows.{HasRow};
ghost use Rattle.nodes.specs.Nodes.{number_before, halts_at, reached_on, turn_of, row_step, son_of, spot_after};
ghost use Rattle.nodes.specs.Nodes.{step_onward, step_from, examined_in};
ghost use Rattle.nodes.specs.Bounds.{AtRow, AtPlace, CanTest, CanStep, Onward};

use compares::Compared;
use std::cmp::Ordering;
use types::{Limits, Row};

// Where the search of an update stands: the next link, the numbers P and S of the search steps, the slots of the last
// nodes where it went right and left, which are the nearest smaller and the nearest larger one, 0 for none, and the
// counts so far.
#[derive(Clone, Copy)]
pub struct Spot {
    pub link: usize,
    pub p: usize,
    pub s: usize,
    pub below: u16,
    pub above: u16,
    pub visits: usize,
    pub places: usize,
}

// Where a node's place sends the walk: to a son, or to a comparison.
#[derive(Clone, Copy)]
pub enum Turn {
    Left,
    Right,
    Compare,
}

impl Turn {
    // Where a node with this side and place d sends the walk, which has reached P or S, the number that the side goes
    // by. With P at d and S above it the sought label is known to be larger. Side successor compares: there d is S.
    // A number beyond d sends the walk left on side predecessor, 0, and right on side successor, 1; one below d sends
    // it the other way.
    #[tactic(auto, using(std::proofs::lemmas::Grind::common_steps), unfolding(crate::specs::Nodes::turn_of))]
    pub fn of(side: usize, d: usize, reached: usize, s: usize) -> Turn
        ensures { result ≡ turn_of side d reached s }
    {
        if reached == d {
            if d < s { Turn::Right } else { Turn::Compare }
        } else if usize::from(d < reached) == side {
            Turn::Right
        } else {
            Turn::Left
        }
    }
}

// The way to a son of a node, the right one or else the left one: P and S after the node's step, the slots of the
// nearest smaller and larger node, and the places that it examined.
#[derive(Clone, Copy)]
pub struct Move {
    pub right: bool,
    pub p: usize,
    pub s: usize,
    pub below: u16,
    pub above: u16,
    pub examined: usize,
}

// What a node's step does there: the label is found, after so many places, or the walk goes on to a son.
#[derive(Clone, Copy)]
pub enum Step {
    Found { examined: usize },
    Onward(Move),
}

// The number before a place or a link; before 0, which is neither, the largest of all.
#[tactic(auto, using(std::proofs::lemmas::Grind::common_steps), unfolding(crate::specs::Nodes::number_before))]
fn prior(number: usize) -> usize
    ensures { result ≡ number_before number }
{
    number.wrapping_sub(1)
}

// Whether a node's length, place or side breaks the walk.
#[tactic(auto, using(std::proofs::lemmas::Grind::common_steps), unfolding(tables::specs::Steps::is_bad, crate::specs::Nodes::number_before))]
fn bad_row(limits: Limits, row: Row) -> bool
    ensures { result ≡ is_bad limits row }
{
    row.len == 0
        || limits.width < row.len as usize
        || (row.len as usize) < prior(row.place as usize)
        || 1 < row.side
}

// Whether there is no node to visit: the link is empty, or the walk is broken there, with so many nodes left to visit.
#[tactic(auto, using(std::proofs::lemmas::Grind::common_steps), unfolding(crate::specs::Nodes::halts_at, crate::specs::Nodes::number_before))]
pub fn halts(limits: Limits, table: &[u16], link: usize, remaining: usize) -> bool
    requires { CanTest limits table.now }
    ensures { result ≡ halts_at limits table.now link remaining }
{
    limits.slots <= prior(link) || remaining == 0 || bad_row(limits, words::read_row(table, link))
}

// The comparison with the label of a node, from the node's place on.
pub fn compare_row(limits: Limits, store: &[u8], label: &[u8], link: usize, row: Row) -> Compared
    requires { AtRow limits store.now link row }
    ensures result_value { comparison_of result
        ≡ compare_from row.place label.now (label_at limits store.now link row.len) }
    ensures at_place { AtPlace row.place result }
{
    let held = words::parts::label_at(limits, store, link, row.len as usize);
    compares::compare(label, held, row.place as usize)
}

// The way to a son of the node in this slot: right of the node it is the nearest smaller one, left of it the nearest
// larger one.
fn onward(spot: Spot, slot: u16, right: bool, p: usize, s: usize, examined: usize) -> Move
    ensures { result ≡ step_onward spot slot right p s examined }
{
    let (below, above) = if right {
        (slot, spot.above)
    } else {
        (spot.below, slot)
    };
    Move {
        right,
        p,
        s,
        below,
        above,
        examined,
    }
}

// The step at the node in this slot after a comparison that started at place d.
fn decide(spot: Spot, slot: u16, d: usize, c: Compared) -> Step
    requires { AtPlace d c }
    ensures value { result ≡ step_from spot slot (compare_step (comparison_of c) d spot.p spot.s) }
    ensures examined_bound { examined_in result ≤ 4097 }
{
    let place = c.place;
    let examined = place + 1 - d;
    match c.order {
        Ordering::Less => Step::Onward(onward(spot, slot, false, spot.p, place, examined)),
        Ordering::Equal => Step::Found { examined },
        Ordering::Greater => Step::Onward(onward(spot, slot, true, place, spot.s, examined)),
    }
}

// Where the node with this row sends the search: side predecessor goes by P, side successor by S.
fn turn_at(spot: Spot, row: Row) -> Turn
    ensures { result ≡ turn_of row.side row.place (reached_on row.side spot.p spot.s) spot.s }
{
    let side = row.side as usize;
    let reached = if side == 0 { spot.p } else { spot.s };
    Turn::of(side, row.place as usize, reached, spot.s)
}

// The whole step at a node with this row, where the walk is not broken.
pub fn visit(limits: Limits, store: &[u8], label: &[u8], spot: Spot, row: Row) -> Step
    requires { AtRow limits store.now spot.link row }
    ensures value { result
        ≡ step_from spot spot.link
        (row_step limits store.now label.now spot.link row spot.p spot.s) }
    ensures examined_bound { examined_in result ≤ 4097 }
{
    let slot = spot.link as u16;
    match turn_at(spot, row) {
        Turn::Left => Step::Onward(onward(spot, slot, false, spot.p, spot.s, 0)),
        Turn::Right => Step::Onward(onward(spot, slot, true, spot.p, spot.s, 0)),
        Turn::Compare => {
            let held = words::parts::label_at(limits, store, spot.link, row.len as usize);
            let c = compares::by_table(label, held, row.place as usize);
            decide(spot, slot, row.place as usize, c)
        }
    }
}

// The link to a son.
#[tactic(auto, using(std::proofs::lemmas::Grind::common_steps), unfolding(crate::specs::Nodes::son_of))]
pub fn son(row: Row, right: bool) -> u16
    ensures { result ≡ son_of row right }
{
    if right { row.right } else { row.left }
}

// The same link, read from the table.
#[tactic(auto, using(std::proofs::lemmas::Grind::common_steps), unfolding(crate::specs::Nodes::son_of, tables::specs::Words::row_at))]
pub fn son_at(table: &[u16], link: usize, right: bool) -> u16
    requires { HasRow table.now link }
    ensures { result ≡ son_of (row_at table.now link) right }
{
    let base = 4 + 8 * (link - 1);
    table[base + usize::from(right)]
}

// Where the walk stands after a move from a node with this row.
pub fn after(spot: Spot, row: Row, step: Move) -> Spot
    requires { CanStep spot step }
    ensures value { result ≡ spot_after spot row step }
    ensures onward { Onward spot result }
{
    let link = son(row, step.right) as usize;
    Spot {
        link,
        p: step.p,
        s: step.s,
        below: step.below,
        above: step.above,
        visits: spot.visits + 1,
        places: spot.places + step.examined,
    }
}

// The search steps.
use audits::lengths::admit_label;
use images::memory::{Field, Head, Image};
use images::packing::{Answer, Counts};
use images::refusals::Refusal;
use plainmap::labels;
use std::cmp::Ordering;

// Where the search stands: the numbers P and S, the last nodes where it went right and left, 0 for none as the paper
// writes them, and both counts.
#[derive(Clone, Copy)]
struct State {
    p: usize,
    s: usize,
    below: usize,
    above: usize,
    counts: Counts,
}

// Where a node sends the search: to its left or its right son, or nowhere, where it has the label.
#[derive(Clone, Copy)]
enum Step {
    Left,
    Right,
    Found,
}

pub fn search(image: &Image, label: &[u8]) -> Result<Answer, Refusal> {
    let mut at = State {
        p: 1,
        s: 1,
        below: 0,
        above: 0,
        counts: Counts::default(),
    };
    let mut link = image.head(Head::Root);
    for _ in 0..image.sizes.depth {
        if link == 0 {
            break;
        }
        admit_node(image, link)?;
        let step = at.visit(image, label, link);
        at.counts.visits = at.counts.visits.wrapping_add(1);
        match step {
            Step::Left => {
                at.above = link;
                link = image.field(link, Field::Left);
            }
            Step::Right => {
                at.below = link;
                link = image.field(link, Field::Right);
            }
            Step::Found => {
                return Ok(Answer::Found {
                    slot: link,
                    value: image.field(link, Field::Value),
                    counts: at.counts,
                });
            }
        }
    }
    // A link that is left over is that of a node too deep.
    if link > 0 {
        return Err(Refusal::BrokenWalk);
    }
    Ok(Answer::Absent {
        below: at.below,
        above: at.above,
        counts: at.counts,
    })
}

// Refuses a node that a search is to visit with a slot, length, place or side that no node has.
fn admit_node(image: &Image, slot: usize) -> Result<(), Refusal> {
    let len = image.field(slot, Field::Length);
    let place = image.field(slot, Field::Place);
    if slot > image.sizes.slots
        || admit_label(image, len).is_err()
        || image.field(slot, Field::Side) > 1
        || place == 0
        || place > len.wrapping_add(1)
    {
        return Err(Refusal::BrokenWalk);
    }
    Ok(())
}

impl State {
    fn visit(&mut self, image: &Image, label: &[u8], slot: usize) -> Step {
        let place = image.field(slot, Field::Place);
        let p = self.p.cmp(&place);
        let s = self.s.cmp(&place);
        if image.field(slot, Field::Side) == 0 {
            match (p, s) {
                (Ordering::Less, _) | (Ordering::Equal, Ordering::Greater) => Step::Right,
                (Ordering::Greater, _) => Step::Left,
                _ => self.compare(image, label, slot, place),
            }
        } else {
            match s {
                Ordering::Less => Step::Left,
                Ordering::Greater => Step::Right,
                Ordering::Equal => self.compare(image, label, slot, place),
            }
        }
    }

    // The visit of a node whose label is compared from a place on.
    fn compare(&mut self, image: &Image, label: &[u8], slot: usize, from: usize) -> Step {
        let end = compared_to(image, slot, label, from);
        let examined = end.wrapping_add(1).wrapping_sub(from);
        self.counts.places = self.counts.places.wrapping_add(examined);
        match labels::number_at(label, end).cmp(&image.number_at(slot, end)) {
            Ordering::Less => {
                self.s = end;
                Step::Left
            }
            Ordering::Greater => {
                self.p = end;
                Step::Right
            }
            Ordering::Equal => Step::Found,
        }
    }
}

// The last place that a comparison from a place on examines: the first difference, or the shared end.
fn compared_to(image: &Image, slot: usize, label: &[u8], from: usize) -> usize {
    let last = image.sizes.width.wrapping_add(1);
    // By place: past a label's end there is no byte, and its number is 0.
    for place in from..last {
        let sought = labels::number_at(label, place);
        if sought == 0 || sought != image.number_at(slot, place) {
            return place;
        }
    }
    last
}

// Soundness: the tree is read level by level, each node tested against its two neighbours above it, heights are counted
// from the last node back to the root, and what is left must be the free chain and slots that are all zero.
use crate::charges::admit_charge;
use crate::lengths::admit_label;
use arrayvec::ArrayVec;
use images::memory::{Field, Head, Image, number_of};
use images::refusals::Refusal;

// What is read of a slot: its neighbours above it in the tree, 0 for none as in the table's links; whether it was met;
// and its height.
#[derive(Clone, Copy, Default)]
pub struct Node {
    pub before: usize,
    pub after: usize,
    met: bool,
    height: usize,
}

// The slots in the order in which they are met, and what is read of each.
#[derive(Drop)]
pub struct Tree {
    queue: ArrayVec<usize, 512>,
    nodes: [Node; 513],
}

impl Tree {
    // The tree that a table's links give; none where they give none.
    pub fn read(image: &Image) -> Option<Tree> {
        let mut tree = Tree {
            queue: ArrayVec::new(),
            nodes: [Node::default(); 513],
        };
        tree.join(image, image.head(Head::Root), 0, 0)?;
        // By place, as the queue grows meanwhile.
        for i in 0..image.sizes.slots {
            let Some(slot) = tree.queue.as_slice().get(i).copied() else {
                break;
            };
            let Node { before, after, .. } = tree.node(slot);
            tree.join(image, image.field(slot, Field::Left), before, slot)?;
            tree.join(image, image.field(slot, Field::Right), slot, after)?;
        }
        Some(tree)
    }

    // Takes a link's node, with its neighbours; none where it is no new one.
    fn join(&mut self, image: &Image, link: usize, before: usize, after: usize) -> Option<()> {
        if link == 0 {
            return Some(());
        }
        if self.queue.len() >= image.sizes.slots || link > image.head(Head::Mark) {
            return None;
        }
        let node = self.nodes.get_mut(link)?;
        if node.met {
            return None;
        }
        *node = Node {
            before,
            after,
            met: true,
            height: 0,
        };
        self.queue.try_push(link).ok()
    }

    // What is read of a slot; of none nothing.
    pub fn node(&self, slot: usize) -> Node {
        self.nodes.get(slot).copied().unwrap_or_default()
    }

    // Whether the table is sound that gives it, where its high mark is that of a slot.
    fn holds(&mut self, image: &Image) -> bool {
        self.queue.len() == image.head(Head::Held)
            && self.nodes_hold(image)
            && self.count_heights(image)
            && self.chain_holds(image)
            && rest_is_zero(image)
    }

    fn height(&self, slot: usize) -> usize {
        self.node(slot).height
    }

    // Whether every node has a label, between those of its neighbours, and the place and side that these give.
    fn nodes_hold(&self, image: &Image) -> bool {
        self.queue
            .as_slice()
            .iter()
            .all(|slot| node_holds(image, *slot, self.node(*slot)))
    }

    // Counts the heights from the last node met to the root; whether each balance is right.
    fn count_heights(&mut self, image: &Image) -> bool {
        // By place, as the nodes change meanwhile.
        for i in (0..self.queue.len()).rev() {
            let slot = self.queue.as_slice().get(i).copied().unwrap_or(0);
            let left = self.height(image.field(slot, Field::Left));
            let right = self.height(image.field(slot, Field::Right));
            let balance = image.field(slot, Field::Balance);
            if balance > 2 || left.wrapping_add(balance) != right.wrapping_add(1) {
                return false;
            }
            if let Some(node) = self.nodes.get_mut(slot) {
                node.height = left.max(right).wrapping_add(1);
            }
        }
        true
    }

    // Whether the free chain holds the slots up to the high mark that no node has, each once and all zero but for its
    // link, and then ends.
    fn chain_holds(&mut self, image: &Image) -> bool {
        let mark = image.head(Head::Mark);
        let mut link = image.head(Head::Free);
        for _ in self.queue.len()..mark {
            let Some(node) = self.nodes.get_mut(link) else {
                return false;
            };
            if link > mark || node.met || !slot_is_zero(image, link, &Field::ALL[1..]) {
                return false;
            }
            node.met = true;
            link = image.field(link, Field::Left);
        }
        link == 0
    }
}

// Refuses memory that is not sound.
pub fn admit(image: &Image) -> Result<(), Refusal> {
    if is_sound(image) {
        Ok(())
    } else {
        Err(Refusal::NotSound)
    }
}

pub fn is_sound(image: &Image) -> bool {
    match Tree::read(image) {
        Some(mut tree) => image.head(Head::Mark) <= image.sizes.slots && tree.holds(image),
        None => false,
    }
}

fn node_holds(image: &Image, slot: usize, node: Node) -> bool {
    let low = difference(image, node.before, slot);
    let high = difference(image, slot, node.after);
    label_holds(image, slot)
        && ascends(image, node.before, slot, low)
        && ascends(image, slot, node.after, high)
        && prefix_holds(image, slot, low, high)
}

// Whether a slot's length is a label's, its last word a charge, and its bytes past the label 0.
fn label_holds(image: &Image, slot: usize) -> bool {
    let len = image.field(slot, Field::Length);
    admit_label(image, len).is_ok()
        && admit_charge(image.field(slot, Field::Charge)).is_ok()
        && bytes_are_zero(image, slot, len)
}

// Whether a slot's place and side are those that its difference places with both neighbours give: the larger place, 1
// with no neighbour, on the larger neighbour's side where that place is larger.
fn prefix_holds(image: &Image, slot: usize, before: usize, after: usize) -> bool {
    image.field(slot, Field::Place) == before.max(after).max(1)
        && image.field(slot, Field::Side) == usize::from(after > before)
}

// The first place where two slots' labels hold different numbers; 0 where there is none or a slot is missing.
fn difference(image: &Image, one: usize, other: usize) -> usize {
    if one == 0 || other == 0 {
        return 0;
    }
    let (a, b) = (image.label(one), image.label(other));
    let shared = a.len().min(b.len());
    let unlike = a
        .iter()
        .zip(b.iter())
        .position(|(x, y)| number_of(*x) != number_of(*y));
    match unlike {
        Some(i) => i.wrapping_add(1),
        None if a.len() == b.len() => 0,
        None => shared.wrapping_add(1),
    }
}

// Whether a slot's label is below another's, by their difference place; a missing neighbour, slot 0, is below and
// above all.
fn ascends(image: &Image, one: usize, other: usize, place: usize) -> bool {
    one == 0 || other == 0 || image.number_at(one, place) < image.number_at(other, place)
}

// Whether the slots above the high mark are all zero.
fn rest_is_zero(image: &Image) -> bool {
    (image.head(Head::Mark)..image.sizes.slots).all(|below| slot_is_zero(
        image,
        below.wrapping_add(1),
        &Field::ALL,
    ))
}

// Whether some of a slot's words, and its bytes, are 0.
fn slot_is_zero(image: &Image, slot: usize, fields: &[Field]) -> bool {
    slot > 0
        && fields.iter().all(|field| image.field(slot, *field) == 0)
        && bytes_are_zero(image, slot, 0)
}

// Whether a slot's bytes from one on are 0.
fn bytes_are_zero(image: &Image, slot: usize, from: usize) -> bool {
    let rest = image.part(slot).get(from..).unwrap_or(&[]);
    rest.iter().all(|byte| *byte == 0)
}

// The listing: from the lowest node of the tree on, each node's next.
use crate::sound::Tree;
use images::memory::{Field, Head, Image};

// Writes so many slots into the list, in ascending order of their labels, by the links of a table that is sound.
pub fn write(image: &mut Image, held: usize) {
    let Some(tree) = Tree::read(image) else {
        return;
    };
    let mut slot = lowest(image, image.head(Head::Root));
    // By place, as the links are read meanwhile.
    for i in 0..held {
        image.put_listed(i, slot);
        slot = next(image, &tree, slot);
    }
}

// The node at the left end of a node's subtree.
fn lowest(image: &Image, slot: usize) -> usize {
    let mut at = slot;
    for _ in 0..image.sizes.depth {
        match image.field(at, Field::Left) {
            0 => return at,
            left => at = left,
        }
    }
    at
}

// The lowest node of the right subtree; where there is none, the upper neighbour above.
fn next(image: &Image, tree: &Tree, slot: usize) -> usize {
    match image.field(slot, Field::Right) {
        0 => tree.node(slot).after,
        right => lowest(image, right),
    }
}

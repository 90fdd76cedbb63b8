// The three bounds on a search's counts: visits by the smallest tree, places by the label's length, places by the most
// leading bytes that the label shares with any one label held, a number that the map gives.
use images::memory::{Head, Image};
use images::packing::Counts;

// The nodes of the smallest height-balanced tree of a height.
fn smallest(height: usize) -> usize {
    let mut nodes = 0usize;
    let mut next = 1usize;
    for _ in 0..height {
        let sum = nodes.wrapping_add(next).wrapping_add(1);
        nodes = next;
        next = sum;
    }
    nodes
}

// Whether a search of a label of so many bytes may visit and examine as many as it did.
pub fn hold(image: &Image, len: usize, counts: Counts) -> bool {
    let Counts { visits, places } = counts;
    visits <= image.sizes.depth
        && smallest(visits) <= image.head(Head::Held)
        && places <= len.wrapping_add(visits)
}

// Whether a search may examine as many places as it did, by the bytes shared.
pub fn shared_holds(shared: usize, counts: Counts) -> bool {
    counts.places <= most_places(shared, counts)
}

// Whether a search that visited a node examined as many places as the bytes shared allow.
pub fn shared_reached(shared: usize, counts: Counts) -> bool {
    counts.visits > 0 && counts.places == most_places(shared, counts)
}

// The bytes shared, and one place for each node visited.
fn most_places(shared: usize, counts: Counts) -> usize {
    shared.wrapping_add(counts.visits)
}

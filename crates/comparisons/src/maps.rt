// The plain map of what a sound table holds.
use images::memory::{Field, Head, Image};
use plainmap::{Entry, PlainMap};
use samples::shapes::Label;

// The map of the labels in the slots of a table, each in its slot, with its value and its charge; a freed slot has none.
pub fn of_table(image: &Image) -> PlainMap {
    let mut map = PlainMap::new(image.sizes.slots, image.sizes.width);
    for slot in 1..=image.head(Head::Mark) {
        let label = image.label(slot);
        if !label.is_empty() {
            map.hold(Entry {
                slot,
                label: Label::of(label),
                value: (image.field(slot, Field::Value) % 65536) as u16,
                charge: image.field(slot, Field::Charge),
            });
        }
    }
    map
}

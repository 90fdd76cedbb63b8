// The memory that the groups start from, with the map of it.
use crate::takings;
use comparisons::Request;
use images::memory::Image;
use images::outputs;
use plainmap::PlainMap;
use samples::calls::Call;
use sheets::names;
use sheets::names::Step;
use sheets::written::Group;

// Empties an index and a map.
pub fn empty(image: &mut Image, map: &mut PlainMap) {
    // What is left is compared after the first text.
    let _ = rounds::calls::make(image, Request::bare(Call::Layout));
    *map = PlainMap::new(512, 64);
}

// Prepares the table of a group of written texts.
pub fn prepare(image: &mut Image, map: &mut PlainMap, group: Group) {
    empty(image, map);
    match group {
        Group::Full => hold(image, map, names::held(512)),
        Group::OneLeft => hold_some(image, map, 512, names::freed(5, 1)),
        Group::Held | Group::Small => hold_some(image, map, 8, names::freed(2, 2)),
        Group::NotSound => hold_some(image, map, 30, names::freed(3, 4)),
        _ => {}
    }
}

fn hold_some(image: &mut Image, map: &mut PlainMap, straps: usize, freed: Step) {
    hold(image, map, names::held(straps));
    free(image, map, freed);
}

// Inserts the names of a step, one by one.
fn hold(image: &mut Image, map: &mut PlainMap, step: Step) {
    let mut text = outputs::fresh();
    let sheet = step.write(&mut text);
    let text = text.get(..sheet.bytes).unwrap_or(&text);
    readings::judge(image, text, map);
    takings::insert_each(image, text, step.names);
}

// Deletes the names of a step, one by one; whether none is refused.
pub fn free(image: &mut Image, map: &mut PlainMap, step: Step) -> bool {
    let mut text = outputs::fresh();
    let sheet = step.write(&mut text);
    let text = text.get(..sheet.bytes).unwrap_or(&text);
    takings::delete_each(image, map, text, step.names)
}

// The call on the memory that an image holds, lent at the lengths that it says.
use images::memory::Image;

// Takes a text on an image's memory; the answer in one number.
pub fn take(image: &mut Image, text: &[u8]) -> usize {
    match image.table_and_store_mut() {
        Some((table, store)) => exports::take_roster(table, store, text),
        None => 0,
    }
}

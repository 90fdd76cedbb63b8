// The calls of the index on the memory that an image holds, lent at the lengths that it says.
use comparisons::Request;
use images::memory::Image;
use images::packing::Answer;
use index::{Hub, Index, Page};
use reports::faults::Fault;
use samples::calls::Call;

// Makes a call on an image's memory; its answer, where the number that it gives is one.
pub fn make(image: &mut Image, request: Request) -> Result<Answer, Fault> {
    answer(if image.is_page() {
        make_on::<Page>(image, request)
    } else {
        make_on::<Hub>(image, request)
    })
}

// The answer that a number is.
pub fn answer(said: usize) -> Result<Answer, Fault> {
    Answer::try_from(said).map_err(|_| Fault::Answer)
}

fn make_on<I: Index>(image: &mut Image, request: Request) -> usize {
    match request.call {
        Call::Listing => list::<I>(image),
        Call::View => put_view::<I>(image, request.number),
        _ => match image.table_and_store_mut() {
            Some((table, store)) => on_label::<I>(table, store, request),
            None => 0,
        },
    }
}

// Makes any other call but a save and a load.
fn on_label<I: Index>(table: &mut [u16], store: &mut [u8], request: Request) -> usize {
    let Request {
        call,
        label,
        number,
    } = request;
    let value = (number % 65536) as u16;
    match call {
        Call::Search => exports::search::<I>(table, store, label),
        Call::Check => exports::check::<I>(table, store),
        Call::Insert => exports::insert::<I>(table, store, label, value),
        Call::Delete => exports::delete::<I>(table, store, label),
        Call::Layout => exports::layout::<I>(table, store),
        // The hub's index alone has it.
        Call::SetCharge => exports::set_charge(table, store, label, value),
        _ => exports::view_check::<I>(table, store, number),
    }
}

// Makes a listing into the first words of the list.
fn list<I: Index>(image: &mut Image) -> usize {
    let mut list = image.list;
    let said = match (image.table_and_store(), list.get_mut(..image.lent.room)) {
        (Some((table, store)), Some(list)) => exports::listing::<I>(table, store, list),
        _ => 0,
    };
    image.list = list;
    said
}

// Puts the view's bytes, which come from the index itself, into the list.
fn put_view<I: Index>(image: &mut Image, slot: usize) -> usize {
    let mut list = image.list;
    let said = match image.table_and_store() {
        Some((table, store)) => {
            let part = index::view::<I>(table, store, slot);
            for (word, byte) in list.iter_mut().zip(part.iter()) {
                *word = u16::from(*byte);
            }
            usize::from(Answer::Viewed(part.len()))
        }
        None => 0,
    };
    image.list = list;
    said
}

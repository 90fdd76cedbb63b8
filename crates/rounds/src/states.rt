// The memory after a call on a sound table, compared with the map, by the second writing and by calls that read it.
use crate::calls;
use comparisons::Request;
use images::memory::Image;
use images::packing::Answer;
use index::{Hub, Index, Page};
use plainmap::PlainMap;
use reports::faults::{Fault, ensure};
use samples::calls::Call;

// Compares what a call left; where the second writing agrees, by the index's own check, listing and views too.
pub fn compare(
    found: &Image,
    left: &Image,
    map: &PlainMap,
    call: Call,
    said: Answer,
) -> Result<(), Fault> {
    comparisons::states::compare(found, left, map, call, said)?;
    compare_calls(left, map)
}

// Compares memory with what the map holds, by the second writing, then by the index's own calls.
pub fn compare_map(left: &Image, map: &PlainMap) -> Result<(), Fault> {
    comparisons::states::compare_map(left, map)?;
    compare_calls(left, map)
}

fn compare_calls(left: &Image, map: &PlainMap) -> Result<(), Fault> {
    let mut copy = *left;
    let listed = calls::make(&mut copy, Request::bare(Call::Listing))?;
    ensure(
        listed == Answer::Listed(map.held()) && comparisons::states::list_agrees(&copy, map),
        Fault::Listing,
    )?;
    match left.table_and_store() {
        Some((table, store)) if left.is_page() => compare_reads::<Page>(table, store, map),
        Some((table, store)) => compare_reads::<Hub>(table, store, map),
        None => Err(Fault::Memory),
    }
}

fn compare_reads<I: Index>(table: &[u16], store: &[u8], map: &PlainMap) -> Result<(), Fault> {
    ensure(
        exports::check::<I>(table, store) == usize::from(Answer::Done),
        Fault::Check,
    )?;
    for entry in map.entries() {
        let view = index::view::<I>(table, store, entry.slot);
        ensure(view == entry.label.as_slice(), Fault::View)?;
    }
    Ok(())
}

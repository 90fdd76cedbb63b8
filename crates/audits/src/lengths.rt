// Refusals by lengths: a table of 4 words and 8 for each slot, a store of as many bytes for each slot as a label may
// have, a label of 1 to as many.
use images::memory::Image;
use images::refusals::Refusal;

// Refuses memory by its lengths, the table's before the store's.
pub fn admit_lent(image: &Image) -> Result<(), Refusal> {
    if image.lent.words != image.sizes.words() {
        return Err(Refusal::WrongTable);
    }
    if image.lent.bytes != image.sizes.bytes() {
        return Err(Refusal::WrongStore);
    }
    Ok(())
}

// Refuses a label by its length.
pub fn admit_label(image: &Image, len: usize) -> Result<(), Refusal> {
    if len == 0 {
        return Err(Refusal::EmptyLabel);
    }
    if len > image.sizes.width {
        return Err(Refusal::LongLabel);
    }
    Ok(())
}

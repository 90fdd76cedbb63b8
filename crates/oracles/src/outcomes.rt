// What each call says and leaves on memory of any lengths and content; of an insert or a delete that is not refused,
// what it says.
use crate::updates;
use audits::{lengths, listings, sound};
use images::memory::{Field, Head, Image};
use images::packing::Answer;
use images::refusals::Refusal;
use samples::calls::Call;

// Makes a call on a label or a slot, with a charge. The bytes of the view's part are left in the list.
pub fn judge(image: &mut Image, call: Call, label: &[u8], number: usize) -> Answer {
    match call {
        Call::View => Answer::Viewed(view(image, number)),
        _ => Answer::from(on_lent(image, call, label, number)),
    }
}

// Any call but a view.
fn on_lent(image: &mut Image, call: Call, label: &[u8], number: usize) -> Result<Answer, Refusal> {
    lengths::admit_lent(image)?;
    match call {
        Call::Listing => list(image),
        Call::Layout => {
            lay_out(image);
            Ok(Answer::Done)
        }
        Call::Check => {
            sound::admit(image)?;
            Ok(Answer::Done)
        }
        Call::ViewCheck => {
            admit_view(image, number)?;
            Ok(Answer::Done)
        }
        Call::SetCharge => updates::set_charge(image, label, number),
        _ => updates::answer(image, call, label, number),
    }
}

fn lay_out(image: &mut Image) {
    if let Some((table, store)) = image.table_and_store_mut() {
        table.fill(0);
        store.fill(0);
    }
}

fn list(image: &mut Image) -> Result<Answer, Refusal> {
    sound::admit(image)?;
    let held = image.head(Head::Held);
    if held > image.lent.room {
        return Err(Refusal::ShortList);
    }
    listings::write(image, held);
    Ok(Answer::Listed(held))
}

// Refuses the view of a slot.
fn admit_view(image: &Image, slot: usize) -> Result<(), Refusal> {
    lengths::admit_lent(image)?;
    let len = image.field(slot, Field::Length);
    if slot > image.sizes.slots || lengths::admit_label(image, len).is_err() {
        return Err(Refusal::WrongSlot);
    }
    Ok(())
}

// The bytes of a slot's label, none where the view is refused; gives how many.
fn view(image: &mut Image, slot: usize) -> usize {
    if admit_view(image, slot).is_err() {
        return 0;
    }
    let mut list = image.list;
    let label = image.label(slot);
    for (word, byte) in list.iter_mut().zip(label.iter()) {
        *word = u16::from(*byte);
    }
    let len = label.len();
    image.list = list;
    len
}

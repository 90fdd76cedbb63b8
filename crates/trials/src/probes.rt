// What is tried on any memory with a label.
use comparisons::Request;
use images::memory::Image;
use samples::calls::Call;
use samples::charges;

// A call that both indexes have, with a slot; or a charge that is set, a right one or a wrong one.
#[derive(Clone, Copy, Debug, PartialEq, Eq)]
pub enum Probe {
    OfBoth(Call),
    RightCharge,
    WrongCharge,
}

impl Probe {
    // The hub's. A probe's place in the list is part of the seed of what it draws: the inputs may not change.
    pub const ALL: [Probe; 10] = [
        Probe::OfBoth(Call::Search),
        Probe::OfBoth(Call::Check),
        Probe::OfBoth(Call::Listing),
        Probe::OfBoth(Call::ViewCheck),
        Probe::OfBoth(Call::View),
        Probe::OfBoth(Call::Insert),
        Probe::OfBoth(Call::Delete),
        Probe::OfBoth(Call::Layout),
        Probe::RightCharge,
        Probe::WrongCharge,
    ];

    // Whether the index that is called has its call.
    pub fn fits(self, image: &Image) -> bool {
        matches!(self, Probe::OfBoth(_)) || !image.is_page()
    }

    // The call on a label, with a slot or a charge that is drawn.
    pub fn request(self, label: &[u8], slot: usize, draw: u64) -> Request<'_> {
        let (call, number) = match self {
            Probe::OfBoth(call) => (call, slot),
            Probe::RightCharge => (Call::SetCharge, charges::right(draw)),
            Probe::WrongCharge => (Call::SetCharge, charges::wrong(draw)),
        };
        Request {
            call,
            label,
            number,
        }
    }
}

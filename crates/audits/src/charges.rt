// Refusals by charge.
use images::refusals::Refusal;

// Refuses a charge but 0 to 100, and 255 where it is unknown.
pub fn admit_charge(charge: usize) -> Result<(), Refusal> {
    match charge {
        0..=100 | 255 => Ok(()),
        _ => Err(Refusal::WrongCharge),
    }
}

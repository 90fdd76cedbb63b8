// Word 7 of a slot in use, the strap's charge: which words are charges, and the store of one.
ghost use Rattle.std.specs.Prelude.{◌≡◌};
ghost use Rattle.trees.specs.Charges.{is_charge};
ghost use Rattle.tables.specs.Words.{put_charge};

// The word of a charge that is not known.
pub const UNKNOWN: u16 = 255;

// Whether a word is a charge: 0 to 100, or 255 for unknown.
pub fn is_charge(charge: u16) -> bool
    ensures { result ≡ is_charge charge }
{
    charge <= 100 || charge == UNKNOWN
}

// Stores the charge of a slot; every other word stays.
pub fn put_charge(table: &mut [u16], slot: u16, charge: u16)
    ensures { table.new ≡ put_charge table.old slot charge }
{
    let base = crate::total::row_start(slot);
    crate::total::set_word(table, base + 7, charge);
}

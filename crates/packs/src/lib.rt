// An answer packed in one number of 64 bits, for callers in languages that know no enum of the index.
#![tactic(auto)]

ghost use Rattle.std.specs.Prelude.{◌≡◌, MatchResult};
ghost use Rattle.types.specs.Answers.{refused, refusal_number, search_says, update_says, done_says, list_says};
ghost use Rattle.types.specs.SaveReplies.{save_says};
ghost use Rattle.types.specs.LoadReplies.{load_says};
ghost use Rattle.types.specs.RosterReplies.{roster_says};
ghost use Rattle.packs.specs.Packed.{parts, packed, packed_save, packed_load, packed_roster, packed_part};

use types::{Refusal, RefusedRecord, Searched, Updated};

// The five numbers of an answer in one, each cut to its bits. The kinds are numbers of the C interface.
pub fn packed(kind: usize, places: usize, visits: usize, one: usize, other: usize) -> usize
    ensures { result ≡ parts kind places visits one other }
{
    kind % 16
        + (places % 4096 * 16
            + (visits % 65536 * 65536
                + (one % 65536 * 4294967296 + other % 65536 * 281474976710656)))
}

// A refusal in one number.
pub fn packed_refusal(refusal: Refusal) -> usize
    ensures { result ≡ packed (refused (refusal_number refusal)) }
{
    packed(0, 0, 0, refusal.number(), 0)
}

// A search's answer in one number.
pub fn packed_search(said: Result<Searched, Refusal>) -> usize
    ensures { result ≡ packed (search_says said) }
{
    match said {
        Ok(
            Searched::Found {
                slot,
                value,
                visits,
                places,
            },
        ) => packed(1, places, visits, slot, usize::from(value)),
        Ok(
            Searched::Absent {
                below,
                above,
                visits,
                places,
            },
        ) => packed(2, places, visits, below, above),
        Err(refusal) => packed_refusal(refusal),
    }
}

// An insert's, a delete's or a charge set's answer in one number.
pub fn packed_update(said: Result<Updated, Refusal>) -> usize
    ensures { result ≡ packed (update_says said) }
{
    match said {
        Ok(updated) => packed(3, updated.places, updated.visits, updated.slot, 0),
        Err(refusal) => packed_refusal(refusal),
    }
}

// The answer of layout or of the check in one number.
pub fn packed_done(said: Result<(), Refusal>) -> usize
    ensures { result ≡ packed (done_says said) }
{
    match said {
        Ok(()) => packed(4, 0, 0, 0, 0),
        Err(refusal) => packed_refusal(refusal),
    }
}

// An answer that counts, of this kind, in one number.
fn packed_count(kind: usize, said: Result<usize, Refusal>) -> usize
    ensures { MatchResult said (λ count. result ≡ parts kind 0 0 count 0)
        (λ refusal. result ≡ packed (refused (refusal_number refusal))) }
{
    match said {
        Ok(count) => packed(kind, 0, 0, count, 0),
        Err(refusal) => packed_refusal(refusal),
    }
}

// A listing's answer in one number.
pub fn packed_list(said: Result<usize, Refusal>) -> usize
    ensures { result ≡ packed (list_says said) }
{
    packed_count(5, said)
}

// A save's answer in one number.
pub fn packed_save(said: Result<usize, Refusal>) -> usize
    ensures { result ≡ packed_save (save_says said) }
{
    packed_count(7, said)
}

// A load's answer in one number.
pub fn packed_load(said: Result<usize, Refusal>) -> usize
    ensures { result ≡ packed_load (load_says said) }
{
    packed_count(8, said)
}

// A roster's answer in one number.
pub fn packed_roster(said: Result<usize, RefusedRecord>) -> usize
    ensures { result ≡ packed_roster (roster_says said) }
{
    match said {
        Ok(count) => packed(9, 0, 0, count, 0),
        Err(record) => packed(0, 0, 0, record.refusal.number(), record.number),
    }
}

// The view's part in one number: its start in the store and its length.
pub fn packed_part(start: usize, len: usize) -> usize
    ensures { result ≡ packed_part start len }
{
    packed(6, 0, 0, start, len)
}

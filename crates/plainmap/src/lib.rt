// A plain ordered map from labels to values and charges, to hold the index against: a sorted list, looked through from
// its start. It shares nothing with the index, no tree, no comparison and no layout.
#![tactic(auto)]

ghost use Rattle.std.specs.Prelude.{◌<◌, ◌≤◌, length, IfOk, IfErr};

pub mod files;
pub mod labels;
pub mod loads;

use images::refusals::Refusal;
use samples::shapes::Label;
use std::cmp::Ordering;

// The charge of a label inserted: unknown.
const UNKNOWN: usize = 255;

// A label held, with its slot, its value and its charge.
#[derive(Clone, Copy)]
pub struct Entry {
    pub slot: usize,
    pub label: Label,
    pub value: u16,
    pub charge: usize,
}

impl Default for Entry {
    fn default() -> Entry {
        Entry {
            slot: 0,
            label: Label::EMPTY,
            value: 0,
            charge: 0,
        }
    }
}

// What a search says: a label's slot and value, or the slots of the nearest smaller and the nearest larger label.
#[derive(Clone, Copy, Debug, PartialEq, Eq)]
pub enum Searched {
    Found {
        slot: usize,
        value: u16,
    },
    Absent {
        below: Option<usize>,
        above: Option<usize>,
    },
}

// How many labels it may hold, of how many bytes; those held, in ascending order, and how many; the slots freed and not
// taken since, in the order in which they were freed, and how many; and the highest slot ever taken. Arrays, which copy
// as they are.
#[derive(Clone, Copy)]
pub struct PlainMap {
    slots: usize,
    width: usize,
    entries: [Entry; 512],
    held: usize,
    freed: [usize; 512],
    free: usize,
    high: usize,
}

impl PlainMap {
    // An empty map, for so many labels of at most so many bytes.
    pub fn new(slots: usize, width: usize) -> PlainMap {
        PlainMap {
            slots,
            width,
            entries: [Entry::default(); 512],
            held: 0,
            freed: [0; 512],
            free: 0,
            high: 0,
        }
    }

    pub fn entries(&self) -> &[Entry]
        ensures held { length result.now ≤ self.now.held }
        ensures room { length result.now ≤ 512 }
    {
        self.entries.get(..self.held).unwrap_or(&[])
    }

    pub fn held(&self) -> usize {
        self.held
    }

    pub fn high(&self) -> usize {
        self.high
    }

    // The slot that was freed last and not taken since.
    pub fn last_freed(&self) -> Option<usize> {
        let last = self.free.checked_sub(1)?;
        self.freed.get(last).copied()
    }

    // The most leading bytes that a label shares with any one label held; 0 with none held.
    pub fn most_shared(&self, label: &[u8]) -> usize {
        let mut most = 0;
        for entry in self.entries() {
            most = labels::shared(entry.label.as_slice(), label).max(most);
        }
        most
    }

    pub fn search(&self, label: &[u8]) -> Result<Searched, Refusal> {
        self.admit(label)?;
        let entries = self.entries();
        Ok(match self.rank_of(label) {
            Ok(rank) => Searched::Found {
                slot: self.entries[rank].slot,
                value: self.entries[rank].value,
            },
            Err(rank) => {
                let below = rank.checked_sub(1).and_then(|before| entries.get(before));
                Searched::Absent {
                    below: below.map(|entry| entry.slot),
                    above: entries.get(rank).map(|entry| entry.slot),
                }
            }
        })
    }

    // Inserts a label; gives its slot, that freed last, or else the one above the highest.
    pub fn insert(&mut self, label: &[u8], value: u16) -> Result<usize, Refusal> {
        self.admit(label)?;
        let Err(rank) = self.rank_of(label) else {
            return Err(Refusal::AlreadyHeld);
        };
        if self.held() >= self.slots {
            return Err(Refusal::Full);
        }
        let slot = self.last_freed().unwrap_or(self.high.wrapping_add(1));
        self.put(
            rank,
            Entry {
                slot,
                label: Label::of(label),
                value,
                charge: UNKNOWN,
            },
        );
        match self.free.checked_sub(1) {
            Some(free) => self.free = free,
            None => self.high = slot,
        }
        Ok(slot)
    }

    // Holds a label that is not held yet, in a slot that the caller names, with a charge.
    pub fn hold(&mut self, entry: Entry) {
        if let Err(rank) = self.rank_of(entry.label.as_slice()) {
            self.put(rank, entry);
        }
    }

    // Deletes a label, and gives the slot that it had.
    pub fn delete(&mut self, label: &[u8]) -> Result<usize, Refusal> {
        self.admit(label)?;
        let Ok(rank) = self.rank_of(label) else {
            return Err(Refusal::NotHeld);
        };
        let slot = self.take(rank);
        if let Some(place) = self.freed.get_mut(self.free) {
            *place = slot;
            self.free = self.free.wrapping_add(1);
        }
        Ok(slot)
    }

    // Gives a label a charge: 0 to 100, or that for unknown.
    pub fn set_charge(&mut self, label: &[u8], charge: usize) -> Result<usize, Refusal> {
        self.admit(label)?;
        if charge > 100 && charge != UNKNOWN {
            return Err(Refusal::WrongCharge);
        }
        let Ok(rank) = self.rank_of(label) else {
            return Err(Refusal::NotHeld);
        };
        match self.entries.get_mut(rank) {
            Some(entry) => {
                entry.charge = charge;
                Ok(entry.slot)
            }
            None => Err(Refusal::NotHeld),
        }
    }

    // Refuses a label by its length.
    fn admit(&self, label: &[u8]) -> Result<(), Refusal> {
        match label.len() {
            0 => Err(Refusal::EmptyLabel),
            len if len > self.width => Err(Refusal::LongLabel),
            _ => Ok(()),
        }
    }

    // How many labels are below a label: `Ok` where the next one is it, `Err` where it is not held.
    fn rank_of(&self, label: &[u8]) -> Result<usize, usize>
        ensures held { IfOk result (λ rank. rank < self.now.held × rank < 512) }
        ensures absent { IfErr result (λ rank. rank ≤ self.now.held) }
    {
        for (rank, entry) in self.entries().iter().enumerate() {
            match labels::order(entry.label.as_slice(), label) {
                Ordering::Less => {}
                Ordering::Equal => return Ok(rank),
                Ordering::Greater => return Err(rank),
            }
        }
        Err(self.held)
    }

    // Puts an entry where so many are below it; none where there is no room.
    fn put(&mut self, rank: usize, entry: Entry) -> Option<()>
        requires { rank ≤ self.old.held }
    {
        let above = self.entries.get_mut(rank..=self.held)?;
        above.rotate_right(1);
        above[0] = entry;
        self.held += 1;
        Some(())
    }

    // Takes out the entry that has so many below it, and gives its slot.
    fn take(&mut self, rank: usize) -> usize
        requires { rank < self.old.held × rank < 512 }
    {
        let slot = self.entries[rank].slot;
        if let Some(from) = self.entries.get_mut(rank..self.held) {
            from.rotate_left(1);
            self.held -= 1;
        }
        slot
    }
}

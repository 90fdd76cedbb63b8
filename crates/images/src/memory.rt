// The memory lent to a call.
use crate::sizes::Sizes;

// The sizes of the index that is called; how much of the memory is lent; the words of the table, those of a list, and
// the bytes of the store: one more of each than the hub's, and one more than it has slots. What lies outside reads as 0
// and is never written. Arrays, which copy and compare as they are: a Vec's copy may be refused its memory.
#[derive(Clone, Copy, PartialEq, Eq)]
pub struct Image {
    pub sizes: Sizes,
    pub lent: Lent,
    pub words: [u16; 4101],
    pub list: [u16; 513],
    pub store: [u8; 32769],
}

// How many words of the table, bytes of the store and words of the list are lent.
#[derive(Clone, Copy, Debug, PartialEq, Eq)]
pub struct Lent {
    pub words: usize,
    pub bytes: usize,
    pub room: usize,
}

// The words of the table's head, numbered in their order there, which is the format's.
#[derive(Clone, Copy, Debug, PartialEq, Eq)]
pub enum Head {
    Root,
    Held,
    Free,
    Mark,
}

// The words of a slot, numbered in their order there, which is the format's.
#[derive(Clone, Copy, Debug, PartialEq, Eq)]
pub enum Field {
    Left,
    Right,
    Place,
    Side,
    Balance,
    Length,
    Value,
    Charge,
}

impl Field {
    pub const ALL: [Field; 8] = [
        Field::Left,
        Field::Right,
        Field::Place,
        Field::Side,
        Field::Balance,
        Field::Length,
        Field::Value,
        Field::Charge,
    ];
}

// A word of the table or a byte of the store, by its number.
#[derive(Clone, Copy, Debug, PartialEq, Eq)]
pub enum Entry {
    Word(usize),
    Byte(usize),
}

impl Entry {
    pub fn of_head(word: Head) -> Entry {
        Entry::Word(word as usize)
    }

    // A word of a slot of the hub's; there is none of any other number.
    pub fn of_slot(slot: usize, field: Field) -> Option<Entry> {
        if slot == 0 || slot > 512 {
            return None;
        }
        Some(Entry::Word(8 * slot + field as usize - 4))
    }
}

impl Image {
    // The memory of an index: no word and no byte but 0, the whole of it lent, and a list of one word more than it has
    // slots, none of which is a slot.
    pub fn fresh(sizes: Sizes) -> Image {
        Image {
            sizes,
            lent: Lent {
                words: sizes.words(),
                bytes: sizes.bytes(),
                room: sizes.slots.wrapping_add(1),
            },
            words: [0; 4101],
            list: [65535; 513],
            store: [0; 32769],
        }
    }

    // Whether the index that is called is the pairing page's.
    pub fn is_page(&self) -> bool {
        self.sizes == Sizes::PAGE
    }

    pub fn entry(&self, entry: Entry) -> usize {
        match entry {
            Entry::Word(i) => self.words.get(i).map_or(0, |word| usize::from(*word)),
            Entry::Byte(i) => self.store.get(i).map_or(0, |byte| usize::from(*byte)),
        }
    }

    pub fn put(&mut self, entry: Entry, x: usize) {
        match entry {
            Entry::Word(i) => {
                if let Some(word) = self.words.get_mut(i) {
                    *word = (x % 65536) as u16;
                }
            }
            Entry::Byte(i) => {
                if let Some(byte) = self.store.get_mut(i) {
                    *byte = (x % 256) as u8;
                }
            }
        }
    }

    pub fn head(&self, word: Head) -> usize {
        self.entry(Entry::of_head(word))
    }

    pub fn field(&self, slot: usize, field: Field) -> usize {
        if slot == 0 || slot > 512 {
            return 0;
        }
        usize::from(self.words[8 * slot + field as usize - 4])
    }

    pub fn put_field(&mut self, slot: usize, field: Field, x: usize) {
        if let Some(entry) = Entry::of_slot(slot, field) {
            self.put(entry, x);
        }
    }

    // Word `i` of the list.
    pub fn listed(&self, i: usize) -> usize {
        self.list.get(i).map_or(0, |word| usize::from(*word))
    }

    pub fn put_listed(&mut self, i: usize, x: usize) {
        if let Some(word) = self.list.get_mut(i) {
            *word = (x % 65536) as u16;
        }
    }

    // The bytes of a slot in the store.
    pub fn part(&self, slot: usize) -> &[u8] {
        let start = slot.wrapping_sub(1).wrapping_mul(self.sizes.width);
        let part = self.store.get(start..start.wrapping_add(self.sizes.width));
        part.unwrap_or(&[])
    }

    // The label of a slot, as many of its bytes as its length says.
    pub fn label(&self, slot: usize) -> &[u8] {
        let part = self.part(slot);
        part.get(..self.field(slot, Field::Length)).unwrap_or(part)
    }

    // The number at a place of a slot's label: its byte's, and 0 past its end.
    pub fn number_at(&self, slot: usize, place: usize) -> usize {
        match place.checked_sub(1).and_then(|i| self.label(slot).get(i)) {
            Some(byte) => number_of(*byte),
            None => 0,
        }
    }

    // How many words and bytes of two images differ.
    pub fn unlike(&self, other: &Image) -> usize {
        let words = self.words.iter().zip(other.words.iter());
        let bytes = self.store.iter().zip(other.store.iter());
        words
            .filter(|(one, other)| one != other)
            .count()
            .wrapping_add(bytes.filter(|(one, other)| one != other).count())
    }

    // Fills the words of the table and the bytes of the store with what no index left there, another for each number.
    pub fn spoil(&mut self, number: usize) {
        for (i, word) in self.words.iter_mut().enumerate() {
            *word = (number.wrapping_add(i.wrapping_mul(40503)) % 65536) as u16;
        }
        for (i, byte) in self.store.iter_mut().enumerate() {
            *byte = (number.wrapping_add(i.wrapping_mul(167)) % 256) as u8;
        }
    }

    // The words and bytes lent, to be read; none where there are not so many.
    pub fn table_and_store(&self) -> Option<(&[u16], &[u8])> {
        let table = self.words.get(..self.lent.words)?;
        let store = self.store.get(..self.lent.bytes)?;
        Some((table, store))
    }

    // The same, to be written.
    pub fn table_and_store_mut(&mut self) -> Option<(&mut [u16], &mut [u8])> {
        let lent = self.lent;
        first_of_both(&mut self.words, &mut self.store, lent)
    }
}

// The number of a byte: the byte plus 33 for A to Z, and plus 1 for any other.
pub fn number_of(byte: u8) -> usize {
    match byte {
        b'A'..=b'Z' => usize::from(byte) + 33,
        _ => usize::from(byte) + 1,
    }
}

fn first_of_both<'a>(
    words: &'a mut [u16; 4101],
    store: &'a mut [u8; 32769],
    lent: Lent,
) -> Option<(&'a mut [u16], &'a mut [u8])> {
    Some((words.get_mut(..lent.words)?, store.get_mut(..lent.bytes)?))
}

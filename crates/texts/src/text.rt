// A text of at most N bytes, in fixed memory, and what is put behind it.
use arrayvec::ArrayVec;
use itoa::Buffer;
use std::marker::Model;

// The bytes that are put so far.
#[derive(Drop)]
pub struct Text<const N: usize> {
    bytes: ArrayVec<u8, N>,
}

impl<const N: usize> Model for Text<N> {
    ghost use Rattle.std.specs.Prelude.{List, ℕ};

    ghost Value = { List ℕ };

    ghost view = { λ text. text.bytes.items };
}

impl<const N: usize> Text<N> {
    ghost use Rattle.std.specs.Prelude.{◌≡◌, ◌≤◌, ◌+◌, [], length};
    ghost use Rattle.texts.specs.Texts.{decimal_with, then_number};
    ghost use Rattle.texts.specs.Puts.{Puts};

    // No byte is put.
    pub fn new() -> Self
        ensures { result ≡ [] }
    {
        Text {
            bytes: ArrayVec::new(),
        }
    }

    // Takes all bytes away.
    pub fn clear(&mut self)
        ensures { self.new ≡ [] }
    {
        self.bytes.clear();
    }

    // The bytes that are put.
    pub fn bytes(&self) -> &[u8]
        ensures value { result.now ≡ self.now }
        ensures fits { length result.now ≤ N }
    {
        self.bytes.as_slice()
    }

    // Puts bytes, for which there is room.
    pub fn put(&mut self, bytes: &[u8])
        requires { length self.old + length bytes.now ≤ N }
        ensures { Puts self.old bytes.now (length bytes.now) self.new }
    {
        let _ = self.bytes.try_extend_from_slice(bytes);
    }

    // Puts the digits of a number, at most so many: the last ones.
    pub fn put_digits(&mut self, digits: usize, number: usize)
        requires { length self.old + digits ≤ N }
        ensures { Puts self.old (decimal_with digits number) digits self.new }
    {
        let mut buffer = Buffer::new();
        let text = buffer.format(number).as_bytes();
        self.put(&text[text.len().saturating_sub(digits)..]);
    }

    // Puts a space and a number.
    #[tactic(auto, unfolding(crate::specs::Texts::decimal))]
    pub fn put_number(&mut self, number: usize)
        requires { length self.old + 21 ≤ N }
        ensures { Puts self.old (then_number number) 21 self.new }
    {
        self.put(b" ");
        self.put_digits(20, number);
    }
}

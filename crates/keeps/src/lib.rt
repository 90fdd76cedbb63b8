// The line of an input that has begun, kept while its bytes come.
#![tactic(auto)]

use std::marker::Model;

// The bytes that are kept of a line: one above 80 bytes asks nothing.
pub const ROOM: usize = 81;

// What is kept of the line: its first bytes. The bytes behind them are 0.
#[derive(Clone, Copy)]
pub struct Line {
    bytes: [u8; ROOM],
    len: usize,
}

impl Model for Line {
    ghost use Rattle.std.specs.Prelude.{List, ℕ, length, take};
    ghost use Rattle.keeps.specs.Padded.{padded, Padded, padded_again, length_again};

    ghost Value = { List ℕ };

    ghost view = { λ line. take line.len line.bytes };

    ghost invariant = { λ line. Padded line.bytes line.len };

    ghost inverse = { λ line. record { bytes = padded line; len = length line } };

    ghost inverse_ok = { λ line holds i. record {
      bytes = padded_again line.bytes line.len holds i;
      len = length_again line.bytes line.len holds i;
    } };
}

impl Line {
    ghost use Rattle.std.specs.Prelude.{◌≡◌, ◌≤◌, [], length};
    ghost use Rattle.inputs.specs.Reads.{room, kept};

    // No line has begun.
    pub fn new() -> Self
        ensures { result ≡ [] }
    {
        Line {
            bytes: [0; ROOM],
            len: 0,
        }
    }

    // One more byte of the line: it is kept where there is room.
    pub fn push(&mut self, byte: u8)
        ensures { self.new ≡ kept self.old byte }
    {
        if self.len < ROOM {
            self.bytes[self.len] = byte;
            self.len += 1;
        }
    }

    // The bytes that are kept: at most as many as there is room for.
    pub fn bytes(&self) -> &[u8]
        ensures value { result.now ≡ self.now }
        ensures within { length result.now ≤ room }
    {
        &self.bytes[..self.len]
    }
}

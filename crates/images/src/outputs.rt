// The output lent to a save, or the file lent to a load: bytes of one array, from its front on, as many as a test
// says.

// The bytes of the array: 32 more than the longest file.
pub const ALL: usize = 34850;

// An array, which copies and compares as it is: a Vec's copy may be refused its memory.
pub type Output = [u8; ALL];

// An output before a call: no byte is 0, and none is that of its neighbours.
pub fn fresh() -> Output {
    let mut output = [0; ALL];
    for (i, byte) in output.iter_mut().enumerate() {
        *byte = (i % 251 + 1) as u8;
    }
    output
}

// What is written into the front of an output: of bytes past its end it keeps the count alone.
#[derive(Drop)]
pub struct Front<'a> {
    output: &'a mut Output,
    len: usize,
}

impl Front<'_> {
    pub fn new(output: &mut Output) -> Front<'_> {
        Front { output, len: 0 }
    }

    pub fn len(&self) -> usize {
        self.len
    }

    pub fn push(&mut self, byte: u8) {
        let at = self.len;
        if let Some(place) = self.output.get_mut(at) {
            *place = byte;
        }
        self.len = at.wrapping_add(1);
    }

    pub fn last(&self) -> Option<u8> {
        self.output.get(self.len.wrapping_sub(1)).copied()
    }

    // So many of the last bytes are no part of it.
    pub fn cut(&mut self, bytes: usize) {
        self.len = self.len.wrapping_sub(bytes);
    }
}

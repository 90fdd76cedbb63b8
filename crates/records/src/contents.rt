// What a field holds.
ghost use Rattle.std.specs.Prelude.{◌≡◌, length};
ghost use Rattle.records.specs.Undoubled.{content_in};

// The part of a text that a field's content stands in, and how many bytes the content has: fewer than the part where
// quotes stand doubled there.
#[derive(Clone, Copy)]
pub struct Content<'a> {
    pub part: &'a [u8],
    pub len: usize,
    pub ghost counted: { length (content_in part.now len) ≡ len },
}

// A content in which quotes stand doubled, gathered in a lent buffer.
ghost use Rattle.std.specs.Prelude.{◌≡◌, ◌≤◌, length, take};
ghost use Rattle.records.specs.Undoubled.{undoubled, after_first};

// Writes the content of a part into the front of a buffer that has room for it: of two quotes the first.
#[tactic(auto, using(crate::proofs::GatherLaws::gather_laws))]
pub fn gather(part: &[u8], buffer: &mut [u8])
    requires { length (undoubled part.now) ≤ length buffer.old }
    ensures { take (length (undoubled part.now)) buffer.new ≡ undoubled part.now }
{
    let mut rest = part;
    for slot in buffer.iter_mut() {
        let [byte, ..] = rest else {
            return;
        };
        *slot = *byte;
        rest = after_first(rest);
    }
}

// What comes after the first byte of a content: a quote stands before another.
fn after_first(text: &[u8]) -> &[u8]
    ensures { result.now ≡ after_first text.now }
{
    match text {
        [b'"', _, rest @ ..] => rest,
        [_, rest @ ..] => rest,
        [] => text,
    }
}

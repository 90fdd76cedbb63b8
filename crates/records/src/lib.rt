// The record at the front of a roster's text: two fields, of which the second is a value. Nothing is copied but the
// label in which quotes stand doubled, by a call of its own.
#![tactic(auto)]

mod contents;
pub mod fields;
pub mod quotes;

ghost use Rattle.std.specs.Prelude.{◌≡◌};
ghost use Rattle.std.specs.Option.{option_copied};
ghost use Rattle.decimals.specs.Values.{value_of};
ghost use Rattle.rfc4180.specs.Records.{take_field, take_record};
ghost use Rattle.records.specs.Contents.{content_of, line_end, value_then, record_says};

pub use contents::Content;

// A field that is read, and the text after it.
#[derive(Clone, Copy)]
pub struct Field<'a> {
    pub content: Content<'a>,
    pub rest: &'a [u8],
}

// A record that is read, and the text after it.
#[derive(Clone, Copy)]
pub struct Record<'a> {
    pub label: Content<'a>,
    pub value: u16,
    pub rest: &'a [u8],
}

// The record at the front of a text, if it is whole.
#[tactic(auto, using(crate::proofs::RecordLaws::record_laws))]
pub fn take(text: &[u8]) -> Option<Record<'_>>
    ensures { record_says result ≡ take_record text.now }
{
    let label = fields::take(text)?;
    let [b',', rest @ ..] = label.rest else {
        return None;
    };
    with_label(label.content, rest)
}

// The record whose label is read, by the text after the comma.
fn with_label<'a>(label: Content<'a>, text: &'a [u8]) -> Option<Record<'a>>
    ensures { record_says result ≡ value_then (content_of label.entry) (take_field text.now) }
{
    let field = fields::take(text)?;
    let value = value_of(field.content)?;
    let rest = after_line(field.rest)?;
    Some(Record { label, value, rest })
}

// The value that a content writes. One in which quotes stand doubled writes none: a quote is no digit.
#[tactic(auto, using(crate::proofs::ValueLaws::no_value_doubled))]
fn value_of(content: Content<'_>) -> Option<u16>
    ensures { result ≡ value_of (content_of content.entry) }
{
    if content.len != content.part.len() {
        return None;
    }
    decimals::value_of(content.part)
}

// What comes after the last field of a record: nothing, or CRLF and the rest.
fn after_line(text: &[u8]) -> Option<&[u8]>
    ensures { option_copied result ≡ line_end text.now }
{
    match text {
        [] => Some(text),
        [b'\r', b'\n', rest @ ..] => Some(rest),
        _ => None,
    }
}

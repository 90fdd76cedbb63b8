// The field at the front of a text: escaped between quotes, or not. Its content is a part of the text.
ghost use Rattle.std.specs.Prelude.{◌≡◌, Some};
ghost use Rattle.std.specs.List.{prefix_len};
ghost use Rattle.std.specs.Option.{option_copied};
ghost use Rattle.rfc4180.specs.Grammar.{is_textdata, is_inner};
ghost use Rattle.rfc4180.specs.Records.{bare_field, quoted_field, take_field};
ghost use Rattle.records.specs.Contents.{after_inner, field_says};

use crate::{Content, Field};

// The field at the front of a text, if it keeps to the grammar.
#[tactic(auto, using(crate::proofs::FieldLaws::field_laws))]
pub fn take(text: &[u8]) -> Option<Field<'_>>
    ensures { field_says result ≡ take_field text.now }
{
    match text {
        [b'"', inner @ ..] => quoted(inner),
        _ => Some(bare(text)),
    }
}

// A field that is not escaped.
#[tactic(auto, using(crate::proofs::BareLaws::bare_laws))]
fn bare(text: &[u8]) -> Field<'_>
    ensures { field_says (Some result) ≡ bare_field text.now }
{
    let len = textdata_len(text);
    let (part, rest) = text.split_at(len);
    let content = Content { part, len };
    Field { content, rest }
}

// How many bytes at the front of a text are TEXTDATA.
fn textdata_len(text: &[u8]) -> usize
    ensures { result ≡ prefix_len is_textdata text.now }
{
    text.iter().take_while(|byte| is_textdata(**byte)).count()
}

// An escaped field, from the byte after its first quote on.
#[tactic(auto, using(crate::proofs::QuotedLaws::quoted_laws))]
fn quoted(text: &[u8]) -> Option<Field<'_>>
    ensures { field_says result ≡ quoted_field text.now }
{
    // No iterator: an item has one byte or two, and what is left after the last one is read on.
    let mut rest = text;
    let mut len = 0;
    while let Some(more) = after_inner(rest) {
        rest = more;
        len += 1;
    }
    let [b'"', after @ ..] = rest else {
        return None;
    };
    let part = &text[..text.len() - rest.len()];
    let content = Content { part, len };
    Some(Field {
        content,
        rest: after,
    })
}

// What comes after one byte of an escaped field's content, if one stands at the front: two quotes are one.
fn after_inner(text: &[u8]) -> Option<&[u8]>
    ensures { option_copied result ≡ after_inner text.now }
{
    match text {
        [b'"', b'"', rest @ ..] => Some(rest),
        [byte, rest @ ..] if is_inner(*byte) => Some(rest),
        _ => None,
    }
}

// Whether a byte may stand in an escaped field, besides two quotes.
fn is_inner(byte: u8) -> bool
    ensures { result ≡ is_inner byte }
{
    is_textdata(byte) || matches!(byte, b',' | b'\r' | b'\n')
}

// Whether a byte is TEXTDATA: 32 to 126, but no quote and no comma.
fn is_textdata(byte: u8) -> bool
    ensures { result ≡ is_textdata byte }
{
    (32..=126).contains(&byte) && byte != b'"' && byte != b','
}

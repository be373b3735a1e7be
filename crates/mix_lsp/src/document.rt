//! The texts that a client has open.

ghost use Rattle.std.specs.Prelude.{◌≡◌, ◌≤◌, ◌++◌, IfOk, length, take, drop};
ghost use Rattle.mix_lsp.specs.Edit.{IsBoundary};

use crate::params::{range_in, text_member};
use crate::place::{Encoding, Place, byte_at};
use mix_refused::Memory;
use mixal_text::Span;
use rpc_message::member_of;
use serde_json::Value;
use std::alloc::Global;

/// A text by its name.
#[derive(Drop)]
pub(crate) struct Document {
    pub uri: String,
    pub text: Vec<u8>,
}

/// The text of a name.
pub(crate) fn text_among<'d>(documents: &'d [Document], uri: &str) -> Option<&'d [u8]> {
    for document in documents {
        if document.uri.as_str() == uri {
            return Some(document.text.as_slice());
        }
    }
    None
}

/// A text after changes, each of the text after the one before. One that says no text, or a range
/// that is none, changes nothing.
pub(crate) fn changed(
    alloc: Global,
    encoding: Encoding,
    text: &[u8],
    changes: &[Value],
) -> Result<Vec<u8>, Memory> {
    let mut after = Vec::from_slice(alloc, text)?;
    for change in changes {
        let Some(new) = text_member(change, "text") else {
            continue;
        };
        after = match member_of(change, "range") {
            None => Vec::from_slice(alloc, new.as_bytes())?,
            Some(range) => match range_in(range) {
                None => continue,
                Some((from, to)) => {
                    let at = bytes_between(encoding, after.as_slice(), from, to);
                    replaced(alloc, after.as_slice(), at, new)?
                }
            },
        };
    }
    Ok(after)
}

// The bytes between two places; none where the range ends before it begins. No character is cut.
fn bytes_between(encoding: Encoding, text: &[u8], from: Place, to: Place) -> Span
    ensures order { result.from ≤ result.to }
    ensures within { result.to ≤ length text.now }
    ensures begins { IsBoundary text.now result.from }
    ensures ends { IsBoundary text.now result.to }
{
    let from = byte_at(encoding, text, from);
    let to = byte_at(encoding, text, to);
    if to < from {
        Span { from, to: from }
    } else {
        Span { from, to }
    }
}

// A text with another one in the place of some of its bytes; the others stay.
fn replaced(alloc: Global, text: &[u8], at: Span, new: &str) -> Result<Vec<u8>, Memory>
    requires order { at.from ≤ at.to }
    requires within { at.to ≤ length text.now }
    ensures { IfOk result (λ after. after.items ≡ (take at.from text.now ++ new.now) ++ drop at.to text.now) }
{
    let mut after = Vec::from_slice(alloc, &text[..at.from])?;
    after.extend_from_slice(new.as_bytes())?;
    after.extend_from_slice(&text[at.to..])?;
    Ok(after)
}

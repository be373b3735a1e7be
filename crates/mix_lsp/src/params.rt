//! A message, and what its parameters say.

ghost use Rattle.std.specs.Prelude.{◌≡◌, IfOk, option_map};
ghost use Rattle.serde_json.specs.View.{view};
ghost use Rattle.mix_lsp.specs.Protocol.{message_of};

use crate::place::Place;
use mix_refused::Memory;
use rpc_message::{integer, member_of, natural};
use serde_json::Value;
use std::alloc::Global;

/// A parameter, if it is there and not null.
pub(crate) fn param<'m>(message: &'m Value, name: &str) -> Option<&'m Value> {
    member_of(message.get("params")?, name)
}

/// A member of an object that is a text.
pub(crate) fn text_member<'v>(object: &'v Value, name: &str) -> Option<&'v str> {
    member_of(object, name)?.as_str()
}

/// The name of the text that a message is about.
pub(crate) fn uri_of(message: &Value) -> Option<&str> {
    text_member(param(message, "textDocument")?, "uri")
}

/// A place that is an object.
pub(crate) fn place_in(value: &Value) -> Option<Place> {
    let line = natural(member_of(value, "line")?)?;
    let character = natural(member_of(value, "character")?)?;
    Some(Place { line, character })
}

/// A range, by its two places.
pub(crate) fn range_in(value: &Value) -> Option<(Place, Place)> {
    let from = place_in(member_of(value, "start")?)?;
    let to = place_in(member_of(value, "end")?)?;
    Some((from, to))
}

/// The message that the body of a frame is, if it is one.
#[tactic(auto, using(crate::proofs::MessageLemmas::bodies))]
pub(crate) fn message_in(alloc: Global, body: Option<&[u8]>) -> Result<Option<Value>, Memory>
    ensures { IfOk result (λ m. option_map view m ≡ message_of (option_map (λ b. b.now) body.entry)) }
{
    let Some(body) = body else {
        return Ok(None);
    };
    match Value::from_slice(alloc, body) {
        Ok(message) => Ok(Some(message)),
        Err(error) if error.is_memory() => Err(Memory),
        Err(_) => Ok(None),
    }
}

/// The number that the client gives a text.
pub(crate) fn version_of(message: &Value) -> Option<i64> {
    integer(member_of(param(message, "textDocument")?, "version")?)
}

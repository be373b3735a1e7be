//! The words by which a line of the console may go on.

ghost use Rattle.std.specs.Prelude.{◌+◌, ◌^◌, ◌<◌, ◌≤◌, length};

use dap_asked::Fault;
use mix_refused::{Memory, Refused};
use mix_session::Session;
use rpc_message::Request;
use serde_json::{Value, json};
use std::alloc::Global;

/// The words by which the line may go on that a text has up to a column, which is counted from `first` on.
pub fn completions_view(
    alloc: Global,
    session: &Session,
    first: u64,
    request: &Request,
) -> Result<Value, Refused<Fault>> {
    let Some(text) = request.text("text") else {
        return Err(Refused::Fault(Fault::BadArgument));
    };
    let Some(column) = request.number("column") else {
        return Err(Refused::Fault(Fault::BadArgument));
    };
    let line = front_of(text.as_bytes(), column.saturating_sub(first));
    let list = targets_of(alloc, session, first, line)?;
    Ok(json!(in alloc; {"targets": list})?)
}

// So many bytes of a text, or all that it has.
fn front_of(text: &[u8], count: u64) -> &[u8]
    ensures within { length result.now ≤ count }
{
    if count < text.len() as u64 {
        &text[..count as usize]
    } else {
        text
    }
}

// The words that the last one of a line may become, each in place of it. The line is one of ASCII, whose columns are its bytes.
fn targets_of(
    alloc: Global,
    session: &Session,
    first: u64,
    line: &[u8],
) -> Result<Vec<Value>, Memory>
    requires { first + length line.now < 2 ^ 64 }
{
    let mut list = Vec::new(alloc);
    if !line.iter().all(|byte| byte.is_ascii()) {
        return Ok(list);
    }
    let completion = session.completion(alloc, line)?;
    let typed = completion.typed as u64;
    let start = first + (line.len() - completion.typed) as u64;
    for word in completion.words.iter() {
        list.push(json!(in alloc; {"label": *word, "start": start, "length": typed})?)?;
    }
    Ok(list)
}

//! `mix/bundle`: the lines of the parts of a text.

use dap_asked::Fault;
use mix_files::{before_script, count_lines, cut};
use mix_refused::{Memory, Refused};
use rpc_message::Request;
use serde_json::{Value, json};
use std::alloc::Global;

/// The lines of the parts of the text of a request.
pub(crate) fn bundle_view(alloc: Global, request: &Request) -> Result<Value, Refused<Fault>> {
    let Some(text) = request.text("text") else {
        return Err(Refused::Fault(Fault::BadArgument));
    };
    let text = text.as_bytes();
    let parts = cut(text);
    let mut list = Vec::new(alloc);
    add_part(alloc, &mut list, "source", parts.source, parts.source)?;
    add_part(alloc, &mut list, "deck", parts.deck, before_script(text))?;
    add_part(alloc, &mut list, "script", parts.script, text)?;
    Ok(json!(in alloc; {"parts": list})?)
}

// A part that is the last of some lines, if it has a line.
fn add_part(
    alloc: Global,
    list: &mut Vec<Value>,
    name: &str,
    text: &[u8],
    lines: &[u8],
) -> Result<(), Memory> {
    let until = count_lines(lines);
    let before = until.saturating_sub(count_lines(text));
    if before < until {
        let from = before as u64 + 1;
        list.push(json!(in alloc; {"part": name, "from": from, "until": until as u64})?)?;
    }
    Ok(())
}

//! What an evaluation is answered with.

use dap_asked::{evaluated, number_asked, put_fault};
use mix_machine::MixFault;
use mix_refused::Memory;
use mix_session::Session;
use rpc_message::{Fields, Request};
use serde_json::Value;
use std::alloc::Global;

// A text, which has no variables.
fn put_result(body: &mut Fields, text: &str) -> Result<(), Memory> {
    body.text("result", text)?;
    body.number("variablesReference", 0)
}

/// What is only said of a line of the console.
pub(crate) fn said_body(alloc: Global, text: &[u8]) -> Result<Value, Memory> {
    let text = String::from_utf8_lossy(alloc, text)?;
    let mut body = Fields::new(alloc);
    put_result(&mut body, text.as_str())?;
    Ok(body.done())
}

/// A line of the script, its reply, and the fault that has ended its steps.
pub(crate) fn line_body(
    alloc: Global,
    line: &[u8],
    text: &[u8],
    fault: Option<MixFault>,
) -> Result<Value, Memory> {
    let line = String::from_utf8_lossy(alloc, line)?;
    let text = String::from_utf8_lossy(alloc, text)?;
    let mut body = Fields::new(alloc);
    body.text("line", line.as_str())?;
    put_result(&mut body, text.as_str())?;
    put_fault(alloc, &mut body, fault)?;
    Ok(body.done())
}

/// What an expression is worth, and the number of it, if it is worth one.
pub(crate) fn worth_body(
    alloc: Global,
    session: &Session,
    request: &Request,
) -> Result<Value, Memory> {
    let text = evaluated(alloc, session, request)?;
    let mut body = Fields::new(alloc);
    put_result(&mut body, text.as_str())?;
    if let Some(number) = number_asked(alloc, session, request)? {
        body.text("number", number.as_str())?;
    }
    Ok(body.done())
}

//! The messages that are sent.

ghost use Rattle.std.specs.Prelude.{◌≡◌, None, Some, IfOk, codes};
ghost use Rattle.serde_json.specs.Find.{get};
ghost use Rattle.serde_json.specs.View.{view};

use mix_refused::Memory;
use serde_json::{Value, json};
use std::alloc::Global;

/// Why a message is refused, by the numbers of the protocol.
#[derive(Clone, Copy)]
pub(crate) enum Fault {
    /// No JSON, no UTF-8, nested too deep, or no body.
    NotJson,
    /// No request, or one that comes too early or too late.
    NotRequest,
    NoSuchMethod,
    BadParams,
    /// A request before `initialize`.
    NotReady,
}

/// The answer to a request.
pub(crate) fn reply(alloc: Global, id: &Value, body: Value) -> Result<Value, Memory>
    ensures { IfOk result (λ m. get (codes "id") (view m) ≡ Some (view id.now)) }
{
    let message = json!(in alloc; {"jsonrpc": "2.0", "id": id, "result": body})?;
    Ok(message)
}

/// The answer to a request that is refused.
pub(crate) fn refusal(alloc: Global, id: &Value, why: Fault) -> Result<Value, Memory>
    ensures { IfOk result (λ m. get (codes "id") (view m) ≡ Some (view id.now)) }
{
    let error = error(alloc, why)?;
    let message = json!(in alloc; {"jsonrpc": "2.0", "id": id, "error": error})?;
    Ok(message)
}

fn error(alloc: Global, why: Fault) -> Result<Value, Memory> {
    let (code, text): (i64, &str) = match why {
        Fault::NotJson => (-32700, "not JSON"),
        Fault::NotRequest => (-32600, "not a request that can be answered now"),
        Fault::NoSuchMethod => (-32601, "no such method"),
        Fault::BadParams => (-32602, "parameters that are not what they have to be"),
        Fault::NotReady => (-32002, "not initialized"),
    };
    let error = json!(in alloc; {"code": code, "message": text})?;
    Ok(error)
}

/// What is sent unasked: the diagnostics of a text.
pub(crate) fn diagnostics(alloc: Global, params: Value) -> Result<Value, Memory>
    ensures { IfOk result (λ m. get (codes "id") (view m) ≡ None) }
{
    let method = "textDocument/publishDiagnostics";
    let message = json!(in alloc; {"jsonrpc": "2.0", "method": method, "params": params})?;
    Ok(message)
}

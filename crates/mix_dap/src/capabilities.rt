//! What the adapter can do, and what the client is like.

ghost use Rattle.std.specs.Prelude.{◌≡◌};
ghost use Rattle.mix_dap.specs.Capabilities.{asked_flag, first_by, client_of, unknown_client};

use mix_refused::Memory;
use rpc_message::{Fields, Request};
use serde_json::{Value, json};
use std::alloc::Global;

const ABLE: [&str; 19] = [
    "supportsConfigurationDoneRequest",
    "supportsConditionalBreakpoints",
    "supportsHitConditionalBreakpoints",
    "supportsStepBack",
    "supportsSetVariable",
    "supportsSetExpression",
    "supportsGotoTargetsRequest",
    "supportsEvaluateForHovers",
    "supportsCompletionsRequest",
    "supportsRestartRequest",
    "supportsExceptionInfoRequest",
    "supportsTerminateRequest",
    "supportsDataBreakpoints",
    "supportsReadMemoryRequest",
    "supportsWriteMemoryRequest",
    "supportsDisassembleRequest",
    "supportsInstructionBreakpoints",
    "supportsBreakpointLocationsRequest",
    "supportsSteppingGranularity",
];

/// What `initialize` is answered. The filter is that of steps that conflict with a transfer under way, which is off at first.
pub(crate) fn capabilities(alloc: Global) -> Result<Value, Memory> {
    let mut body = Fields::new(alloc);
    for name in ABLE.iter() {
        body.flag(name, true)?;
    }
    let filters = json!(in alloc; [{
        "filter": "conflict",
        "label": "Conflicts with a transfer under way",
        "description": "A run stops at a step that uses a cell which a transfer under way forbids.",
        "default": false
    }])?;
    body.put("exceptionBreakpointFilters", filters)?;
    Ok(body.done())
}

/// What the client says of itself: the number of its first line and that of its first column, each 0 or 1, and whether it hears that what it shows
/// is out of date.
#[derive(Clone, Copy)]
pub(crate) struct Client {
    pub first: u64,
    pub first_column: u64,
    pub hears_invalidated: bool,
}

impl Client {
    /// A client that has said nothing.
    pub(crate) fn unknown() -> Client
        ensures { result ≡ unknown_client }
    {
        Client {
            first: 1,
            first_column: 1,
            hears_invalidated: false,
        }
    }

    /// What `initialize` says of the client.
    pub(crate) fn of(request: &Request) -> Client
        ensures { result ≡ client_of request.now }
    {
        Client {
            first: first_by(asked_flag(request, "linesStartAt1")),
            first_column: first_by(asked_flag(request, "columnsStartAt1")),
            hears_invalidated: request.flag("supportsInvalidatedEvent"),
        }
    }
}

// What an argument says, where it is `true` or `false`.
fn asked_flag(request: &Request, name: &str) -> Option<bool>
    ensures { result ≡ asked_flag request.now name.now }
{
    request.argument(name).and_then(Value::as_bool)
}

// The number of the first line, or of the first column.
fn first_by(starts_at_one: Option<bool>) -> u64
    ensures { result ≡ first_by starts_at_one }
{
    match starts_at_one {
        Some(false) => 0,
        Some(true) | None => 1,
    }
}

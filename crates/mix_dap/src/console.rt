//! What a line of the console says: a line of a script, or the words that a person types at a prompt.

ghost use Rattle.std.specs.Prelude.{◌≡◌, IfOk, is_some};
ghost use Rattle.mix_dap.specs.Console.{is_command, is_said, is_script, line_meant};
ghost use Rattle.dap_asked.specs.Deed.{is_console_of, is_line};

use dap_asked::Act;
use mix_person::{Line, kind_of, only_said, person_line};
use mix_refused::Memory;
use mix_session::Session;
use rpc_message::Request;
use std::alloc::Global;

// Whether a person's line stands for a command.
fn is_command(line: Line) -> bool
    ensures { result ≡ is_command line }
{
    match line {
        Line::Command => true,
        _ => false,
    }
}

// Whether it is a line of a script as it is.
fn is_script(session: &Session, typed: &[u8]) -> bool
    ensures { result ≡ is_script session.now typed.now }
{
    session.read(typed).is_ok() || !is_command(kind_of(typed))
}

/// The line of a script that it stands for.
pub(crate) fn line_meant(alloc: Global, session: &Session, typed: &[u8]) -> Result<Vec<u8>, Memory>
    ensures { IfOk result (λ line. line.items ≡ line_meant session.now typed.now) }
{
    if is_script(session, typed) {
        return Ok(Vec::from_slice(alloc, typed)?);
    }
    person_line(alloc, session.program(), b"", b"", typed)
}

/// What is only said of it, if that is all.
pub(crate) fn said_of(
    alloc: Global,
    session: &Session,
    typed: &[u8],
) -> Result<Option<Vec<u8>>, Memory>
    ensures { IfOk result (λ said. is_some said ≡ is_said session.now typed.now) }
{
    if is_script(session, typed) {
        return Ok(None);
    }
    let line = line_meant(alloc, session, typed)?;
    only_said(alloc, session, &line)
}

/// Whether an act is a line of the console.
pub(crate) fn is_line(act: Act, request: &Request) -> bool
    ensures { result ≡ is_line act request.now }
{
    match act {
        Act::Evaluate => is_console(request),
        Act::Step
        | Act::StepBack
        | Act::Continue
        | Act::StepOut
        | Act::ReverseContinue
        | Act::Begin
        | Act::Goto
        | Act::SetVariable
        | Act::SetExpression => false,
    }
}

// Whether an expression is from the console.
fn is_console(request: &Request) -> bool
    ensures { result ≡ is_console_of request.now }
{
    match request.text("context") {
        Some(context) => context == "repl",
        None => false,
    }
}

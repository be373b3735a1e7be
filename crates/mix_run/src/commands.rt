//! The lines of a script: each is executed, and its reply is written.

ghost use Rattle.std.specs.Prelude.{◌≡◌, ◌<◌, ◌-◌, ◌^◌, Err, IfErr, IfOk};
ghost use Rattle.std.specs.Io.KnownBytes.{Appends};
ghost use Rattle.mix_lines.specs.Lines.{lines};
ghost use Rattle.mix_session.specs.Prelude.{told_of, after, effect_in, reply_of};
ghost use Rattle.mix_run.specs.Fault.{IsMemoryOrWrite};
ghost use Rattle.mix_run.specs.Output.{replies_of, said_of};
ghost use Rattle.mix_stream.specs.Stream.{AppendsFront, CountsFailure};

use crate::bundle::copy_of;
use crate::fault::ToolFault;
use mix_lines::split_line;
use mix_refused::Memory;
use mix_session::{Answer, Session, Told};
use mix_stream::{Out, write_all};
use std::alloc::Global;

/// The answer to a line, which is done.
pub(crate) fn answer_to(session: &mut Session, line: &[u8]) -> Result<Answer, Memory>
    ensures { let effect = effect_in session.old line.now in
        IfOk result (λ answer. (session.new ≡ record session.old { timeline = after effect }) × (answer ≡ effect.answer)) }
{
    match session.read(line) {
        Ok(request) => session.execute(request),
        Err(refusal) => Ok(Answer::Refused(refusal)),
    }
}

/// A line is done: its answer, and the reply.
pub(crate) fn answered(session: &mut Session, line: &[u8]) -> Result<(Answer, Vec<u8>), Memory>
    ensures { let effect = effect_in session.old line.now in
        IfOk result (λ r. (session.new ≡ record session.old { timeline = after effect }) × (r.0 ≡ effect.answer)
        × (r.1.items ≡ reply_of session.old.program effect)) }
{
    let answer = answer_to(session, line)?;
    let text = session.text(&answer)?;
    Ok((answer, text))
}

/// What is written of a line, which is done, and whether it is accepted: the reply, after the line itself where it is echoed.
pub(crate) fn said(
    alloc: Global,
    session: &mut Session,
    line: &[u8],
    echo: bool,
) -> Result<(Vec<u8>, Told), Memory>
    ensures { let effect = effect_in session.old line.now in
        IfOk result (λ said. (session.new ≡ record session.old { timeline = after effect }) × (said.0.items ≡ said_of echo session.old line.now)
        × (said.1 ≡ told_of effect.answer)) }
{
    let (answer, reply) = answered(session, line)?;
    let told = answer.told();
    if !echo {
        return Ok((reply, told));
    }
    let mut text = copy_of(alloc, line)?;
    text.extend_from_slice(b"\n")?;
    text.extend_from_slice(&reply)?;
    Ok((text, told))
}

/// The lines of a script, one after the other; accepted where each is.
pub(crate) fn execute_lines<W: Out>(
    alloc: Global,
    session: &mut Session,
    script: &[u8],
    echo: bool,
    out: &mut W,
) -> Result<Told, ToolFault>
    requires { W.failed out.old < 2 ^ 64 - 1 }
    ensures replies { let all = replies_of echo session.old (lines script.now) in
        IfOk result (λ told. (told ≡ all.told) × Appends (W.told out.old) (W.told out.new) all.bytes) }
    ensures begun { AppendsFront (W.told out.old) (W.told out.new) (replies_of echo session.old (lines script.now)).bytes }
    ensures write { CountsFailure (result ≡ Err ToolFault.Write) (W.failed out.old) (W.failed out.new) }
    ensures only { IfErr result IsMemoryOrWrite }
{
    let mut told = Told::Accepted;
    let mut rest = script;
    while !rest.is_empty() {
        let (line, after) = split_line(rest);
        let now = said(alloc, session, line, echo)?;
        write_all(out, &now.0)?;
        told = told.and(now.1);
        rest = after;
    }
    Ok(told)
}

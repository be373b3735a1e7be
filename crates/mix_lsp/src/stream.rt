//! The server over a stream: frames are heard and answered until the client is done.

ghost use Rattle.std.specs.Prelude.{◌≡◌, ◌≢◌, ◌≤◌, ◌<◌, ◌-◌, ◌^◌, Ok, Err, IfErr, IfOk, IfSome, OnErr, OnOk, option_map, option_to_list};
ghost use Rattle.serde_json.specs.View.{view};
ghost use Rattle.rpc_stream.specs.Prelude.{IsMemoryOrWrite, SendsFront, SendsAll, unheard};
ghost use Rattle.rpc_stream.specs.declared.broken.Broken.{Broken};
ghost use Rattle.rpc_stream.specs.declared.broken.Broken.TheVariants as broken;
ghost use Rattle.mix_stream.specs.Stream.{CountsFailure};
ghost use Rattle.mix_lsp.specs.Served.{AnswersAs, Served, ServedAs, TellsBroken, TurnAs};

use crate::server::Server;
use mix_stream::{In, Out, write_all};
use rpc_stream::{Broken, Ear, Heard, send_one};
use serde_json::Value;
use std::alloc::{AllocError, Global};

/// Answers a client until it says `exit`, or its input ends at the end of a frame, status 0; the
/// status is 1 where `exit` comes without `shutdown`. It is 2 where the input ends within a frame
/// or has one that is too long, a read or a write fails, or memory is refused; then a line on the
/// error output says so.
pub fn serve<R: In, W: Out, E: Out>(alloc: Global, input: &mut R, out: &mut W, errors: &mut E) -> u8
    requires in_count { R.failed input.old < 2 ^ 64 - 1 }
    requires out_count { W.failed out.old < 2 ^ 64 - 1 }
    requires errors_count { E.failed errors.old < 2 ^ 64 - 1 }
    ensures range { result ≤ 2 }
    ensures written { result ≢ 2 → W.failed out.new ≡ W.failed out.old }
    ensures quiet { result ≢ 2 → errors.new ≡ errors.old }

    // All frames were heard up to the end, and a text of each answer was sent, and nothing failed.
    ensures served { result ≢ 2 → ServedAs (Ok result) (R.rest input.old) (R.rest input.new) (W.told out.old) (W.told out.new)
        × (R.failed input.new ≡ R.failed input.old) }

    // This broke it off, and a line on the error output tells it; what was sent before is the
    // answers to the frames that were heard, of the last one perhaps a beginning.
    ensures broken { result ≡ 2 → (why : Broken) × ServedAs (Err why) (R.rest input.old) (R.rest input.new) (W.told out.old) (W.told out.new)
        × CountsFailure (why ≡ broken.Read) (R.failed input.old) (R.failed input.new) × CountsFailure (why ≡ broken.Write) (W.failed out.old) (W.failed out.new)
        × (E.failed errors.new ≡ E.failed errors.old → TellsBroken why (E.told errors.old) (E.told errors.new)) }
{
    let mut server = Server::new(alloc);
    let mut ear = Ear::new(alloc);
    match talk(alloc, &mut server, &mut ear, input, out) {
        Ok(status) => status,
        Err(broken) => {
            tell(alloc, broken, errors);
            2
        }
    }
}

fn talk<R: In, W: Out>(
    alloc: Global,
    server: &mut Server,
    ear: &mut Ear,
    input: &mut R,
    out: &mut W,
) -> Result<u8, Broken>
    requires in_count { R.failed input.old < 2 ^ 64 - 1 }
    requires out_count { W.failed out.old < 2 ^ 64 - 1 }
    ensures served { Served result server.old.phase server.new.phase
        (unheard ear.old (R.rest input.old)) (unheard ear.new (R.rest input.new)) (W.told out.old) (W.told out.new) }
    ensures status { IfOk result (λ status. status ≤ 1) }
    ensures read { CountsFailure (result ≡ Err broken.Read) (R.failed input.old) (R.failed input.new) }
    ensures written { CountsFailure (result ≡ Err broken.Write) (W.failed out.old) (W.failed out.new) }
{
    let mut turns = 0;
    'turns: while turns < u64::MAX {
        match turn(alloc, server, ear, input, out)? {
            None => turns += 1,
            Some(status) => return Ok(status),
        }
    }
    Ok(0)
}

// One frame is heard and answered, and its answer is sent.
fn turn<R: In, W: Out>(
    alloc: Global,
    server: &mut Server,
    ear: &mut Ear,
    input: &mut R,
    out: &mut W,
) -> Result<Option<u8>, Broken>
    requires in_count { R.failed input.old < 2 ^ 64 - 1 }
    requires out_count { W.failed out.old < 2 ^ 64 - 1 }
    ensures turn { TurnAs result server.old.phase server.new.phase
        (unheard ear.old (R.rest input.old)) (unheard ear.new (R.rest input.new)) (W.told out.old) (W.told out.new) }
    ensures status { IfOk result (λ end. IfSome end (λ status. status ≤ 1)) }
    ensures read { CountsFailure (result ≡ Err broken.Read) (R.failed input.old) (R.failed input.new) }
    ensures written { CountsFailure (result ≡ Err broken.Write) (W.failed out.old) (W.failed out.new) }
{
    match ear.hear(input)? {
        Heard::End => Ok(Some(0)),
        Heard::Frame(body) => answer(alloc, server, &body, out),
    }
}

// A frame is answered, and its answer is sent.
#[tactic(auto, using(crate::proofs::ServedLemmas::answering))]
fn answer<W: Out>(
    alloc: Global,
    server: &mut Server,
    body: &Option<Vec<u8>>,
    out: &mut W,
) -> Result<Option<u8>, Broken>
    requires { W.failed out.old < 2 ^ 64 - 1 }
    ensures answers { AnswersAs result (option_map (λ b. b.items) body.now) server.old.phase server.new.phase (W.told out.old) (W.told out.new) }
    ensures status { IfOk result (λ end. IfSome end (λ status. status ≤ 1)) }
    ensures written { CountsFailure (result ≡ Err broken.Write) (W.failed out.old) (W.failed out.new) }
    ensures only { IfErr result IsMemoryOrWrite }
{
    let answer = server.receive(slice_of(body))?;
    send(alloc, &answer.message, out)?;
    Ok(answer.status)
}

fn slice_of(body: &Option<Vec<u8>>) -> Option<&[u8]>
    ensures { option_map (λ b. b.now) result ≡ option_map (λ b. b.items) body.now }
{
    match body {
        Some(body) => Some(body.as_slice()),
        None => None,
    }
}

// A message, if there is one, is sent as its text, in a frame.
#[tactic(auto, using(rpc_stream::proofs::SendLemmas::nothing))]
fn send<W: Out>(alloc: Global, message: &Option<Value>, out: &mut W) -> Result<(), Broken>
    requires { W.failed out.old < 2 ^ 64 - 1 }
    ensures sent { OnOk result (SendsAll (option_to_list (option_map view message.now)) (W.told out.old) (W.told out.new)) }
    ensures begun { OnErr result (SendsFront (option_to_list (option_map view message.now)) (W.told out.old) (W.told out.new)) }
    ensures failed { CountsFailure (result ≡ Err broken.Write) (W.failed out.old) (W.failed out.new) }
    ensures only { IfErr result IsMemoryOrWrite }
{
    match message {
        Some(message) => send_one(alloc, message, out),
        None => Ok(()),
    }
}

// The line that says what broke it off; where memory is refused for it, the one that says so.
fn tell<E: Out>(alloc: Global, broken: Broken, errors: &mut E)
    requires { E.failed errors.old < 2 ^ 64 - 1 }
    ensures { E.failed errors.new ≡ E.failed errors.old → TellsBroken broken (E.told errors.old) (E.told errors.new) }
{
    let line: Result<String, AllocError> = format!(in alloc; "mixrev: {broken}\n");
    let told = match line {
        Ok(line) => write_all(errors, line.as_bytes()),
        Err(_) => write_all(errors, b"mixrev: T1 out of memory\n"),
    };
    match told {
        Ok(()) | Err(_) => {}
    }
}

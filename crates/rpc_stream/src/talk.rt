//! A talk with a client: frame by frame it is heard, and what answers it is sent.

ghost use Rattle.std.specs.Prelude.{◌≡◌, ◌<◌, ◌-◌, ◌^◌, [], Ok, Err, IfOk, OnOk, option_map};
ghost use Rattle.mix_stream.specs.Stream.{CountsFailure};
ghost use Rattle.rpc_message.specs.Message.{next_seq, waits};
ghost use Rattle.rpc_frame.specs.Frame.{first_frame, partial};
ghost use Rattle.rpc_stream.specs.Asked.{asked_by, frame_in};
ghost use Rattle.rpc_stream.specs.Prelude.{kept, unheard, TakenAs, TalkedAs, TurnAs};
ghost use Rattle.rpc_stream.specs.Serving.{Takes, unclear_text, unclear_told};
ghost use Rattle.rpc_stream.specs.declared.broken.Broken.TheVariants as broken;
ghost use Rattle.rpc_stream.specs.declared.serves.Turn.TheVariants as turn;

use crate::broken::Broken;
use crate::hear::{Ear, Heard};
use crate::sending::send;
use crate::serves::{Serves, Turn};
use mix_refused::{Memory, Refused};
use mix_stream::{In, Out};
use rpc_message::{MessageFault, Outbox, Request};
use std::alloc::Global;

/// A talk with a client.
#[derive(Drop)]
pub struct Talk {
    alloc: Global,
    /// What was read and not yet heard.
    pub ear: Ear,
    /// The messages that wait to be sent.
    pub outbox: Outbox,
}

impl Talk {
    /// Nothing is read yet, and no message waits; the first one will have the number 1.
    pub fn new(alloc: Global) -> Talk
        ensures ear { kept result.ear ≡ [] }
        ensures outbox { waits result.outbox ≡ [] }
        ensures seq { result.outbox.seq ≡ 0 }
    {
        Talk {
            alloc,
            ear: Ear::new(alloc),
            outbox: Outbox::new(alloc),
        }
    }

    /// A client is heard and answered until it is done or its input is at its end. After 2^64 - 1 frames it ends too.
    /// Where a read fails, each frame that was read whole is answered; where a write fails, of the answers to the frames a beginning is written.
    pub fn with<S: Serves, R: In, W: Out>(
        &mut self,
        served: &mut S,
        input: &mut R,
        out: &mut W,
    ) -> Result<(), Broken>
        requires none { waits self.old.outbox ≡ [] }
        requires read { R.failed input.old < 2 ^ 64 - 1 }
        requires written { W.failed out.old < 2 ^ 64 - 1 }
        ensures talked { TalkedAs S.serves result (served.old, self.old.outbox.seq) (served.new, self.new.outbox.seq)
            (unheard self.old.ear (R.rest input.old)) (unheard self.new.ear (R.rest input.new)) (W.told out.old) (W.told out.new) }
        ensures read { CountsFailure (result ≡ Err broken.Read) (R.failed input.old) (R.failed input.new) }
        ensures written { CountsFailure (result ≡ Err broken.Write) (W.failed out.old) (W.failed out.new) }
        ensures partial { result ≡ Err broken.Read → first_frame (kept self.new.ear) ≡ partial }
    {
        let mut turns = 0;
        'turns: while turns < u64::MAX {
            match self.turn(served, input, out)? {
                Turn::On => turns += 1,
                Turn::Over => return Ok(()),
            }
        }
        Ok(())
    }

    // One frame is heard and answered, and its answer is sent, if the talk goes on after it.
    fn turn<S: Serves, R: In, W: Out>(
        &mut self,
        served: &mut S,
        input: &mut R,
        out: &mut W,
    ) -> Result<Turn, Broken>
        requires none { waits self.old.outbox ≡ [] }
        requires read { R.failed input.old < 2 ^ 64 - 1 }
        requires written { W.failed out.old < 2 ^ 64 - 1 }
        ensures talked { TurnAs S.serves result (served.old, self.old.outbox.seq) (served.new, self.new.outbox.seq)
            (unheard self.old.ear (R.rest input.old)) (unheard self.new.ear (R.rest input.new)) (W.told out.old) (W.told out.new) }
        ensures none { result ≡ Ok turn.On → waits self.new.outbox ≡ [] }
        ensures read { CountsFailure (result ≡ Err broken.Read) (R.failed input.old) (R.failed input.new) }
        ensures written { CountsFailure (result ≡ Err broken.Write) (W.failed out.old) (W.failed out.new) }
        ensures partial { result ≡ Err broken.Read → first_frame (kept self.new.ear) ≡ partial }
    {
        match self.take(served, input)? {
            None => Ok(Turn::Over),
            Some(turn) => {
                send(self.alloc, &mut self.outbox, out)?;
                Ok(turn)
            }
        }
    }

    // One frame is heard, and its answer waits to be sent; none at the end.
    fn take<S: Serves, R: In>(
        &mut self,
        served: &mut S,
        input: &mut R,
    ) -> Result<Option<Turn>, Broken>
        requires none { waits self.old.outbox ≡ [] }
        requires read { R.failed input.old < 2 ^ 64 - 1 }
        ensures taken { TakenAs S.serves result (served.old, self.old.outbox.seq) (served.new, self.new.outbox.seq)
            (unheard self.old.ear (R.rest input.old)) (unheard self.new.ear (R.rest input.new)) (waits self.new.outbox) }
        ensures read { CountsFailure (result ≡ Err broken.Read) (R.failed input.old) (R.failed input.new) }
        ensures written { result ≡ Err broken.Write → ⊥ }
        ensures partial { result ≡ Err broken.Read → first_frame (kept self.new.ear) ≡ partial }
    {
        match self.ear.hear(input)? {
            Heard::End => Ok(None),
            Heard::Frame(body) => {
                let turn = answer(self.alloc, served, &body, &mut self.outbox)?;
                Ok(Some(turn))
            }
        }
    }
}

// What answers a frame waits to be sent.
fn answer<S: Serves>(
    alloc: Global,
    served: &mut S,
    body: &Option<Vec<u8>>,
    outbox: &mut Outbox,
) -> Result<Turn, Memory>
    requires { waits outbox.old ≡ [] }
    ensures { IfOk result (λ turn. Takes S.serves (served.old, outbox.old.seq) (asked_by (option_map (λ b. b.items) body.now)) (waits outbox.new) turn (served.new, outbox.new.seq)) }
{
    match body {
        Some(body) => answer_body(alloc, served, body.as_slice(), outbox),
        None => unclear(outbox, None),
    }
}

#[tactic(auto, using(crate::proofs::BodyLemmas::bodies))]
fn answer_body<S: Serves>(
    alloc: Global,
    served: &mut S,
    body: &[u8],
    outbox: &mut Outbox,
) -> Result<Turn, Memory>
    requires { waits outbox.old ≡ [] }
    ensures { IfOk result (λ turn. Takes S.serves (served.old, outbox.old.seq) (frame_in body.now) (waits outbox.new) turn (served.new, outbox.new.seq)) }
{
    match Request::read(alloc, body) {
        Ok(request) => {
            let turn = served.serve(&request, outbox)?;
            Ok(turn)
        }
        Err(Refused::Fault(fault)) => unclear(outbox, Some(fault)),
        Err(Refused::Memory) => Err(Memory),
    }
}

// A frame that is no request is told as that.
fn unclear(outbox: &mut Outbox, fault: Option<MessageFault>) -> Result<Turn, Memory>
    requires { waits outbox.old ≡ [] }
    ensures turn { IfOk result (λ next. next ≡ turn.On) }
    ensures told { OnOk result (waits outbox.new ≡ unclear_told outbox.old.seq fault) }
    ensures seq { OnOk result (outbox.new.seq ≡ next_seq outbox.old.seq) }
{
    outbox.output("important", unclear_text(fault))?;
    Ok(Turn::On)
}

fn unclear_text(fault: Option<MessageFault>) -> &'static str
    ensures { result.now ≡ unclear_text fault }
{
    match fault {
        None => "a header without Content-Length\n",
        Some(MessageFault::NotJson) => "a message that is not JSON\n",
        Some(MessageFault::NotRequest) => "a message that is not a request\n",
    }
}

//! Messages that wait are sent, each in a frame.

ghost use Rattle.std.specs.Prelude.{◌≡◌, ◌<◌, ◌-◌, ◌^◌, [], ◌∷◌, map, Err, IfErr, OnErr, OnOk};
ghost use Rattle.serde_json.specs.View.{view};
ghost use Rattle.mix_stream.specs.Stream.{CountsFailure};
ghost use Rattle.rpc_message.specs.Message.{waits};
ghost use Rattle.rpc_stream.specs.Prelude.{IsMemoryOrWrite, SendsFront, SendsAll};
ghost use Rattle.rpc_stream.specs.declared.broken.Broken.TheVariants as broken;

use crate::broken::Broken;
use mix_stream::{Out, write_all};
use rpc_frame::frame;
use rpc_message::Outbox;
use serde_json::Value;
use std::alloc::Global;

/// Sends all messages that wait, one after the other, and then none waits; the numbers go on after theirs. Where memory is refused or a write fails, some may be sent, and all wait.
pub fn send<W: Out>(alloc: Global, outbox: &mut Outbox, out: &mut W) -> Result<(), Broken>
    requires { W.failed out.old < 2 ^ 64 - 1 }
    ensures sent { OnOk result (SendsAll (waits outbox.old) (W.told out.old) (W.told out.new)) }
    ensures none { OnOk result (waits outbox.new ≡ []) }
    ensures seq { outbox.new.seq ≡ outbox.old.seq }
    ensures begun { OnErr result (SendsFront (waits outbox.old) (W.told out.old) (W.told out.new)) }
    ensures failed { CountsFailure (result ≡ Err broken.Write) (W.failed out.old) (W.failed out.new) }
    ensures only { IfErr result IsMemoryOrWrite }
{
    send_all(alloc, outbox.messages(), out)?;
    outbox.clear();
    Ok(())
}

#[tactic(auto, using(crate::proofs::SendLemmas::nothing))]
fn send_all<W: Out>(alloc: Global, messages: &[Value], out: &mut W) -> Result<(), Broken>
    requires { W.failed out.old < 2 ^ 64 - 1 }
    ensures sent { OnOk result (SendsAll (map view messages.now) (W.told out.old) (W.told out.new)) }
    ensures begun { OnErr result (SendsFront (map view messages.now) (W.told out.old) (W.told out.new)) }
    ensures failed { CountsFailure (result ≡ Err broken.Write) (W.failed out.old) (W.failed out.new) }
    ensures only { IfErr result IsMemoryOrWrite }
{
    for message in messages {
        send_one(alloc, message, out)?;
    }
    Ok(())
}

/// Sends a message: its text, in a frame. Where memory is refused or the write fails, a beginning of it may be sent.
#[tactic(auto, using(crate::proofs::BrokenLemmas::fronts))]
pub fn send_one<W: Out>(alloc: Global, message: &Value, out: &mut W) -> Result<(), Broken>
    requires { W.failed out.old < 2 ^ 64 - 1 }
    ensures sent { OnOk result (SendsAll (view message.now ∷ []) (W.told out.old) (W.told out.new)) }
    ensures begun { OnErr result (SendsFront (view message.now ∷ []) (W.told out.old) (W.told out.new)) }
    ensures failed { CountsFailure (result ≡ Err broken.Write) (W.failed out.old) (W.failed out.new) }
    ensures only { IfErr result IsMemoryOrWrite }
{
    let text = message.to_string(alloc)?;
    let framed = frame(alloc, text.as_str())?;
    write_all(out, framed.as_bytes())?;
    Ok(())
}

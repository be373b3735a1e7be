//! How a run has ended, and what is told of it.

ghost use Rattle.std.specs.Prelude.{◌≡◌, IfOk, OnOk, string_bytes};
ghost use Rattle.std.specs.Option.{option_map};
ghost use Rattle.rpc_message.specs.Fields.{members_in};
ghost use Rattle.mix_dap.specs.Runs.{is_paused};
ghost use Rattle.mix_dap.specs.Stopped.{fault_at, put_text, text_of};

use crate::adapter::Way;
use crate::adapter::legs::{MOST, most_of};
use mix_machine::MixFault;
use mix_refused::Memory;
use mix_session::{Answer, End};
use rpc_message::Fields;
use std::alloc::Global;

/// The text of a stop, where it has one.
pub(crate) fn put_text(body: &mut Fields, text: Option<&str>) -> Result<(), Memory>
    ensures { OnOk result (members_in body.new ≡ put_text (option_map (λ t. t.now) text.entry) (members_in body.old)) }
{
    match text {
        Some(text) => {
            body.text("description", text)?;
            body.text("text", text)
        }
        None => Ok(()),
    }
}

/// The text of a run that has ended so, where it has one.
pub(crate) fn text_of(alloc: Global, end: End) -> Result<Option<String>, Memory>
    ensures { IfOk result (λ text. option_map string_bytes text ≡ text_of end) }
{
    match end {
        End::Halt => Ok(Some(String::from_str(alloc, "HLT")?)),
        End::Fault(fault) => Ok(Some(format!(in alloc; "{fault}")?)),
        End::Until(_) | End::Break | End::Arrived | End::Limit | End::Start => Ok(None),
    }
}

/// Whether a run this way has ended since it was long enough.
pub(crate) fn is_paused(way: Way, end: End) -> bool
    ensures { result ≡ is_paused way end }
{
    match end {
        End::Limit => most_of(way) == MOST,
        End::Halt | End::Fault(_) | End::Until(_) | End::Break | End::Arrived | End::Start => false,
    }
}

/// The fault that has ended a run, if one has.
pub(crate) fn fault_at(end: End) -> Option<MixFault>
    ensures { result ≡ fault_at end }
{
    match end {
        End::Fault(fault) => Some(fault),
        End::Halt | End::Until(_) | End::Break | End::Arrived | End::Limit | End::Start => None,
    }
}

/// The fault that has ended the steps of an answer, if one has.
pub(crate) fn fault_in(answer: Answer) -> Option<MixFault> {
    match answer {
        Answer::Ran(_, end) | Answer::Traced(_, end) => fault_at(end),
        Answer::Nothing
        | Answer::Back(_)
        | Answer::BackUntil(_)
        | Answer::Forth(_)
        | Answer::ForthUntil(_)
        | Answer::Done
        | Answer::Shows(_)
        | Answer::Refused(_) => None,
    }
}

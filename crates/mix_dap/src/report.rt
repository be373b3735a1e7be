//! What there is to say of the source of a launch, told to its client.

ghost use Rattle.std.specs.Prelude.{[], ◌∷◌, OnOk, codes};
ghost use Rattle.std.specs.Str.Lossy.{utf8_lossy};
ghost use Rattle.mix_dap.specs.Answer.{TellsReport, report_told};
ghost use Rattle.mix_dap.specs.Prelude.{AddsEvents, output};

use crate::launch::Texts;
use crate::loaded::source_of;
use mix_check::add_report;
use mix_refused::Memory;
use rpc_message::Outbox;
use std::alloc::Global;

/// Tells the faults and the warnings of the source, as `mixrev check` writes them.
#[tactic(auto, using(crate::proofs::EventLemmas::reporting))]
pub(crate) fn tell_report(alloc: Global, texts: &Texts, out: &mut Outbox) -> Result<(), Memory>
    ensures { OnOk result (TellsReport out.old out.new) }
{
    let mut text = Vec::new(alloc);
    add_report(alloc, texts.name.as_str(), source_of(texts), &mut text)?;
    tell_text(alloc, text.as_slice(), out)?;
    Ok(())
}

#[tactic(auto, using(crate::proofs::EventLemmas::events))]
fn tell_text(alloc: Global, text: &[u8], out: &mut Outbox) -> Result<(), Memory>
    ensures { OnOk result (AddsEvents (report_told text.now) out.old out.new) }
{
    match text.split_first() {
        None => Ok(()),
        Some(_) => tell_lossy(alloc, text, out),
    }
}

fn tell_lossy(alloc: Global, text: &[u8], out: &mut Outbox) -> Result<(), Memory>
    ensures { OnOk result (AddsEvents (output (codes "stderr") (utf8_lossy text.now) ∷ []) out.old out.new) }
{
    let text = String::from_utf8_lossy(alloc, text)?;
    out.output("stderr", text.as_str())?;
    Ok(())
}

//! The run of a bundle, and a bundle of what was done.

ghost use Rattle.std.specs.Prelude.{◌≡◌, ◌≢◌, ◌<◌, ◌+◌, ◌-◌, ◌^◌, ◌++◌, ℕ, List, Some, Err, IfOk, OnOk, false, length, slice_get};
ghost use Rattle.std.specs.Io.KnownBytes.{Keeps};
ghost use Rattle.mix_run.specs.Bundle.{bundle_of, ended, is_end_byte, marked, origin_of};
ghost use Rattle.mix_run.specs.Output.{Meets, IsStatus, output, bundle_output, max_bundle_bytes};
ghost use Rattle.mix_stream.specs.Stream.{ConsumesAtMost, CountsFailure};

use crate::fault::ToolFault;
use crate::run::open_and_execute;
use crate::statuses::refuse_source;
use crate::units::units_of;
pub(crate) use mix_files::{MAX_BUNDLE_BYTES, parts_of};
use mix_files::{DEVICES, SCRIPT, cut};
use mix_refused::{Memory, Refused};
use mix_stream::{In, Out, read_up_to};
use mixal_asm::assemble;
use std::alloc::Global;
use std::marker::Model;

/// What a talk is about: the file of its source, the text of that, and the deck of its devices.
#[derive(Drop)]
pub(crate) struct Origin<'n> {
    name: &'n str,
    source: Vec<u8>,
    deck: Vec<u8>,
}

impl<'n> Model for Origin<'n> {
    ghost use Rattle.mix_run.specs.Bundle.{OriginValue};

    ghost Value = { OriginValue };

    ghost view = { λ o. record { name = o.name.now; source = o.source.items; deck = o.deck.items } };
}

impl<'n> Origin<'n> {
    /// A source that was read from the file of this name, and a deck.
    pub(crate) fn of(name: &'n str, source: Vec<u8>, deck: Vec<u8>) -> Origin<'n>
        ensures { result ≡ origin_of name.now source.items deck.items }
    {
        Origin { name, source, deck }
    }

    /// The name of the file of the source.
    pub(crate) fn name(&self) -> &'n str
        ensures { result.now ≡ self.now.name }
    {
        self.name
    }

    pub(crate) fn source(&self) -> &[u8]
        ensures { result.now ≡ self.now.source }
    {
        &self.source
    }

    pub(crate) fn deck(&self) -> &[u8]
        ensures { result.now ≡ self.now.deck }
    {
        &self.deck
    }

    /// The file has this text now.
    pub(crate) fn put_source(&mut self, source: Vec<u8>)
        ensures { self.new ≡ record self.old { source = source.items } }
    {
        self.source = source;
    }
}

// Whether a text is empty, or ends with a line feed.
fn is_ended(text: &[u8]) -> bool
    ensures { result ≡ is_end_byte (slice_get text.now (length text.now - 1)) }
{
    match text.last() {
        None => true,
        Some(byte) => *byte == b'\n',
    }
}

// Appends a text, and a line feed if its last line has none.
fn put_ended(text: &mut Vec<u8>, part: &[u8]) -> Result<(), Memory>
    ensures { OnOk result (text.new.items ≡ text.old.items ++ ended part.now) }
{
    text.extend_from_slice(part)?;
    if is_ended(part) {
        return Ok(());
    }
    text.extend_from_slice(b"\n")?;
    Ok(())
}

// Appends a part after its marker, unless it is empty.
fn put_marked(text: &mut Vec<u8>, marker: &[u8], part: &[u8]) -> Result<(), Memory>
    ensures { OnOk result (text.new.items ≡ text.old.items ++ marked marker.now part.now) }
{
    match part.split_first() {
        None => Ok(()),
        Some(_) => {
            text.extend_from_slice(marker)?;
            text.extend_from_slice(b"\n")?;
            put_ended(text, part)
        }
    }
}

/// The bundle of a source, a deck and a script.
#[tactic(auto, unfolding(crate::specs::Bundle::bundle_of))]
pub(crate) fn bundle_of(alloc: Global, origin: &Origin, script: &[u8]) -> Result<Vec<u8>, Memory>
    ensures { IfOk result (λ text. text.items ≡ bundle_of origin.now script.now) }
{
    let mut text = Vec::new(alloc);
    put_ended(&mut text, &origin.source)?;
    put_marked(&mut text, DEVICES, &origin.deck)?;
    put_marked(&mut text, SCRIPT, script)?;
    Ok(text)
}

/// A copy of a part.
pub(crate) fn copy_of(alloc: Global, part: &[u8]) -> Result<Vec<u8>, Memory>
    ensures { IfOk result (λ text. text.items ≡ part.now) }
{
    let mut text = Vec::new(alloc);
    text.extend_from_slice(part)?;
    Ok(text)
}

// A source, a deck and a script that are read already.
#[tactic(auto, unfolding(crate::specs::Output::output, crate::specs::Output::outcome_of))]
fn run_parts<W: Out>(
    alloc: Global,
    source: &[u8],
    deck: &[u8],
    script: &[u8],
    out: &mut W,
) -> Result<u8, ToolFault>
    requires { W.failed out.old < 2 ^ 64 - 1 }
    ensures output { Meets (output false source.now deck.now script.now) result (W.told out.old) (W.told out.new) }
    ensures write { CountsFailure (result ≡ Err ToolFault.Write) (W.failed out.old) (W.failed out.new) }
    ensures unread { result ≢ Err ToolFault.Read }
    ensures ends { IfOk result IsStatus }
{
    match assemble(alloc, source) {
        Err(Refused::Memory) => Err(ToolFault::Memory),
        Err(Refused::Fault(fault)) => refuse_source(alloc, fault, out),
        Ok(program) => {
            let units = units_of(alloc, deck)?;
            open_and_execute(alloc, program, units, script, false, out)
        }
    }
}

/// What `run_debug` does, of a bundle: the source, then the deck after a line `%DEVICES`, then the script after a line `%SCRIPT`; a part that is
/// missing is empty. At most 41,943,041 bytes are read, all of them before the first byte is written. T6 is for a bundle over
/// 41,943,040 bytes too.
#[tactic(auto, unfolding(crate::specs::Output::bundle_output))]
pub fn run_bundle<R: In, W: Out>(alloc: Global, input: &mut R, out: &mut W) -> Result<u8, ToolFault>
    requires input_count { R.failed input.old < 2 ^ 64 - 1 }
    requires out_count { W.failed out.old < 2 ^ 64 - 1 }

    // The headline.
    ensures output { (b : List ℕ) → R.rest input.old ≡ Some b → Meets (bundle_output b) result (W.told out.old) (W.told out.new) }

    // A read or a write has failed exactly where that is answered.
    ensures read { CountsFailure (result ≡ Err ToolFault.Read) (R.failed input.old) (R.failed input.new) }
    ensures write { CountsFailure (result ≡ Err ToolFault.Write) (W.failed out.old) (W.failed out.new) }
    ensures unread { result ≡ Err ToolFault.Read → Keeps (W.told out.old) (W.told out.new) }

    // Never more is read.
    ensures input { ConsumesAtMost (R.rest input.old) (R.rest input.new) (max_bundle_bytes + 1) }
    ensures ends { IfOk result IsStatus }
{
    let bundle = read_up_to(alloc, input, MAX_BUNDLE_BYTES + 1)?;
    if bundle.len() > MAX_BUNDLE_BYTES {
        return Err(ToolFault::Long);
    }
    let parts = cut(&bundle);
    run_parts(alloc, parts.source, parts.deck, parts.script, out)
}

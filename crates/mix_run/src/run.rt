//! The run of a source, a deck and a script, each from a reader of its own.

ghost use Rattle.std.specs.Prelude.{◌≡◌, ◌⊎◌, drop, ◌≢◌, ◌<◌, ◌≤◌, ◌+◌, ◌-◌, ◌^◌, ℕ, List, Some, Ok, Err, IfOk, false, true};
ghost use Rattle.std.specs.Io.KnownBytes.{Keeps};
ghost use Rattle.mixal_asm.specs.declared.fault.AsmFault.{AsmFault};
ghost use Rattle.mixal_asm.specs.Assembly.{assembly};
ghost use Rattle.mix_machine.specs.declared.units.deck_fault.DeckFault.{DeckFault};
ghost use Rattle.mix_machine.specs.units.deck.Deck.{deck_of, max_deck_bytes};
ghost use Rattle.mix_session.specs.Session.{opened};
ghost use Rattle.mix_run.specs.Prelude.{debug_output, Meets, IsStatus, max_bundle_bytes, outcome_of_script, max_script_bytes, parts_of, deck_given};
ghost use Rattle.mix_stream.specs.Stream.{ConsumesAtMost, CountsFailure};

use crate::bundle::{MAX_BUNDLE_BYTES, parts_of};
use crate::commands::execute_lines;
use crate::fault::ToolFault;
use crate::statuses::{refuse_source, status};
use crate::units::given_units;
use mix_machine::Units;
use mix_refused::Refused;
use mix_session::Session;
use mix_stream::{In, Out, read_up_to};
use mixal_asm::{Program, assemble};
use std::alloc::Global;

/// The most bytes that a script may have.
pub(crate) const MAX_SCRIPT_BYTES: usize = 1_048_576;

/// A script on the machine that a program loads, with its units.
#[tactic(auto, unfolding(crate::specs::Output::outcome_of_script))]
pub(crate) fn open_and_execute<W: Out>(
    alloc: Global,
    program: Program,
    units: Units,
    script: &[u8],
    echo: bool,
    out: &mut W,
) -> Result<u8, ToolFault>
    requires { W.failed out.old < 2 ^ 64 - 1 }
    ensures output { Meets (outcome_of_script echo (opened program units) script.now) result (W.told out.old) (W.told out.new) }
    ensures write { CountsFailure (result ≡ Err ToolFault.Write) (W.failed out.old) (W.failed out.new) }
    ensures unread { result ≢ Err ToolFault.Read }
    ensures status { result ≢ Ok 1 }
    ensures deck { (f : DeckFault) → result ≢ Err (ToolFault.Deck f) }
    ensures ends { IfOk result IsStatus }
{
    let mut session = Session::open(alloc, program, units)?;
    if script.len() > MAX_SCRIPT_BYTES {
        return Err(ToolFault::Long);
    }
    let told = execute_lines(alloc, &mut session, script, echo, out)?;
    Ok(status(told))
}

// The script of an assembled source, with the units of its deck.
fn run_script<C: In, W: Out>(
    alloc: Global,
    program: Program,
    units: Units,
    script: &mut C,
    echo: bool,
    out: &mut W,
) -> Result<u8, ToolFault>
    requires script_count { C.failed script.old < 2 ^ 64 - 1 }
    requires out_count { W.failed out.old < 2 ^ 64 - 1 }
    ensures output { (t : List ℕ) → C.rest script.old ≡ Some t
        → Meets (outcome_of_script echo (opened program units) t) result (W.told out.old) (W.told out.new) }
    ensures read { CountsFailure (result ≡ Err ToolFault.Read) (C.failed script.old) (C.failed script.new) }
    ensures write { CountsFailure (result ≡ Err ToolFault.Write) (W.failed out.old) (W.failed out.new) }
    ensures unread { result ≡ Err ToolFault.Read → Keeps (W.told out.old) (W.told out.new) }
    ensures script { ConsumesAtMost (C.rest script.old) (C.rest script.new) (max_script_bytes + 1) }
    ensures status { result ≢ Ok 1 }
    ensures deck { (f : DeckFault) → result ≢ Err (ToolFault.Deck f) }
    ensures ends { IfOk result IsStatus }
{
    let commands = read_up_to(alloc, script, MAX_SCRIPT_BYTES + 1)?;
    open_and_execute(alloc, program, units, &commands, echo, out)
}

/// What is asked of a run by a script.
#[derive(Clone, Copy)]
pub struct DebugOptions {
    /// Whether the deck is read from a text of its own, in place of that of the bundle.
    pub deck: bool,
    /// Whether each line of the script is written before its reply.
    pub echo: bool,
}

/// Assembles a source, or that of a bundle, takes the deck of the bundle, or reads one if `options.deck` is true, which then is in the place of
/// that, reads a script, and executes it on the loaded machine; with `options.echo` each of its lines is written before its reply. The status is
/// 0 where each command was accepted, 3 where one was refused, and 1 where the source is refused: then its first fault is written. A script of
/// the bundle is not executed. At most 41,943,041 bytes of the source or bundle are read, 33,554,433 of the deck and 1,048,577 of the script, all
/// of them before the first byte is written; the deck is read after the source, and the script after the deck. After a refusal or a read that
/// failed nothing else is read.
///
/// It fails with T1 where memory is refused, with T2 or T3 where a read or the write fails, with T5 where the deck is refused, and with
/// T6 where the script is over 1,048,576 bytes. After T1 and T3 a beginning of the output has been written, after the others nothing.
pub fn run_debug<S: In, D: In, C: In, W: Out>(
    alloc: Global,
    source: &mut S,
    deck: &mut D,
    script: &mut C,
    options: DebugOptions,
    out: &mut W,
) -> Result<u8, ToolFault>
    requires source_count { S.failed source.old < 2 ^ 64 - 1 }
    requires deck_count { D.failed deck.old < 2 ^ 64 - 1 }
    requires script_count { C.failed script.old < 2 ^ 64 - 1 }
    requires out_count { W.failed out.old < 2 ^ 64 - 1 }

    // The headline, of the source in a text and of the deck that is given, or of that in the text.
    ensures output { (s d t : List ℕ) → S.rest source.old ≡ Some s → D.rest deck.old ≡ Some d → C.rest script.old ≡ Some t
        → Meets (debug_output options.echo options.deck s d t) result (W.told out.old) (W.told out.new) }

    // A read or a write has failed exactly where that is answered.
    ensures read { CountsFailure (result ≡ Err ToolFault.Read) (S.failed source.old + D.failed deck.old + C.failed script.old)
        (S.failed source.new + D.failed deck.new + C.failed script.new) }
    ensures reads { (S.failed source.old ≤ S.failed source.new) × (D.failed deck.old ≤ D.failed deck.new) × (C.failed script.old ≤ C.failed script.new) }
    ensures write { CountsFailure (result ≡ Err ToolFault.Write) (W.failed out.old) (W.failed out.new) }
    ensures unread { result ≡ Err ToolFault.Read → Keeps (W.told out.old) (W.told out.new) }

    // Never more is read.
    ensures source { ConsumesAtMost (S.rest source.old) (S.rest source.new) (max_bundle_bytes + 1) }
    ensures deck { ConsumesAtMost (D.rest deck.old) (D.rest deck.new) (max_deck_bytes + 1) }
    ensures script { ConsumesAtMost (C.rest script.old) (C.rest script.new) (max_script_bytes + 1) }

    // A deck that is not given is not read.
    ensures no_deck { options.deck ≡ false → deck.new ≡ deck.old }

    // After a refusal nothing else is read.
    ensures source_refused { result ≡ Ok 1 → (deck.new ≡ deck.old) × (script.new ≡ script.old) }
    ensures deck_refused { (f : DeckFault) → result ≡ Err (ToolFault.Deck f) → script.new ≡ script.old }

    // Nor is it after a source or a deck that is to be refused, whatever the call answers.
    ensures bad_source { (s : List ℕ) (f : AsmFault) → S.rest source.old ≡ Some s → assembly (parts_of s).source ≡ Err f
        → (deck.new ≡ deck.old) × (script.new ≡ script.old) }
    ensures bad_deck { (s d : List ℕ) (f : DeckFault) → S.rest source.old ≡ Some s → D.rest deck.old ≡ Some d
        → deck_of (deck_given options.deck (parts_of s).deck d) ≡ Err f → script.new ≡ script.old }

    // Nor after a read that failed.
    ensures source_failed { S.failed source.old < S.failed source.new → (deck.new ≡ deck.old) × (script.new ≡ script.old) }
    ensures deck_failed { D.failed deck.old < D.failed deck.new → script.new ≡ script.old }

    // Each is read when the one before it has been read up to its end or its limit.
    ensures in_turn { (s : List ℕ) → S.rest source.old ≡ Some s
        → ((deck.new ≡ deck.old) × (script.new ≡ script.old)) ⊎ (S.rest source.new ≡ Some (drop (max_bundle_bytes + 1) s)) }
    ensures script_in_turn { (d : List ℕ) → D.rest deck.old ≡ Some d → options.deck ≡ true
        → (script.new ≡ script.old) ⊎ (D.rest deck.new ≡ Some (drop (max_deck_bytes + 1) d)) }
    ensures ends { IfOk result IsStatus }
{
    let text = read_up_to(alloc, source, MAX_BUNDLE_BYTES + 1)?;
    let parts = parts_of(&text);
    match assemble(alloc, parts.source) {
        Err(Refused::Memory) => Err(ToolFault::Memory),
        Err(Refused::Fault(fault)) => refuse_source(alloc, fault, out),
        Ok(program) => {
            let units = given_units(alloc, parts.deck, deck, options.deck)?;
            run_script(alloc, program, units, script, options.echo, out)
        }
    }
}

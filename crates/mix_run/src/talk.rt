//! A talk with the program of a source: each line is a command, which is done and answered before the next is read.

ghost use Rattle.std.specs.Prelude.{◌≡◌, ◌≢◌, ◌⊎◌, ◌<◌, ◌≤◌, ◌+◌, ◌-◌, ◌^◌, ℕ, List, Some, Ok, Err, IfOk, OnOk, drop, false, length, true};
ghost use Rattle.mixal_asm.specs.Prelude.{assembly, ProgramValue};
ghost use Rattle.mixal_asm.specs.declared.fault.AsmFault.{AsmFault};
ghost use Rattle.mix_machine.specs.Prelude.{deck_of, max_deck_bytes, UnitsState};
ghost use Rattle.mix_machine.specs.declared.units.deck_fault.DeckFault.{DeckFault};
ghost use Rattle.mix_run.specs.Prelude.{debug_output, origin_given, IsStatus, Meets, max_bundle_bytes, max_script_bytes, parts_of, deck_given, Files, noted, begun, Knows, talk_of};
ghost use Rattle.mix_run.specs.Talk.{TalksFrom, is_too_long};
ghost use Rattle.mix_lines.specs.Lines.{lines};
ghost use Rattle.std.specs.List.{list_any};
ghost use Rattle.mix_stream.specs.Stream.{ConsumesAtMost, CountsFailure};

mod answer;
mod aside;
mod asked;
mod file;
mod finish;
mod heard;
mod input;
mod listing;
mod moment;
mod pending;
mod points;
mod recall;
mod reload;
mod save;
mod source;
mod stopped;
mod watched;

use crate::beside::tell_report;
use crate::bundle::{MAX_BUNDLE_BYTES, parts_of};
use crate::fault::ToolFault;
use crate::opener::Opener;
use crate::statuses::refuse_source;
use crate::talk::input::talk;
use crate::talk::moment::Moment;
use crate::units::given_deck;
pub use aside::Talker;
use mix_refused::{Memory, Refused};
use mix_stream::{In, Out, read_up_to};
use mixal_asm::assemble;
use std::alloc::Global;

/// Where a talk goes on: who gives the lines, the input that has them, the output of the replies, and the error output, on which other things are
/// told beside.
#[derive(Drop)]
pub struct Streams<R, W, E> {
    pub talker: Talker,
    pub input: R,
    pub out: W,
    pub errors: E,
}

/// What a talk reads before its lines: a source or a bundle, and a deck.
#[derive(Drop)]
pub struct TalkTexts<S, D> {
    pub source: S,
    pub deck: D,
}

/// Assembles a source, or that of a bundle, takes the deck of the bundle, or reads one if `given` is true, which then is in the place of that, and talks
/// with the loaded machine: each line of the input is a command, as a line of a script is, which is done and answered before the next is read. A person
/// is told the warnings of the source on the error output, greeted and prompted there, and has `help`, `save`, `source`, `reload` and `quit` beside the
/// commands. The status is 0 where each command was accepted, 3 where one was refused, and 1 where the source is refused: then its first fault is
/// written, and all of them are told on the error output, with their lines and marks. At most 41,943,041 bytes of the source or bundle are read and
/// 33,554,433 of the deck, before the first line is read; the deck is read after the source. After a refusal or a read that failed nothing else is read.
///
/// It fails with T1 where memory is refused, with T2 or T3 where a read or a write fails, with T5 where the deck is refused, and with T6 where a line
/// is over 1,048,576 bytes. After T2 and T6 the replies to the lines before it have been written, after T1 and T3 a beginning of them.
pub fn run_talk<O: Opener, S: In, D: In, R: In, W: Out, E: Out>(
    alloc: Global,
    name: &str,
    texts: &mut TalkTexts<S, D>,
    given: bool,
    files: &mut O,
    streams: &mut Streams<R, W, E>,
) -> Result<u8, ToolFault>
    requires source_count { S.failed texts.old.source < 2 ^ 64 - 1 }
    requires deck_count { D.failed texts.old.deck < 2 ^ 64 - 1 }
    requires input_count { R.failed streams.old.input < 2 ^ 64 - 1 }
    requires out_count { W.failed streams.old.out < 2 ^ 64 - 1 }

    // What is written are the replies to the lines, each before the next is read; where a line sources a file, to the lines of it, and after a line that
    // reloads the source, in the machine of that. These are known if it is known what the files hold, or no line reads one.
    ensures talks { (all : Files) (s d t : List ℕ) → S.rest texts.old.source ≡ Some s → D.rest texts.old.deck ≡ Some d → R.rest streams.old.input ≡ Some t
        → Knows (O.holds files.old) all streams.old.talker (lines t) → TalksFrom all name.now given s d streams.old.talker t result (R.rest streams.new.input) (W.told streams.old.out) (W.told streams.new.out) }

    // Where no read fails, it is what a script of these lines writes.
    ensures as_script { (s d t : List ℕ) → S.rest texts.old.source ≡ Some s → D.rest texts.old.deck ≡ Some d → R.rest streams.old.input ≡ Some t
        → streams.old.talker ≡ Talker.Program → length t ≤ max_script_bytes → result ≢ Err ToolFault.Read
        → Meets (debug_output false given s d t) result (W.told streams.old.out) (W.told streams.new.out) }

    // T6 is answered only where a line is longer than one may be, unless the input has 2^64 - 1 bytes or more; so never for many short lines.
    ensures long { result ≡ Err ToolFault.Long → (d t : List ℕ) → D.rest texts.old.deck ≡ Some d → R.rest streams.old.input ≡ Some t → max_script_bytes < length t }
    ensures long_line { result ≡ Err ToolFault.Long → (d t : List ℕ) → D.rest texts.old.deck ≡ Some d → R.rest streams.old.input ≡ Some t
        → length t < 2 ^ 64 - 1 → list_any is_too_long (lines t) ≡ true }

    // A read or a write has failed exactly where that is answered.
    ensures read { CountsFailure (result ≡ Err ToolFault.Read) (S.failed texts.old.source + D.failed texts.old.deck + R.failed streams.old.input)
        (S.failed texts.new.source + D.failed texts.new.deck + R.failed streams.new.input) }
    ensures reads { (S.failed texts.old.source ≤ S.failed texts.new.source) × (D.failed texts.old.deck ≤ D.failed texts.new.deck)
        × (R.failed streams.old.input ≤ R.failed streams.new.input) }
    ensures write { CountsFailure (result ≡ Err ToolFault.Write) (W.failed streams.old.out) (W.failed streams.new.out) }

    // Never more is read of the source and the deck.
    ensures source { ConsumesAtMost (S.rest texts.old.source) (S.rest texts.new.source) (max_bundle_bytes + 1) }
    ensures deck { ConsumesAtMost (D.rest texts.old.deck) (D.rest texts.new.deck) (max_deck_bytes + 1) }

    // A deck that is not given is not read.
    ensures no_deck { given ≡ false → texts.new.deck ≡ texts.old.deck }

    // After a refusal nothing else is read.
    ensures source_refused { result ≡ Ok 1 → (texts.new.deck ≡ texts.old.deck) × (streams.new.input ≡ streams.old.input) }
    ensures deck_refused { (f : DeckFault) → result ≡ Err (ToolFault.Deck f) → streams.new.input ≡ streams.old.input }

    // Nor is it after a source or a deck that is to be refused, whatever the call answers.
    ensures bad_source { (s : List ℕ) (f : AsmFault) → S.rest texts.old.source ≡ Some s → assembly (parts_of s).source ≡ Err f
        → (texts.new.deck ≡ texts.old.deck) × (streams.new.input ≡ streams.old.input) }
    ensures bad_deck { (s d : List ℕ) (f : DeckFault) → S.rest texts.old.source ≡ Some s → D.rest texts.old.deck ≡ Some d
        → deck_of (deck_given given (parts_of s).deck d) ≡ Err f → streams.new.input ≡ streams.old.input }

    // Nor after a read that failed.
    ensures source_failed { S.failed texts.old.source < S.failed texts.new.source → (texts.new.deck ≡ texts.old.deck) × (streams.new.input ≡ streams.old.input) }
    ensures deck_failed { D.failed texts.old.deck < D.failed texts.new.deck → streams.new.input ≡ streams.old.input }

    // Each is read when the one before it has been read up to its end or its limit.
    ensures in_turn { (s : List ℕ) → S.rest texts.old.source ≡ Some s
        → ((texts.new.deck ≡ texts.old.deck) × (streams.new.input ≡ streams.old.input)) ⊎ (S.rest texts.new.source ≡ Some (drop (max_bundle_bytes + 1) s)) }
    ensures input_in_turn { (d : List ℕ) → D.rest texts.old.deck ≡ Some d → given ≡ true
        → (streams.new.input ≡ streams.old.input) ⊎ (D.rest texts.new.deck ≡ Some (drop (max_deck_bytes + 1) d)) }
    ensures ends { IfOk result IsStatus }

    // What a person saves is each time the bundle of what was done so far, with the source that was loaded last, under the name that is said; a program
    // saves nothing.
    ensures saved { (all : Files) (s d t : List ℕ) (p : ProgramValue) (u : UnitsState) → S.rest texts.old.source ≡ Some s → D.rest texts.old.deck ≡ Some d
        → R.rest streams.old.input ≡ Some t → Knows (O.holds files.old) all streams.old.talker (lines t) → assembly (parts_of s).source ≡ Ok p
        → deck_of (deck_given given (parts_of s).deck d) ≡ Ok u
        → OnOk result (O.saved files.new ≡ noted (O.saved files.old) (talk_of all (begun (origin_given name.now given s d) p u) streams.old.talker (lines t)).saved) }
    ensures unsaved { result ≡ Ok 1 → files.new ≡ files.old }
    ensures unasked { O.asked files.new ≡ O.asked files.old }
    ensures untouched { streams.old.talker ≡ Talker.Program → files.new ≡ files.old }
{
    let text = read_up_to(alloc, &mut texts.source, MAX_BUNDLE_BYTES + 1)?;
    let parts = parts_of(&text);
    match assemble(alloc, parts.source) {
        Err(Refused::Memory) => Err(ToolFault::Memory),
        Err(Refused::Fault(fault)) => {
            tell_report(alloc, name, parts.source, &mut streams.errors);
            refuse_source(alloc, fault, &mut streams.out)
        }
        Ok(program) => {
            let deck = match given_deck(alloc, parts.deck, &mut texts.deck, given) {
                Ok(deck) => deck,
                Err(fault) => return Err(fault),
            };
            let mut moment = match Moment::begin(alloc, name, parts.source, program, deck) {
                Ok(moment) => moment,
                Err(Memory) => return Err(ToolFault::Memory),
            };
            talk(&mut moment, files, streams)
        }
    }
}

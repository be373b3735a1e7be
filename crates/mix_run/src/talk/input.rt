//! The input of a talk: its lines are executed as they come, and answered before more is read.

ghost use Rattle.std.specs.Prelude.{◌≡◌, ◌≢◌, ◌<◌, ◌≤◌, ◌-◌, ◌^◌, ℕ, List, Some, Ok, Err, IfOk, OnOk, true, length};
ghost use Rattle.std.specs.List.{list_any};
ghost use Rattle.mix_lines.specs.Lines.{lines};
ghost use Rattle.mix_machine.specs.declared.units.deck_fault.DeckFault.{DeckFault};
ghost use Rattle.mix_run.specs.Prelude.{Files, noted, IsStatus, Knows, talk_of};
ghost use Rattle.mix_run.specs.Talk.{TalksTo, is_too_long, max_line_bytes};
ghost use Rattle.mix_stream.specs.Stream.{CountsFailure};

use crate::fault::ToolFault;
use crate::opener::Opener;
use crate::statuses::status;
use crate::talk::Streams;
use crate::talk::aside::{Talker, greet, prompt};
use crate::talk::heard::answer_text;
use crate::talk::moment::Moment;
use crate::talk::pending::take_lines;
use mix_refused::Memory;
use mix_session::Told;
use mix_stream::{CHUNK, In, Out};

/// The most bytes that a line of a talk may have with its end, which has at most two.
const MAX_WHOLE_LINE_BYTES: usize = 1_048_578;

/// Greets a person, and executes the lines of an input as they come, up to its end or to the line
/// that ends the talk: the status. It fails with T1 if memory is refused, with T2 or T3 if a read
/// or a write fails, and with T6 if a line has over 1,048,576 bytes.
pub(crate) fn talk<O: Opener, R: In, W: Out, E: Out>(
    moment: &mut Moment,
    files: &mut O,
    streams: &mut Streams<R, W, E>,
) -> Result<u8, ToolFault>
    requires input_count { R.failed streams.old.input < 2 ^ 64 - 1 }
    requires out_count { W.failed streams.old.out < 2 ^ 64 - 1 }
    ensures talks { (all : Files) (t : List ℕ) → R.rest streams.old.input ≡ Some t → Knows (O.holds files.old) all streams.old.talker (lines t)
        → TalksTo all moment.old streams.old.talker t result (R.rest streams.new.input) (W.told streams.old.out) (W.told streams.new.out) }
    ensures saved { (all : Files) (t : List ℕ) → R.rest streams.old.input ≡ Some t → Knows (O.holds files.old) all streams.old.talker (lines t)
        → OnOk result (O.saved files.new ≡ noted (O.saved files.old) (talk_of all moment.old streams.old.talker (lines t)).saved) }
    ensures unasked { O.asked files.new ≡ O.asked files.old }
    ensures long { result ≡ Err ToolFault.Long → (t : List ℕ) → R.rest streams.old.input ≡ Some t → max_line_bytes < length t }
    ensures long_line { result ≡ Err ToolFault.Long → (t : List ℕ) → R.rest streams.old.input ≡ Some t → length t < 2 ^ 64 - 1 → list_any is_too_long (lines t) ≡ true }
    ensures read { CountsFailure (result ≡ Err ToolFault.Read) (R.failed streams.old.input) (R.failed streams.new.input) }
    ensures reads { R.failed streams.old.input ≤ R.failed streams.new.input }
    ensures status { result ≢ Ok 1 }
    ensures deck { (f : DeckFault) → result ≢ Err (ToolFault.Deck f) }
    ensures ends { IfOk result IsStatus }
    ensures write { CountsFailure (result ≡ Err ToolFault.Write) (W.failed streams.old.out) (W.failed streams.new.out) }
    ensures untouched { streams.old.talker ≡ Talker.Program → files.new ≡ files.old }
{
    let talker = streams.talker;
    let alloc = moment.recall.allocator();
    let mut pending = Vec::new(alloc);
    let mut buffer = [0; CHUNK];
    let mut told = Told::Accepted;
    greet(moment, talker, &mut streams.errors);
    prompt(talker, false, &mut streams.errors);
    for reads in 0..u64::MAX {
        let count = match streams.input.read(&mut buffer) {
            Ok(count) => count,
            Err(_) => return Err(ToolFault::Read),
        };
        let (out, errors) = (&mut streams.out, &mut streams.errors);
        if count == 0 {
            prompt(talker, true, errors);
            match answer_text(moment, talker, &pending, files, out, errors) {
                Ok(heard) => return Ok(status(told.and(heard.told))),
                Err(fault) => return Err(fault),
            }
        }
        let text = match take_lines(alloc, &mut pending, &buffer[..count]) {
            Ok(text) => text,
            Err(Memory) => return Err(ToolFault::Memory),
        };
        let heard = match answer_text(moment, talker, &text, files, out, errors) {
            Ok(heard) => heard,
            Err(fault) => return Err(fault),
        };
        told = told.and(heard.told);
        if heard.is_over {
            return Ok(status(told));
        }
        if pending.len() > MAX_WHOLE_LINE_BYTES {
            return Err(ToolFault::Long);
        }
    }
    Err(ToolFault::Long)
}

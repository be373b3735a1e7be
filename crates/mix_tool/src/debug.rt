//! A session of a plan.

ghost use Rattle.std.specs.Prelude.{Some, ◌≡◌, ◌≢◌, ◌<◌, ◌≤◌, ◌-◌, ◌^◌, false};
ghost use Rattle.mix_run.specs.Opening.{Files};
ghost use Rattle.mix_tool.specs.Plan.{AreFresh, DebugsOn, HoldTexts, is_talk, seen};
ghost use Rattle.mix_tool.specs.Run.{Given};

use crate::ending::{status, unread};
use crate::texts::Texts;
use mix_plan::DebugPlan;
use mix_run::{DebugOptions, Opener, Streams, TalkTexts, run_debug, run_talk};
use mix_stream::{In, Out};
use std::alloc::Global;

/// A session by a script, or without one by the lines of the input, with the deck that is named, or
/// with that of a bundle.
pub(crate) fn debug_on<O: Opener, R: In, W: Out, E: Out>(
    files: &mut O,
    alloc: Global,
    plan: &DebugPlan,
    texts: Texts<O::Reader>,
    streams: &mut Streams<R, W, E>,
) -> u8
    requires fresh { AreFresh O.Reader.failed texts }
    requires input_count { R.failed streams.old.input < 2 ^ 64 - 1 }
    requires out_count { W.failed streams.old.out < 2 ^ 64 - 1 }
    ensures runs { (all : Files) (given : Given) → O.holds files.old ≡ Some all → HoldTexts O.Reader.rest texts given
        → DebugsOn all plan.now given streams.old.talker result (seen R.rest W.told (O.refusal files.old) streams.old) (seen R.rest W.told (O.refusal files.new) streams.new) }
    ensures input { is_talk plan.now.script ≡ false → streams.new.input ≡ streams.old.input }
    ensures unasked { O.asked files.new ≡ O.asked files.old }
    ensures range { result ≤ 3 }
    ensures written { result ≢ 2 → W.failed streams.new.out ≡ W.failed streams.old.out }
    ensures quiet { is_talk plan.now.script ≡ false → result ≢ 2 → streams.new.errors ≡ streams.old.errors }
{
    let Texts {
        source,
        deck,
        cards: _,
        typewriter: _,
        script: lines,
    } = texts;
    let (mut source, mut deck, mut lines) = (source, deck, lines);
    let (name, given) = (plan.source.as_str(), plan.devices.is_some());
    match &plan.script {
        Some(_) => {
            let (out, echo) = (&mut streams.out, plan.echo);
            let options = DebugOptions { deck: given, echo };
            let outcome = run_debug(alloc, &mut source, &mut deck, &mut lines, options, out);
            let deck = (plan.devices.as_deref(), deck.failures());
            let file = unread(name, &[deck, (plan.script.as_deref(), lines.failures())]);
            status(alloc, outcome, Some(file), &mut streams.errors)
        }
        None => {
            let mut texts = TalkTexts { source, deck };
            let outcome = run_talk(alloc, name, &mut texts, given, files, streams);
            let failures = texts.deck.failures();
            let file = if texts.source.failures() > 0 || failures > 0 {
                Some(unread(name, &[(plan.devices.as_deref(), failures)]))
            } else {
                None
            };
            status(alloc, outcome, file, &mut streams.errors)
        }
    }
}

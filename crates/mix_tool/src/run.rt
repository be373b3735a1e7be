//! A run of a plan: it is made on its texts, and what it leaves is saved.

ghost use Rattle.std.specs.Prelude.{◌≡◌, ◌≢◌, ◌<◌, ◌≤◌, ◌-◌, ◌^◌, ℕ, List, [], Err, IfOk, Some, option_map, string_bytes};
ghost use Rattle.mix_run.specs.Opening.{Files};
ghost use Rattle.mix_stream.specs.Stream.{CountsFailure};
ghost use Rattle.mix_tool.specs.Ending.{Creates, Saves};
ghost use Rattle.mix_tool.specs.Plan.{AreFresh, HoldTexts, PrintsOn, saved_names, seen};
ghost use Rattle.mix_tool.specs.Run.{Given, Prints, run_draws, run_output};

use crate::asked::{options_of, subject_of};
use crate::ending::{tell, unread};
use crate::keep::{save_files, taken, unsaved_line};
use crate::ran::{print_status, tell_halt};
use crate::read::units_of_run;
use crate::texts::Texts;
use mix_cli::FAILED;
use mix_files::{MAX_BUNDLE_BYTES, parts_of};
use mix_plan::RunPlan;
use mix_refused::Refused;
use mix_run::{
    Opener, PrintAnswer, Printed, Shows, Streams, ToolFault, Unsaved, run_printed, tell_report,
};
use mix_stream::{In, Out, read_up_to};
use mixal_asm::assemble;
use std::alloc::Global;

// Assembles a source, or that of a bundle, and runs its program with the units of the other texts. What is wrong with the source is told, and of a refused
// one no other text is read.
fn print_texts<T: In, R, W: Out, E: Out>(
    alloc: Global,
    plan: &RunPlan,
    texts: &mut Texts<T>,
    streams: &mut Streams<R, W, E>,
) -> Result<Printed, ToolFault>
    requires fresh { AreFresh T.failed texts.old }
    requires out_count { W.failed streams.old.out < 2 ^ 64 - 1 }
    ensures output { (given : Given) → HoldTexts T.rest texts.old given
        → (text : List ℕ) × Prints (run_output text plan.now given) result (W.told streams.old.out) (W.told streams.new.out) }
    ensures map { (given : Given) → HoldTexts T.rest texts.old given → IfOk result (λ p. run_draws plan.now given p.map.items) }
    ensures write { CountsFailure (result ≡ Err ToolFault.Write) (W.failed streams.old.out) (W.failed streams.new.out) }
    ensures input { streams.new.input ≡ streams.old.input }
{
    let source = plan.source.as_str();
    let text = match read_up_to(alloc, &mut texts.source, MAX_BUNDLE_BYTES + 1) {
        Ok(text) => text,
        Err(Refused::Memory) => return Err(ToolFault::Memory),
        Err(Refused::Fault(_)) => return Err(ToolFault::Read),
    };
    let parts = parts_of(&text);
    match assemble(alloc, parts.source) {
        Err(Refused::Memory) => Err(ToolFault::Memory),
        Err(Refused::Fault(fault)) => {
            tell_report(alloc, source, parts.source, &mut streams.errors);
            Ok(Printed {
                answer: PrintAnswer::Refused(fault),
                shows: Shows::Nothing,
                deck: Vec::new(alloc),
                map: Vec::new(alloc),
            })
        }
        Ok(program) => {
            tell_report(alloc, source, parts.source, &mut streams.errors);
            let units = match units_of_run(alloc, plan, parts.deck, texts) {
                Ok(units) => units,
                Err(fault) => return Err(fault),
            };
            let (options, subject) = (options_of(plan), subject_of(&plan.subject).as_bytes());
            run_printed(alloc, program, units, options, subject, &mut streams.out)
        }
    }
}

/// The run of a plan on its texts. First it is looked whether the files of its deck and its map may be replaced. Then the source is read, at most 41,943,041 bytes, and then what its units begin with, at most 33,554,433 of each
/// text, all of them before the first byte is written.
pub(crate) fn run_texts<O: Opener, R: In, W: Out, E: Out>(
    files: &mut O,
    alloc: Global,
    plan: &RunPlan,
    texts: Texts<O::Reader>,
    streams: &mut Streams<R, W, E>,
) -> u8
    requires fresh { AreFresh O.Reader.failed texts }
    requires out_count { W.failed streams.old.out < 2 ^ 64 - 1 }
    ensures done { (all : Files) (given : Given) → O.holds files.old ≡ Some all → HoldTexts O.Reader.rest texts given
        → PrintsOn all plan.now given result
        (seen R.rest W.told (O.refusal files.old) streams.old) (seen R.rest W.told (O.refusal files.new) streams.new) }
    ensures created { Creates (saved_names plan.now) result (O.created files.old) (O.created files.new) }
    ensures saved { (given : Given) → HoldTexts O.Reader.rest texts given → Saves (run_output [] plan.now given) (run_draws plan.now given)
        (option_map string_bytes plan.now.keep) (option_map string_bytes plan.now.svg) result (O.saved files.old) (O.saved files.new) }
    ensures unread { (O.asked files.new ≡ O.asked files.old) × (streams.new.input ≡ streams.old.input) }
    ensures range { result ≤ 3 }
    ensures well { result ≢ 2 → (W.failed streams.new.out ≡ W.failed streams.old.out) × (O.refusal files.new ≡ O.refusal files.old) }
{
    if let Some(name) = taken(files, alloc, plan) {
        let why = Refused::Fault(Unsaved::Taken);
        tell(unsaved_line(alloc, name, why), &mut streams.errors);
        return FAILED;
    }
    let mut texts = texts;
    let printed = print_texts(alloc, plan, &mut texts, streams);
    let others = [
        (plan.devices.as_deref(), texts.deck.failures()),
        (plan.cards.as_deref(), texts.cards.failures()),
        (plan.typewriter.as_deref(), texts.typewriter.failures()),
    ];
    let file = unread(plan.source.as_str(), &others);
    tell_halt(alloc, plan, &printed, &mut streams.errors);
    let status = print_status(alloc, plan, &printed, file, &mut streams.errors);
    save_files(files, alloc, plan, &printed, status, &mut streams.errors)
}

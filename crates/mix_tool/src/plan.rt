//! A plan is done: its files are opened, and the run is made on their texts.

ghost use Rattle.std.specs.Prelude.{◌≡◌, ◌≢◌, ◌<◌, ◌≤◌, ◌-◌, ◌^◌, ℕ, List, Ok, Err, Some, true, false};
ghost use Rattle.rpc_stream.specs.declared.broken.Broken.{Broken};
ghost use Rattle.rpc_stream.specs.declared.broken.Broken.TheVariants as broken;
ghost use Rattle.mix_dap.specs.Dialogue.{DialogueAs, TellsBroken};
ghost use Rattle.mix_stream.specs.Stream.{CountsFailure};
ghost use Rattle.mix_lsp.specs.Served.{ServedAs};
ghost use Rattle.mix_run.specs.Opening.{Asks, Files, asked_of, missing_of};
ghost use Rattle.mix_tool.specs.Ending.{Creates};
ghost use Rattle.mix_tool.specs.Run.{Given};
ghost use Rattle.mix_tool.specs.Plan.{AreFresh, HoldTexts, DoneAfter, IsDone, RunsOn, SavesOn, creates_of, files_of, given_of, adapts, hears_client, is_quiet, names_of, reads_input, seen, sources_of, speaks};

use crate::asked::names_in;
use crate::check::check_files;
use crate::debug::debug_on;
use crate::ending::{status, tell_not_opened};
use crate::run::run_texts;
use crate::texts::{Texts, open_texts};
use mix_dap::{Library, serve_from};
use mix_plan::Plan;
use mix_run::{Opener, Streams, run_bundle, run_list, run_typeset};
use mix_stream::{In, Out};
use std::alloc::Global;

// The run of a plan that hears no client on its texts; a check opens its sources.
fn run_on<O: Opener, R: In, W: Out, E: Out>(
    files: &mut O,
    alloc: Global,
    plan: &Plan,
    texts: Texts<O::Reader>,
    streams: &mut Streams<R, W, E>,
) -> u8
    requires fresh { AreFresh O.Reader.failed texts }
    requires clientless { hears_client plan.now ≡ false }
    requires input_count { R.failed streams.old.input < 2 ^ 64 - 1 }
    requires out_count { W.failed streams.old.out < 2 ^ 64 - 1 }
    ensures all_saved { (names : List (List ℕ)) → creates_of plan.now ≡ Some names → result ≢ 2 → O.refusal files.new ≡ O.refusal files.old }
    ensures opened { (all : Files) → O.holds files.old ≡ Some all → Asks (O.asked files.old) (O.asked files.new) (asked_of all (sources_of plan.now)) }
    ensures done { (all : Files) (given : Given) → O.holds files.old ≡ Some all → HoldTexts O.Reader.rest texts given
        → DoneAfter (missing_of all (sources_of plan.now))
        (RunsOn all plan.now given streams.old.talker result (seen R.rest W.told (O.refusal files.old) streams.old) (seen R.rest W.told (O.refusal files.new) streams.new))
        result (seen R.rest W.told (O.refusal files.old) streams.old) (seen R.rest W.told (O.refusal files.new) streams.new) }
    ensures created { (names : List (List ℕ)) → creates_of plan.now ≡ Some names → Creates names result (O.created files.old) (O.created files.new) }
    ensures saved { (given : Given) → HoldTexts O.Reader.rest texts given → SavesOn plan.now given result (O.saved files.old) (O.saved files.new) }
    ensures input { reads_input plan.now ≡ false → streams.new.input ≡ streams.old.input }
    ensures range { result ≤ 3 }
    ensures written { result ≢ 2 → W.failed streams.new.out ≡ W.failed streams.old.out }
    ensures quiet { is_quiet plan.now ≡ true → result ≢ 2 → streams.new.errors ≡ streams.old.errors }
{
    match plan {
        Plan::Bundle => {
            let outcome = run_bundle(alloc, &mut streams.input, &mut streams.out);
            status(alloc, outcome, None, &mut streams.errors)
        }
        Plan::List(source) => {
            let mut texts = texts;
            let outcome = run_list(alloc, &mut texts.source, &mut streams.out);
            status(alloc, outcome, Some(source), &mut streams.errors)
        }
        Plan::Typeset(source) => {
            let mut texts = texts;
            let outcome = run_typeset(alloc, &mut texts.source, &mut streams.out);
            status(alloc, outcome, Some(source), &mut streams.errors)
        }
        Plan::Check { sources, json } => check_files(files, alloc, sources, *json, streams),
        Plan::Debug(session) => debug_on(files, alloc, session, texts, streams),
        Plan::Run(run) => run_texts(files, alloc, run, texts, streams),
        Plan::Dap | Plan::Lsp => unreachable!(),
    }
}

/// Does what a plan asks for: a bundle or a talk from the input, a listing, a check, a run or a session of files, or what a client of the debug adapter or the
/// language server asks for. All go to the output. The files of a plan are opened before any is read, in the order source, deck, cards, typewriter or source, deck, script; without a deck all
/// units are empty, but a run takes that of its bundle. Each source of a check is read before the next is opened, and nothing is written before all were read.
///
/// The status is that of the run. It is 2 where the tool itself fails; then that fault stands on the error output, as
/// `mixrev: T2 read failed: NAME`, or for the first file that cannot be opened `mixrev: T4 not opened: NAME: REASON`. A write there that
/// fails changes no status. A run writes what its units hold at the end, and its map, each to the file that is named for it; if that can't be created or written, T4 or
/// T3 says so, and the status is 2. Of a talk the prompts and the help stand there too, of a run where it came to if not to a halt, and of both a refused source
/// with its line and a mark.
pub fn run_plan<O: Opener + Library, C: In, R: In, W: Out, E: Out>(
    files: &mut O,
    alloc: Global,
    plan: &Plan,
    client: &mut C,
    streams: &mut Streams<R, W, E>,
) -> u8
    requires client_count { C.failed client.old < 2 ^ 64 - 1 }
    requires input_count { R.failed streams.old.input < 2 ^ 64 - 1 }
    requires out_count { W.failed streams.old.out < 2 ^ 64 - 1 }
    requires errors_count { E.failed streams.old.errors < 2 ^ 64 - 1 }

    // The files of the plan are opened, each in its turn, up to the first that can't be; no other is.
    ensures opened { (all : Files) → O.holds files.old ≡ Some all
        → Asks (O.asked files.old) (O.asked files.new) (asked_of all (files_of plan.now)) }

    // That one is told, or else the run of the plan is made on the texts of its files, and its status is answered.
    ensures done { (all : Files) → O.holds files.old ≡ Some all
        → IsDone all plan.now streams.old.talker result (seen R.rest W.told (O.refusal files.old) streams.old)
        (seen R.rest W.told (O.refusal files.new) streams.new) }

    // A run creates the files that its units are kept and its map is drawn in, when it has come to its end, and no other.
    ensures created { (names : List (List ℕ)) → creates_of plan.now ≡ Some names → Creates names result (O.created files.old) (O.created files.new) }

    // There it saves the deck of what its units hold, and its map.
    ensures saved { (all : Files) → O.holds files.old ≡ Some all
        → SavesOn plan.now (given_of all (names_of plan.now)) result (O.saved files.old) (O.saved files.new) }

    // A run whose status is not 2 has saved both. What prevents that is told, by `done`.
    ensures all_saved { (names : List (List ℕ)) → creates_of plan.now ≡ Some names → result ≢ 2 → O.refusal files.new ≡ O.refusal files.old }

    // Of a plan whose texts are all files the input is not read.
    ensures input { reads_input plan.now ≡ false → streams.new.input ≡ streams.old.input }

    // A client is heard by the debug adapter and the language server alone.
    ensures client { hears_client plan.now ≡ false → client.new ≡ client.old }

    // It is served to the end of a dialogue, status 0; or status 2, and a line tells what broke the dialogue off.
    ensures served { adapts plan.now ≡ true → result ≢ 2
        → (result ≡ 0) × DialogueAs (Ok tt) (C.rest client.old) (C.rest client.new) (W.told streams.old.out) (W.told streams.new.out)
        × (C.failed client.new ≡ C.failed client.old) }
    ensures broken { adapts plan.now ≡ true → result ≡ 2
        → (why : Broken) × DialogueAs (Err why) (C.rest client.old) (C.rest client.new) (W.told streams.old.out) (W.told streams.new.out)
        × CountsFailure (why ≡ broken.Read) (C.failed client.old) (C.failed client.new)
        × CountsFailure (why ≡ broken.Write) (W.failed streams.old.out) (W.failed streams.new.out)
        × (E.failed streams.new.errors ≡ E.failed streams.old.errors → TellsBroken why (E.told streams.old.errors) (E.told streams.new.errors)) }

    // A client of the language server in the same way; its `exit` may ask for status 1.
    ensures spoken { speaks plan.now ≡ true → result ≢ 2
        → ServedAs (Ok result) (C.rest client.old) (C.rest client.new) (W.told streams.old.out) (W.told streams.new.out)
        × (C.failed client.new ≡ C.failed client.old) }
    ensures speechless { speaks plan.now ≡ true → result ≡ 2
        → (why : Broken) × ServedAs (Err why) (C.rest client.old) (C.rest client.new) (W.told streams.old.out) (W.told streams.new.out)
        × CountsFailure (why ≡ broken.Read) (C.failed client.old) (C.failed client.new)
        × CountsFailure (why ≡ broken.Write) (W.failed streams.old.out) (W.failed streams.new.out)
        × (E.failed streams.new.errors ≡ E.failed streams.old.errors → TellsBroken why (E.told streams.old.errors) (E.told streams.new.errors)) }

    // A run that ends well wrote all that it had to, and where nothing is told beside, nothing on the error output.
    ensures range { result ≤ 3 }
    ensures written { result ≢ 2 → W.failed streams.new.out ≡ W.failed streams.old.out }
    ensures quiet { is_quiet plan.now ≡ true → result ≢ 2 → streams.new.errors ≡ streams.old.errors }
{
    match plan {
        Plan::Dap => {
            let (out, errors) = (&mut streams.out, &mut streams.errors);
            serve_from(files, alloc, client, out, errors)
        }
        Plan::Lsp => {
            let (out, errors) = (&mut streams.out, &mut streams.errors);
            mix_lsp::serve(alloc, client, out, errors)
        }
        _ => match open_texts(files, names_in(plan)) {
            Ok(texts) => run_on(files, alloc, plan, texts, streams),
            Err(fault) => tell_not_opened(alloc, fault.name, fault.reason, &mut streams.errors),
        },
    }
}

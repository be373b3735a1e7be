//! What the units hold at the end of a run, and its map, each saved in a file.

ghost use Rattle.std.specs.Prelude.{◌≡◌, ◌≢◌, ◌≤◌, IfOk, IfSome, Some, option_map, string_bytes};
ghost use Rattle.mix_run.specs.Opening.{Asks, Files, named, noted, refused_by};
ghost use Rattle.mix_tool.specs.Ending.{EndsWith, IsRefusable, KeepsOrNot, answer_of, saved_after, saved_as, saved_by};
ghost use Rattle.mix_tool.specs.Plan.{saved_names, taken_name, taken_of};

use crate::ending::{not_opened_line, tell};
use mix_cli::FAILED;
use mix_plan::RunPlan;
use mix_refused::{Memory, Refused};
use mix_run::{Opener, PrintAnswer, Printed, Replaces, ToolFault, Unsaved};
use mix_stream::Out;
use std::alloc::{AllocError, Global};

/// What prevents that a text is saved.
pub(crate) fn unsaved_line(
    alloc: Global,
    name: &str,
    refused: Refused<Unsaved>,
) -> Result<String, AllocError> {
    match refused {
        Refused::Memory => Err(AllocError),
        Refused::Fault(Unsaved::NotOpened(reason)) => not_opened_line(alloc, name, reason),
        Refused::Fault(Unsaved::NotWritten(reason)) => {
            let (fault, reason) = (ToolFault::Write, reason.text());
            format!(in alloc; "mixrev: {fault}: {name}{reason}\n")
        }
        Refused::Fault(Unsaved::Taken) => {
            format!(in alloc; "mixrev: T8 not replaced: {name}: it holds something else\n")
        }
    }
}

// The name of a file, if one is named and holds what may not be replaced.
fn taken_name<'n, O: Opener>(
    files: &O,
    alloc: Global,
    name: &'n Option<String>,
    over: Replaces,
) -> Result<Option<&'n str>, Memory>
    ensures { (all : Files) → O.holds files.now ≡ Some all
        → IfOk result (λ taken. option_map (λ n. n.now) taken ≡ taken_name all over (option_map string_bytes name.now)) }
{
    match name {
        None => Ok(None),
        Some(name) => {
            let may = files.may_replace(alloc, name.as_bytes(), over)?;
            Ok(if may { None } else { Some(name.as_str()) })
        }
    }
}

/// The first file of a run's deck and its map that holds what may not be replaced; none where memory is refused, and a save looks again.
pub(crate) fn taken<'p, O: Opener>(files: &O, alloc: Global, plan: &'p RunPlan) -> Option<&'p str>
    ensures { (all : Files) → O.holds files.now ≡ Some all → IfSome result (λ name. taken_of all plan.now ≡ Some name.now) }
{
    match taken_name(files, alloc, &plan.keep, Replaces::Deck) {
        Ok(None) => match taken_name(files, alloc, &plan.svg, Replaces::Picture) {
            Ok(taken) => taken,
            Err(Memory) => None,
        },
        Ok(taken) => taken,
        Err(Memory) => None,
    }
}

// Saves a text in a file, if one is named for it, in place of what it may hold. What prevents that is told.
fn save_named<O: Opener, E: Out>(
    files: &mut O,
    alloc: Global,
    name: &Option<String>,
    text: &[u8],
    over: Replaces,
    errors: &mut E,
) -> Result<(), Refused<Unsaved>>
    ensures created { Asks (O.created files.old) (O.created files.new) (named (option_map string_bytes name.now)) }
    ensures saved { O.saved files.new ≡ noted (O.saved files.old) (saved_as over (option_map string_bytes name.now) text.now) }
    ensures asked { O.asked files.new ≡ O.asked files.old }
    ensures refused { O.refusal files.new ≡ refused_by (O.refusal files.old) result }
    ensures refusable { IsRefusable (option_map string_bytes name.now) result }
{
    match name {
        None => Ok(()),
        Some(name) => match files.save(alloc, name.as_bytes(), text, over) {
            Ok(()) => Ok(()),
            Err(refused) => {
                let why = refused;
                tell(unsaved_line(alloc, name, why), errors);
                Err(refused)
            }
        },
    }
}

/// Saves the deck and the map of a run that has come to its end, each in a file, if one is named
/// for it; the map is saved even if the deck is not. The status is that of the run, or 2 if one of
/// them is not saved, which is told.
pub(crate) fn save_files<O: Opener, E: Out>(
    files: &mut O,
    alloc: Global,
    plan: &RunPlan,
    printed: &Result<Printed, ToolFault>,
    status: u8,
    errors: &mut E,
) -> u8
    ensures created { Asks (O.created files.old) (O.created files.new) (saved_after (saved_names plan.now) (answer_of printed.now)) }
    ensures saved { O.saved files.new
        ≡ noted (O.saved files.old) (saved_by (option_map string_bytes plan.now.keep) (option_map string_bytes plan.now.svg) printed.now) }
    ensures asked { O.asked files.new ≡ O.asked files.old }
    ensures status { EndsWith (saved_after (saved_names plan.now) (answer_of printed.now)) status result }
    ensures kept { KeepsOrNot (answer_of printed.now) (option_map string_bytes plan.now.keep) (option_map string_bytes plan.now.svg) status result
        (O.refusal files.old) (O.refusal files.new) }
    ensures range { status ≤ 3 → result ≤ 3 }
    ensures well { result ≢ 2 → (result ≡ status) × (O.refusal files.new ≡ O.refusal files.old) }
{
    match printed {
        Ok(printed) => match printed.answer {
            PrintAnswer::Ran(_) => {
                let (deck, picture) = (Replaces::Deck, Replaces::Picture);
                let kept = save_named(files, alloc, &plan.keep, &printed.deck, deck, errors);
                let drawn = save_named(files, alloc, &plan.svg, &printed.map, picture, errors);
                match (kept, drawn) {
                    (Ok(()), Ok(())) => status,
                    (Err(_), _) | (_, Err(_)) => FAILED,
                }
            }
            PrintAnswer::Refused(_) => status,
            PrintAnswer::NoTable(_) => status,
        },
        Err(_) => status,
    }
}

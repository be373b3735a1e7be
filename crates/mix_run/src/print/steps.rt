//! Steps without history, and what they print.
ghost use Rattle.std.specs.Prelude.{◌≡◌, ◌<◌, ◌≤◌, ◌+◌, ◌-◌, ◌^◌, [], IfOk};
ghost use Rattle.mix_machine.specs.declared.old.Change.TheVariants.{Step};
ghost use Rattle.mix_machine.specs.Transfers.{conflict_of};
ghost use Rattle.mix_run.specs.Prelude.{counted, steps_of, stops, Writes};
ghost use Rattle.mix_run.specs.PrintSteps.{HasCounts, StepMakes, StepNotes, StepPrints, StepStops, is_made};

use crate::fault::ToolFault;
use crate::print::options::PrintOptions;
use crate::print::plain::plain_steps;
use crate::print::rows::{RowCounts, add_new, row_counts};
use crate::print::trace::{quiet_step, step_with_line};
use crate::print::watch::{Conflicts, Watch, conflict_at, stops};
use mix_machine::{Change, Conflict, MixFault, Old, World};
use mix_refused::Memory;
use mix_stream::{Out, write_all};
use std::alloc::Global;
use undo_core::Kept;

/// Why a run ended: the last step was a halt, one more step is a fault, or, of a strict run, conflicts with a transfer under way, or as many steps
/// were done as were allowed.
#[derive(Clone, Copy)]
pub enum RunEnd {
    Halted,
    Faulted(MixFault),
    Conflicting(Conflict),
    UsedUp,
}

/// Why some steps ended, and which of them conflict with a transfer under way.
#[derive(Clone, Copy)]
pub(super) struct Stepped {
    pub(super) end: RunEnd,
    pub(super) conflicts: Conflicts,
}

impl Stepped {
    /// The end of steps of which no conflict is looked for.
    pub(super) fn alone(end: RunEnd) -> Stepped
        ensures end { result.end ≡ end }
        ensures conflicts { result.conflicts ≡ counted [] }
    {
        Stepped {
            end,
            conflicts: Conflicts {
                count: 0,
                first: None,
            },
        }
    }
}

// What is kept from one step to the next: room for what a step overwrites, how many rows each unit has, and one transfer a unit at most.
#[derive(Drop)]
struct Records {
    kept: Kept<Old>,
    rows: RowCounts,
    watch: Watch,
}

/// Does steps, up to a halt or a fault, or, if they are strict, up to before the first that conflicts, and so many at most, and writes what each prints
/// as soon as it is done, and before that its line, if they are traced. It keeps nothing of the steps, so many take no more memory than few.
pub(super) fn print_steps<W: Out>(
    alloc: Global,
    world: &mut World,
    options: PrintOptions,
    out: &mut W,
) -> Result<Stepped, ToolFault>
    requires { W.failed out.old < 2 ^ 64 - 1 }
    ensures { let run = steps_of options world.old in
        Writes run.bytes (λ s. (s.end ≡ run.end) × (s.conflicts ≡ counted run.met) × (world.new ≡ run.world)) result
        (W.told out.old) (W.failed out.old) (W.told out.new) (W.failed out.new) }
{
    let watch = Watch::new();
    let mut records = Records {
        kept: Kept::new(alloc),
        rows: row_counts(world),
        watch,
    };
    // (most steps are plain, and are done by themselves)
    let mut left = plain_steps(alloc, world, &records.watch, options, options.steps)?;
    while left > 0 {
        let number = options.steps - left + 1;
        let mut text = Vec::new(alloc);
        let end = print_step(alloc, world, &mut records, number, options, &mut text)?;
        write_all(out, &text)?;
        match end {
            None => left = plain_steps(alloc, world, &records.watch, options, left - 1)?,
            Some(end) => {
                return Ok(Stepped {
                    end,
                    conflicts: records.watch.conflicts,
                });
            }
        }
    }
    Ok(Stepped {
        end: RunEnd::UsedUp,
        conflicts: records.watch.conflicts,
    })
}

// The step of a number, its line, if it is traced, and what it prints; its end, if it ends the run.
#[inline(never)]
fn print_step(
    alloc: Global,
    world: &mut World,
    records: &mut Records,
    number: u64,
    options: PrintOptions,
    text: &mut Vec<u8>,
) -> Result<Option<RunEnd>, Memory>
    requires before { HasCounts world.old records.old.rows }
    requires room { records.old.watch.conflicts.count < 2 ^ 64 - 1 }
    ensures before { IfOk result (λ _. HasCounts world.new records.new.rows) }
    ensures room { IfOk result (λ _. records.new.watch.conflicts.count ≤ records.old.watch.conflicts.count + 1) }
    ensures printed { IfOk result (λ end. StepPrints (stops options.strict (conflict_of records.old.watch.transfers world.old Step)) options number
        world.old world.new end text.old.items text.new.items) }
    ensures noted { IfOk result (λ end. StepNotes world.old records.old.watch.transfers records.old.watch.conflicts
        records.new.watch.transfers records.new.watch.conflicts end) }
{
    // (a copy, since the checker covers no struct that is passed by value twice)
    let conflict = records.watch.conflict(world);
    let given = conflict;
    let stop = stops(options.strict, given);
    match stop {
        None => {}
        Some(conflict) => {
            let end = end_before(alloc, world, conflict)?;
            return Ok(Some(end));
        }
    }
    let made = world.transfer_by(Change::Step);
    let found = conflict_at(world, conflict);
    let end = made_step(alloc, world, records, number, options, text)?;
    let given = end;
    let went = is_made(given);
    if went {
        records.watch.note(made, found);
        Ok(end)
    } else {
        Ok(end)
    }
}

// The end of a strict run before a step that conflicts; its fault, if it is one. (It is tried on a second machine.)
fn end_before(alloc: Global, world: &World, conflict: Conflict) -> Result<RunEnd, Memory>
    ensures { IfOk result (λ end. StepStops world.now world.now end conflict) }
{
    let mut kept = Kept::new(alloc);
    let mut other = world.copied(alloc)?;
    match quiet_step(&mut other, &mut kept)? {
        None => {}
        Some(fault) => return Ok(RunEnd::Faulted(fault)),
    }
    Ok(RunEnd::Conflicting(conflict))
}

// Whether a step with this end was made: it is no fault.
fn is_made(end: Option<RunEnd>) -> bool
    ensures { result ≡ is_made end }
{
    match end {
        None | Some(RunEnd::Halted) => true,
        Some(RunEnd::Faulted(_)) | Some(RunEnd::Conflicting(_)) | Some(RunEnd::UsedUp) => false,
    }
}

// A step, its line, if it is traced, and what it prints; its end, if it is a fault or a halt. What it overwrote is forgotten before the next one.
#[inline(always)]
fn made_step(
    alloc: Global,
    world: &mut World,
    records: &mut Records,
    number: u64,
    options: PrintOptions,
    text: &mut Vec<u8>,
) -> Result<Option<RunEnd>, Memory>
    requires { HasCounts world.old records.old.rows }
    ensures before { IfOk result (λ _. HasCounts world.new records.new.rows) }
    ensures made { IfOk result (λ end. StepMakes options number world.old world.new end text.old.items text.new.items) }
    ensures watch { records.new.watch ≡ records.old.watch }
{
    let halts = world.next_is_halt();
    match step_with_line(alloc, world, &mut records.kept, number, options.trace, text)? {
        None => {}
        Some(fault) => return Ok(Some(RunEnd::Faulted(fault))),
    }
    add_new(alloc, world, &mut records.rows, options.units, text)?;
    if halts {
        Ok(Some(RunEnd::Halted))
    } else {
        Ok(None)
    }
}

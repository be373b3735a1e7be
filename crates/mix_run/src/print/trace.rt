//! One step of a run, and its line, if the run is traced.
ghost use Rattle.std.specs.Prelude.{◌≡◌, ◌++◌, IfOk, OnOk, true};
ghost use Rattle.mix_run.specs.PrintSteps.{HasStepped, line_bytes};

use mix_machine::{Change, MixFault, Old, World};
use mix_refused::Memory;
use mix_session::change_line;
use std::alloc::Global;
use undo_core::{Kept, Refused, Undo};

/// The step of a number, and its line, if it is traced; its fault, if it is one. (Only a step that is traced holds a second machine.)
#[inline(always)]
pub(super) fn step_with_line(
    alloc: Global,
    world: &mut World,
    kept: &mut Kept<Old>,
    number: u64,
    trace: bool,
    text: &mut Vec<u8>,
) -> Result<Option<MixFault>, Memory>
    ensures stepped { IfOk result (HasStepped world.old world.new) }
    ensures line { OnOk result (text.new.items ≡ text.old.items ++ line_bytes trace number world.old) }
{
    if trace {
        traced_step(alloc, world, kept, number, text)
    } else {
        quiet_step(world, kept)
    }
}

// A step and its line, which is made from a copy of the machine before it.
#[inline(never)]
fn traced_step(
    alloc: Global,
    world: &mut World,
    kept: &mut Kept<Old>,
    number: u64,
    text: &mut Vec<u8>,
) -> Result<Option<MixFault>, Memory>
    ensures stepped { IfOk result (HasStepped world.old world.new) }
    ensures line { OnOk result (text.new.items ≡ text.old.items ++ line_bytes true number world.old) }
{
    let before = world.copied(alloc)?;
    match quiet_step(world, kept)? {
        None => {}
        Some(fault) => return Ok(Some(fault)),
    }
    let line = change_line(alloc, number, &Change::Step, &before, world)?;
    text.extend_from_slice(&line)?;
    Ok(None)
}

/// A step; its fault, if it is one. What it overwrote is forgotten before the next one.
#[inline(always)]
pub(super) fn quiet_step(
    world: &mut World,
    kept: &mut Kept<Old>,
) -> Result<Option<MixFault>, Memory>
    ensures { IfOk result (HasStepped world.old world.new) }
{
    kept.clear();
    match world.apply(&Change::Step, kept) {
        Ok(()) => Ok(None),
        Err(Refused::Fault(fault)) => Ok(Some(fault)),
        Err(Refused::Memory) => Err(Memory),
    }
}

//! What a change is: a step with its instruction, or a command.

use crate::view::decoded::put_instruction;
use dap_asked::cell_at;
use mix_machine::{Change, Reg, Word, World};
use mix_refused::{Memory, Refused};
use mix_word::{Decoded, JumpKind, Operation, decode};
use rpc_message::Fields;
use std::alloc::Global;
use undo_core::{Kept, Undo};

/// What a change is: a step, or a command by the word with which it begins.
pub(crate) fn change_kind(change: Change) -> &'static str {
    match change {
        Change::Step => "step",
        Change::SetReg(..)
        | Change::SetCell(..)
        | Change::SetLoc(_)
        | Change::SetOver(_)
        | Change::SetCmp(_) => "set",
        Change::Break(_) => "break",
        Change::Clear(_) => "clear",
    }
}

/// Of a step the instruction that it does, and of a jump whether it is taken.
pub(crate) fn put_done(
    alloc: Global,
    body: &mut Fields,
    change: Change,
    before: &World,
) -> Result<(), Memory> {
    match change {
        Change::Step => {
            put_instruction_here(alloc, body, before)?;
            put_taken(alloc, body, before)
        }
        _ => Ok(()),
    }
}

/// The instruction at the location, if its C and F name an operation.
pub(crate) fn put_instruction_here(
    alloc: Global,
    body: &mut Fields,
    world: &World,
) -> Result<(), Memory> {
    match cell_at(world) {
        Some(place) => put_instruction(alloc, body, world, world.cell(place)),
        None => Ok(()),
    }
}

// A jump that is taken sets rJ; JSJ, which is always taken, alone does not.
fn put_taken(alloc: Global, body: &mut Fields, before: &World) -> Result<(), Memory> {
    let Some(place) = cell_at(before) else {
        return Ok(());
    };
    let parts = before.cell(place).parts();
    match decode(parts.code, parts.f) {
        Decoded::Named(Operation::Jump(JumpKind::Jsj)) => body.flag("taken", true),
        Decoded::Named(
            Operation::Jump(_) | Operation::RegisterJump(..) | Operation::Jbus | Operation::Jred,
        ) => body.flag("taken", sets_j(alloc, before)?),
        _ => Ok(()),
    }
}

// Whether a step sets rJ to a location after the first: it is +0 before.
fn sets_j(alloc: Global, before: &World) -> Result<bool, Memory> {
    let mut world = before.copied(alloc)?;
    let mut kept = Kept::new(alloc);
    for change in [Change::SetReg(Reg::J, Word::ZERO), Change::Step] {
        match world.apply(&change, &mut kept) {
            Ok(()) => {}
            Err(Refused::Fault(_)) => return Ok(false),
            Err(Refused::Memory) => return Err(Memory),
        }
    }
    Ok(world.register(Reg::J).magnitude() != 0)
}

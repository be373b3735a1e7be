//! Step over: how many steps an instruction takes with the subroutine that it calls (1.4.1).

ghost use Rattle.std.specs.Prelude.{◌≡◌, ◌<◌, ◌≤◌, ◌+◌, ◌-◌, ◌^◌, IfOk};
ghost use Rattle.mix_session.specs.Prelude.{world_of};
ghost use Rattle.mix_session.specs.Over.{begins_subroutine, is_call, calls_after, steps_over};

use crate::session::Session;
use mix_machine::{Change, Place, Reg, World};
use mix_refused::{Memory, Refused};
use std::alloc::Global;
use undo_core::{Kept, Undo};

impl Session {
    /// How many steps an instruction takes with the subroutine that it calls, if it calls one: up to
    /// the step after which each call of it has come back, or a HLT or a fault, and at most so many.
    /// Nothing is altered: the steps are done on a copy. Only out of memory refuses it.
    pub fn steps_over(&self, alloc: Global, most: u32) -> Result<u32, Memory>
        requires { 0 < most }
        ensures { IfOk result (λ n. n ≡ steps_over (world_of self.now.timeline) most) }
    {
        count_over(alloc, self.world(), most)
    }
}

// The number of those steps from a machine on.
fn count_over(alloc: Global, start: &World, most: u32) -> Result<u32, Memory>
    requires { 0 < most }
    ensures { IfOk result (λ n. n ≡ steps_over start.now most) }
{
    let mut world = start.copied(alloc)?;
    let from = world.loc();
    let mut kept = Kept::new(alloc);
    let (mut done, mut calls) = (0, 0);
    while done + 1 < most {
        if world.next_is_halt() {
            return Ok(done + 1);
        }
        let at = world.loc();
        kept.clear();
        match world.apply(&Change::Step, &mut kept) {
            Ok(()) => {}
            Err(Refused::Fault(_)) => return Ok(done + 1),
            Err(Refused::Memory) => return Err(Memory),
        }
        calls = calls_after(from, at, &world, calls);
        if calls == 0 {
            return Ok(done + 1);
        }
        done += 1;
    }
    Ok(most)
}

// How many calls of the instruction at `from` have not come back, after a step at a location.
fn calls_after(from: u16, at: u16, world: &World, calls: u32) -> u32
    requires from { from < 2 ^ 15 }
    requires few { calls < 2 ^ 32 - 1 }
    ensures is { result ≡ calls_after from at world.now calls }
    ensures few { result ≤ calls + 1 }
{
    if at == from {
        if is_call(at, world) { calls + 1 } else { calls }
    } else if world.loc() == from + 1 {
        calls.saturating_sub(1)
    } else {
        calls
    }
}

// Whether a step of the instruction at a location was a call, by the machine after it.
fn is_call(at: u16, world: &World) -> bool
    requires { at < 2 ^ 15 }
    ensures { result ≡ is_call at world.now }
{
    world.loc() != at + 1
        && world.register(Reg::J).magnitude() == u32::from(at + 1)
        && begins_subroutine(world)
}

// Whether the next instruction is STJ.
fn begins_subroutine(world: &World) -> bool
    ensures { result ≡ begins_subroutine world.now }
{
    match Place::of(world.loc()) {
        Some(place) => world.cell(place).byte(5) == 32,
        None => false,
    }
}

//! The end of a step: its time, and its plan carried out.
ghost use Rattle.std.specs.Prelude.{◌≡◌, ◌<◌, ◌+◌, ◌^◌, nat_lt};
ghost use Rattle.mix_word.specs.declared.decoding.Decoded.TheVariants.{Named};
ghost use Rattle.mix_machine.specs.Prelude.{last_clock, applies, use_of, start_of, transfer_start, step_or_fault, Carried};
ghost use Rattle.mix_machine.specs.law.Stages.{of_address, fault_among, outcome_of, timed_or_fault};

use crate::decode::Arguments;
use crate::fault::MixFault;
use crate::old::Old;
use crate::plan::{Effects, Outcome, Plan};
use crate::units::UnitNo;
use crate::world::World;
use mix_word::{Operation, UnitUse, Uses};
use undo_core::{Kept, Refused};

const MAX_CLOCK: u64 = 1_000_000_000_000_000_000;

/// The most that one change keeps.
pub(crate) const MAX_KEPT: usize = 104;

impl World {
    /// Ends a step of an operation, by what the operation does, or its first fault, and keeps what it overwrites.
    #[inline(always)]
    pub(crate) fn finished(
        &mut self,
        operation: Operation,
        outcome: Outcome,
        a: Arguments,
        kept: &mut Kept<Old>,
    ) -> Result<(), Refused<MixFault>>
        requires cell { self.old.loc < 4000 }
        requires f { a.f < 64 }
        requires served { fault_among (applies (Named operation) self.old a) of_address ≡ None }
        requires outcome { outcome ≡ outcome_of operation self.old a }
        ensures { Carried (step_or_fault (Named operation) self.old a) self.old self.new kept.old.items kept.new.items result }
    {
        // (the proof knows the ranges of the machine where a field of it is named)
        let _ = &self.loc;
        // (read before the room is made, after which the compiler would read them again)
        let from = self.anchor();
        match self.plan_of_served(operation, outcome, a) {
            Err(fault) => Err(Refused::Fault(fault)),
            Ok(plan) => {
                kept.reserve(MAX_KEPT)?;
                self.perform(plan, from, kept)?;
                Ok(())
            }
        }
    }

    /// The plan of an operation that its instruction allows: its own faults, and then the clock.
    #[inline(always)]
    pub(crate) fn plan_of_served(
        &self,
        operation: Operation,
        outcome: Outcome,
        a: Arguments,
    ) -> Result<Plan, MixFault>
        requires cell { self.now.loc < 4000 }
        requires served { fault_among (applies (Named operation) self.now a) of_address ≡ None }
        requires outcome { outcome ≡ outcome_of operation self.now a }
        ensures { result ≡ step_or_fault (Named operation) self.now a }
    {
        match outcome {
            Err(fault) => Err(fault),
            Ok(effects) => self.timed(operation, a, effects),
        }
    }

    // The plan of what an operation does, if the clock can show its time.
    #[inline(always)]
    fn timed(&self, operation: Operation, a: Arguments, effects: Effects) -> Result<Plan, MixFault>
        requires cell { self.now.loc < 4000 }
        ensures { result ≡ timed_or_fault operation self.now a effects }
    {
        let start = self.start(operation, a.f);
        let time = operation.time(a.f);
        if is_past_last(start, time) {
            return Err(MixFault::ClockFull);
        }
        let clock = start + u64::from(time);
        let loc = if effects.jumps {
            a.m.magnitude()
        } else {
            self.loc + 1
        };
        Ok(Plan::Step(effects.writes, loc, clock))
    }

    // The clock at which a step begins: of IN, OUT and IOC when the last transfer of their unit is over.
    #[inline(always)]
    fn start(&self, operation: Operation, f: u8) -> u64
        ensures is { result ≡ start_of (use_of operation) self.now f }
        ensures bound { result < 2 ^ 63 }
    {
        match operation.uses() {
            Uses::Unit(UnitUse::Controls | UnitUse::Reads | UnitUse::Writes) => {
                self.transfer_start(f)
            }
            Uses::Unit(UnitUse::Looks) | Uses::Nothing | Uses::FAlone => self.clock,
            Uses::Address | Uses::Count | Uses::Operand | Uses::Cells => self.clock,
        }
    }

    // The clock at which a transfer of a unit begins.
    fn transfer_start(&self, f: u8) -> u64
        ensures is { result ≡ transfer_start self.now f }
        ensures bound { result < 2 ^ 63 }
    {
        match UnitNo::of(f) {
            None => self.clock,
            Some(n) => self.start_at(n),
        }
    }
}

// Whether the clock can't show a time after its start. (So the compiler knows of the start that it is no large number.)
#[inline(always)]
fn is_past_last(start: u64, time: u16) -> bool
    ensures { result ≡ nat_lt last_clock (start + time) }
{
    start > MAX_CLOCK - u64::from(time)
}

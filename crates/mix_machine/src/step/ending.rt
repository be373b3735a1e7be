//! How a step ends: what it overwrites is kept, or it is not.
ghost use Rattle.std.specs.Prelude.{◌≡◌, ◌+◌, ◌<◌, ◌≤◌, None, true, false, IsTrue, OnOk, OnErr, length};
ghost use Rattle.mix_word.specs.declared.decoding.Decoded.TheVariants.{Named};
ghost use Rattle.mix_machine.specs.Order.{all_fit};
ghost use Rattle.mix_machine.specs.Prelude.{answer_of, applies, step_or_fault, copies, most_kept, write_all, writes_in, writes_of};
ghost use Rattle.mix_machine.specs.law.Plans.{plan_fits, PlanFits};
ghost use Rattle.mix_machine.specs.law.Stages.{of_address, fault_among, outcome_of};

use crate::cells::copy_words;
use crate::decode::Arguments;
use crate::old::Old;
use crate::plan::{Outcome, Plan, Writes};
use crate::step::finish::MAX_KEPT;
use crate::step::told::told;
use crate::world::World;
use mix_word::{Operation, Reg};
use undo_core::{Kept, Memory, Refused};

/// What ends a step.
pub(crate) trait Ending {
    ghost use Rattle.std.specs.Prelude.{◌≡◌, ◌<◌, Result, Err, None};
    ghost use Rattle.mix_refused.specs.declared.refused.Refused.{Refused};
    ghost use Rattle.mix_refused.specs.declared.refused.Refused.TheVariants.{Fault};
    ghost use Rattle.mix_machine.specs.World.{WorldState};
    ghost use Rattle.mix_machine.specs.declared.plan.Plan.{Plan};
    ghost use Rattle.mix_machine.specs.declared.fault.MixFault.{MixFault};

    /// What a step comes to, by its plan or its fault: of the machine, of what ends the step, and as an answer.
    ghost ended: { Result Plan MixFault → WorldState → WorldState → Self → Self → Result (Unit {0}) (Refused MixFault) → Type 0 };

    /// A fault alters nothing.
    ghost refused: { (plan : Result Plan MixFault) (w : WorldState) (end : Self) (f : MixFault) → plan ≡ Err f → ended plan w w end end (Err (Fault f)) };

    /// Ends a step of an operation, by what the operation does, or its first fault. It returns the byte that tells which.
    fn finish(
        &mut self,
        world: &mut World,
        operation: Operation,
        outcome: Outcome,
        a: Arguments,
    ) -> u8
        requires cell { world.old.loc < 4000 }
        requires f { a.f < 64 }
        requires served { fault_among (applies (Named operation) world.old a) of_address ≡ None }
        requires outcome { outcome ≡ outcome_of operation world.old a }
        ensures { ended (step_or_fault (Named operation) world.old a) world.old world.new self.old self.new (answer_of result) };
}

/// What a step overwrites is kept.
impl Ending for Kept<Old> {
    ghost use Rattle.std.proofs.Common.{ap, refl};
    ghost use Rattle.mix_machine.specs.Do.{state_after};
    ghost use Rattle.mix_machine.specs.law.Carried.{Carried};

    ghost ended = { λ plan w v olds news answer. Carried plan w v olds.items news.items answer };

    ghost refused = { λ plan w olds f e. record { given = tt; kept = tt; fault = ap (state_after w) e; last = tt; same = refl; same_kept = refl } };

    #[inline(always)]
    fn finish(
        &mut self,
        world: &mut World,
        operation: Operation,
        outcome: Outcome,
        a: Arguments,
    ) -> u8 {
        told(world.finished(operation, outcome, a, self))
    }
}

/// Nothing is kept, but while a unit is written.
#[derive(Drop)]
pub(crate) struct Forgets {
    pub(crate) spare: Kept<Old>,
}

impl Ending for Forgets {
    ghost use Rattle.std.specs.Prelude.{List, []};
    ghost use Rattle.std.proofs.Common.{ap, refl};
    ghost use Rattle.mix_machine.specs.Do.{state_after};
    ghost use Rattle.mix_machine.specs.law.Carried.{Carried};
    ghost use Rattle.mix_machine.specs.declared.old.Old.{Old};

    ghost ended = { λ plan w v before after answer. (values : List Old) × Carried plan w v [] values answer };

    ghost refused = { λ plan w end f e. ([], record { given = tt; kept = tt; fault = ap (state_after w) e; last = tt; same = refl; same_kept = refl }) };

    #[inline(always)]
    fn finish(
        &mut self,
        world: &mut World,
        operation: Operation,
        outcome: Outcome,
        a: Arguments,
    ) -> u8 {
        // (the proof knows the ranges of the machine where a field of it is named)
        let _ = &world.loc;
        match world.plan_of_served(operation, outcome, a) {
            Err(fault) => told(Err(Refused::Fault(fault))),
            Ok(plan) => match world.pass(plan, &mut self.spare) {
                Ok(()) => told(Ok(())),
                Err(Memory) => told(Err(Refused::Memory)),
            },
        }
    }
}

impl World {
    // Carries out a plan, and keeps nothing. Out of memory for what a unit holds more, nothing is altered.
    #[tactic(auto, using(crate::proofs::WriteLemmas::one_after_another))]
    #[inline(always)]
    fn pass(&mut self, plan: Plan, spare: &mut Kept<Old>) -> Result<(), Memory>
        requires fits { IsTrue (plan_fits self.old plan) }
        requires units { PlanFits self.old plan }
        requires few { length (writes_of self.old plan) ≤ most_kept }
        ensures state { OnOk result (self.new ≡ write_all self.old (writes_of self.old plan)) }
        ensures same { OnErr result (self.new ≡ self.old) }
    {
        // (a copy, since the checker covers no struct that is passed by value twice)
        let whole = plan;
        match plan {
            Plan::Step(writes, loc, clock) => {
                if self.set_parts(writes) {
                    self.loc = loc;
                    self.clock = clock;
                    Ok(())
                } else {
                    self.pass_apart(whole, spare)
                }
            }
            Plan::Value(_) => self.pass_apart(whole, spare),
        }
    }

    // What an operation writes, if that is no part of a unit; whether it is not.
    #[tactic(auto, using(crate::proofs::WriteLemmas::one_after_another))]
    #[inline(always)]
    fn set_parts(&mut self, writes: Writes) -> bool
        requires fits { IsTrue (all_fit writes) }
        ensures state { result ≡ true → self.new ≡ write_all self.old (writes_in self.old writes) }
        ensures same { result ≡ false → self.new ≡ self.old }
    {
        // (the proof knows the ranges of the machine where a field of it is named)
        let _ = &self.loc;
        match writes {
            Writes::Nothing => {}
            Writes::Register(r, word) => self.registers.set(r, word),
            Writes::RegisterAndToggle(r, word, over) => {
                self.registers.set(r, word);
                self.over = over;
            }
            Writes::Pair(upper, lower) => {
                self.registers.set(Reg::A, upper);
                self.registers.set(Reg::X, lower);
            }
            Writes::PairAndToggle(upper, lower, over) => {
                self.registers.set(Reg::A, upper);
                self.registers.set(Reg::X, lower);
                self.over = over;
            }
            Writes::Cell(place, word) => self.cells[usize::from(place.number())] = word,
            Writes::Indicator(cmp) => self.cmp = cmp,
            Writes::Copy(words) => {
                self.copy_cells(words.count, words.from, words.to);
                self.registers.set(Reg::I1, words.index);
            }
            Writes::Input(_) | Writes::Output(_) | Writes::Control(_, _) => return false,
        }
        true
    }

    // So many words from one cell on to another on, one at a time, the first one first.
    fn copy_cells(&mut self, count: u8, from: u16, to: u16)
        requires there { from + count ≤ 4000 }
        requires into { to + count ≤ 4000 }
        ensures { self.new ≡ write_all self.old (copies count from to self.old) }
    {
        // (the proof knows the ranges of the machine where a field of it is named)
        let _ = &self.loc;
        copy_words(
            &mut self.cells,
            usize::from(count),
            usize::from(from),
            usize::from(to),
        );
    }

    // The same of any plan, with what it overwrites in a list of its own.
    #[cold]
    #[inline(never)]
    fn pass_apart(&mut self, plan: Plan, spare: &mut Kept<Old>) -> Result<(), Memory>
        requires fits { IsTrue (plan_fits self.old plan) }
        requires units { PlanFits self.old plan }
        requires few { length (writes_of self.old plan) ≤ most_kept }
        ensures state { OnOk result (self.new ≡ write_all self.old (writes_of self.old plan)) }
        ensures same { OnErr result (self.new ≡ self.old) }
    {
        spare.clear();
        spare.reserve(MAX_KEPT)?;
        let from = self.anchor();
        self.perform(plan, from, spare)?;
        Ok(())
    }
}

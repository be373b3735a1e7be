//! A plan carried out: its values written in their order, and those that they replace kept.
ghost use Rattle.std.specs.Prelude.{◌≡◌, ◌<◌, ◌≤◌, ◌+◌, IsTrue};
ghost use Rattle.mix_machine.specs.Order.{all_fit};
ghost use Rattle.mix_machine.specs.Prelude.{copies, writes_in, writes_of, HasRoom, Wrote, Tried};
ghost use Rattle.mix_machine.specs.law.Plans.{plan_fits, PlanFits, UnitFits};

use crate::cells::{Cells, copy_words};
use crate::old::Old;
use crate::pack::Anchor;
use crate::plan::{Plan, Writes};
use crate::world::World;
use mix_word::{Place, Reg, Word};
use undo_core::{Kept, Memory};

impl World {
    /// Carries out a plan whose values fit their places, at the location and the clock of the machine. Out of memory for what a unit holds more,
    /// nothing is altered.
    #[tactic(auto, using(crate::proofs::WriteLemmas::one_after_another))]
    #[inline(always)]
    pub(crate) fn perform(
        &mut self,
        plan: Plan,
        from: Anchor,
        kept: &mut Kept<Old>,
    ) -> Result<(), Memory>
        requires loc { from.loc ≡ self.old.loc }
        requires clock { from.clock ≡ self.old.clock }
        requires fits { IsTrue (plan_fits self.old plan) }
        requires units { PlanFits self.old plan }
        requires room { HasRoom kept.old (writes_of self.old plan) }
        ensures { Tried (writes_of self.old plan) self.old self.new kept.old kept.new result }
    {
        match plan {
            Plan::Value(value) => self.write(value, kept),
            Plan::Step(writes, loc, clock) => {
                let to = Anchor { loc, clock };
                match writes {
                    Writes::Register(r, word) => self.move_with(r, word, to, from, kept),
                    Writes::Cell(place, word) => self.store(place, word, to, from, kept),
                    Writes::Nothing => self.move_to(to, from, kept),
                    writes => {
                        self.write_in(writes, kept)?;
                        let now = self.anchor();
                        self.move_to(to, now, kept);
                    }
                }
            }
        }
        Ok(())
    }

    // What an operation writes. What a unit holds more comes first, so that nothing is altered where there is no memory for it.
    #[tactic(auto, using(crate::proofs::WriteLemmas::one_after_another))]
    #[inline(always)]
    fn write_in(&mut self, writes: Writes, kept: &mut Kept<Old>) -> Result<(), Memory>
        requires fits { IsTrue (all_fit writes) }
        requires units { UnitFits self.old writes }
        requires room { HasRoom kept.old (writes_in self.old writes) }
        ensures { Tried (writes_in self.old writes) self.old self.new kept.old kept.new result }
    {
        match writes {
            Writes::Nothing => {}
            Writes::Register(r, word) => self.write_register(r, word, kept),
            Writes::RegisterAndToggle(r, word, over) => {
                self.write_register(r, word, kept);
                self.write_over(over, kept);
            }
            Writes::Pair(upper, lower) => self.write_pair(upper, lower, kept),
            Writes::PairAndToggle(upper, lower, over) => {
                self.write_pair(upper, lower, kept);
                self.write_over(over, kept);
            }
            Writes::Cell(place, word) => self.write_cell(place, word, kept),
            Writes::Indicator(cmp) => self.write_cmp(cmp, kept),
            Writes::Copy(words) => {
                self.copy(words.count, words.from, words.to, kept);
                self.write_register(Reg::I1, words.index, kept);
            }
            Writes::Input(transfer) => {
                let kind = self.unit(transfer.unit).kind();
                self.input(transfer, kind, kept);
            }
            Writes::Output(transfer) => return self.output(transfer, kept),
            Writes::Control(unit, place) => return self.control(unit, place, kept),
        }
        Ok(())
    }

    // Words into rA and rX.
    #[inline(never)]
    fn write_pair(&mut self, upper: Word, lower: Word, kept: &mut Kept<Old>)
        requires room { HasRoom kept.old (writes_in self.old (Writes.Pair upper lower)) }
        ensures { Wrote (writes_in self.old (Writes.Pair upper lower)) self.old self.new kept.old kept.new }
    {
        self.write_register(Reg::A, upper, kept);
        self.write_register(Reg::X, lower, kept);
    }

    // So many words from one cell on to another on, one at a time, the first one first.
    fn copy(&mut self, count: u8, from: u16, to: u16, kept: &mut Kept<Old>)
        requires there { from + count ≤ 4000 }
        requires into { to + count ≤ 4000 }
        requires room { HasRoom kept.old (copies count from to self.old) }
        ensures { Wrote (copies count from to self.old) self.old self.new kept.old kept.new }
    {
        // (the proof knows the ranges of the machine where a field of it is named)
        let _ = &self.loc;
        let (count, at) = (usize::from(count), usize::from(to));
        kept.append_reserved(&Cells::of(to, &self.cells[at..at + count]));
        copy_words(&mut self.cells, count, usize::from(from), at);
    }
}

/// The place of a cell's number.
pub(crate) fn place(number: u16) -> Place
    requires { number < 4000 }
    ensures { result ≡ number }
{
    match Place::of(number) {
        Some(place) => place,
        None => unreachable!(),
    }
}

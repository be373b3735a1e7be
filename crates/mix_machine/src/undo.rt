//! The machine as a state whose changes can be taken back by the values that they replaced.
ghost use Rattle.std.specs.Prelude.{◌&&◌};
ghost use Rattle.mix_machine.specs.Prelude.{IsWorld, ends_at, put_value, does, kept_values, IsReal, is_plain_next, is_step};
ghost use Rattle.mix_machine.specs.law.Parts.{parts-does};
ghost use Rattle.mix_machine.specs.law.Undone.{undone-does};

use crate::fault::MixFault;
use crate::many::Many;
use crate::old::{Change, Old};
use crate::pack::Anchor;
use crate::world::World;
use undo_core::{Kept, Refused, Undo};

impl Undo for World {
    type Change = Change;

    type Old = Old;

    type Fault = MixFault;

    type Stop = Many;

    ghost is_real = { λ w c. IsWorld w × IsReal c };

    ghost gives = { does };

    ghost keeps = { kept_values };

    ghost put = { put_value };

    ghost ends = { is_step };

    ghost stops = { ends_at };

    ghost goes = { λ w c. is_step c && is_plain_next w };

    /// Whether the change is a step, which ends in its clock. Others keep one value that says no end.
    #[inline(always)]
    fn ends(change: &Change) -> bool {
        matches!(change, Change::Step)
    }

    /// Whether both are steps: those are what a journal has many of in a row.
    #[inline(always)]
    fn is_same(one: &Change, other: &Change) -> bool {
        matches!(one, Change::Step) && matches!(other, Change::Step)
    }

    /// Does a change (1.3.1), or reports its fault. A fault, or out of memory for what it keeps, alters nothing.
    #[tactic(auto, unfolding(crate::specs::Do::does, crate::specs::Do::kept_values))]
    // (inlined, as `Journal::go` is)
    #[inline(always)]
    fn apply(&mut self, change: &Change, kept: &mut Kept<Old>) -> Result<(), Refused<MixFault>> {
        // (the proof knows the ranges of the machine where a field of it is named)
        let _ = &self.loc;
        self.change(*change, kept)
    }

    /// Does a change, and a step again as long as the next needs no look at the machine first and
    /// none stops them, so many times at most.
    #[inline(always)]
    fn apply_until(
        &mut self,
        change: &Change,
        most: usize,
        stop: &Many,
        kept: &mut Kept<Old>,
    ) -> (usize, Result<(), Refused<MixFault>>) {
        if matches!(change, Change::Step) {
            self.steps(most, stop.watch(), kept)
        } else {
            match self.apply(change, kept) {
                Ok(()) => (1, Ok(())),
                Err(refused) => (0, Err(refused)),
            }
        }
    }

    /// Puts one old value back. It takes no memory.
    #[inline(always)]
    fn restore(&mut self, old: Old) {
        self.set_value(old);
    }

    /// Takes the last values of units off, and puts them back: those that a step keeps together, the cells of a row, or one value. It takes no memory.
    #[inline(always)]
    fn restore_some(&mut self, units: &mut Vec<u32>, anchor: &mut Anchor, most: usize) -> usize {
        match units.pop() {
            Some(header) => self.restore_by(header, units, anchor, most),
            None => unreachable!(),
        }
    }

    ghost parts = { parts-does };

    ghost undoes = { undone-does };
}

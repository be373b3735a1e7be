//! One change of the machine: a step, or one value set.
ghost use Rattle.std.specs.Prelude.{◌≡◌, ◌<◌, Ok, IsTrue};
ghost use Rattle.mix_machine.specs.Prelude.{fits, plan_of, IsReal, Carried};
ghost use Rattle.mix_machine.specs.declared.plan.Plan.TheVariants.{Value};

use crate::fault::MixFault;
use crate::old::{Change, Old};
use crate::registers::fits_register;
use crate::world::World;
use mix_word::{Place, Word};
use undo_core::{Kept, Refused};

impl World {
    /// Does a change, or reports its first fault; out of memory is the answer to none that has a fault.
    #[tactic(auto, unfolding(crate::specs::Do::plan_of))]
    #[inline(always)]
    pub(crate) fn change(
        &mut self,
        change: Change,
        kept: &mut Kept<Old>,
    ) -> Result<(), Refused<MixFault>>
        ensures real { IsReal change }
        ensures done { Carried (plan_of self.old change) self.old self.new kept.old.items kept.new.items result }
    {
        match change {
            Change::Step => self.step(kept),
            Change::SetReg(r, word) => {
                if fits_register(r, word) {
                    self.set(Old::Reg(r, word), kept)
                } else {
                    Err(Refused::Fault(MixFault::IndexOverflow))
                }
            }
            Change::SetCell(place, word) => self.set(cell_at(place, word), kept),
            Change::SetLoc(place) => self.set(Old::Loc(place.number()), kept),
            Change::SetOver(over) => self.set(Old::Over(over), kept),
            Change::SetCmp(cmp) => self.set(Old::Cmp(cmp), kept),
            Change::Break(place) => self.set(break_at(place, true), kept),
            Change::Clear(place) => self.set(break_at(place, false), kept),
        }
    }

    // Sets one value that fits its place. (It stands apart, so that a step alone is short.)
    #[inline(never)]
    fn set(&mut self, value: Old, kept: &mut Kept<Old>) -> Result<(), Refused<MixFault>>
        requires { IsTrue (fits self.old value) }
        ensures { Carried (Ok (Value value)) self.old self.new kept.old.items kept.new.items result }
    {
        kept.reserve(1)?;
        self.write(value, kept);
        Ok(())
    }
}

// A word of the cell at a place (the proof knows the range of a place where its number is read).
fn cell_at(place: Place, word: Word) -> Old
    ensures is { result ≡ Old.Cell place word }
    ensures bound { place < 4000 }
{
    let _number = place.number();
    Old::Cell(place, word)
}

// Whether the cell at a place has a breakpoint.
fn break_at(place: Place, on: bool) -> Old
    ensures is { result ≡ Old.Break place on }
    ensures bound { place < 4000 }
{
    let _number = place.number();
    Old::Break(place, on)
}

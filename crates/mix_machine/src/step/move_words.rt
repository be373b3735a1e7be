//! MOVE: words copied from the cell M on to the cell rI1 on (1.3.1).
ghost use Rattle.std.specs.Prelude.{◌≡◌};
ghost use Rattle.mix_machine.specs.Effects.{is_row};
ghost use Rattle.mix_machine.specs.law.Stages.{outcome_of};

use crate::decode::Arguments;
use crate::fault::MixFault;
use crate::plan::{Copies, Outcome, Writes};
use crate::step::transfer::goes_on;
use crate::world::World;
use mix_word::{CELLS, Operation, Reg, Sign, Word, add};

impl World {
    /// MOVE: F words; rI1 grows by F.
    #[inline(always)]
    pub(crate) fn move_words(&self, a: Arguments) -> Outcome
        ensures { result ≡ outcome_of Operation.Move self.now a }
    {
        let (count, to) = (a.f, self.registers.get(Reg::I1));
        if count == 0 {
            return Ok(goes_on(Writes::Nothing));
        }
        if !is_row(a.m.word(), count) || !is_row(to, count) {
            return Err(MixFault::NoCell);
        }
        let (index, _) = add(to, Word::of(Sign::Plus, u32::from(count)));
        let copies = Copies {
            count,
            from: a.m.magnitude(),
            to: to.magnitude() as u16,
            index,
        };
        Ok(goes_on(Writes::Copy(copies)))
    }
}

/// Whether so many cells stand from a word's number on.
pub(crate) fn is_row(word: Word, count: u8) -> bool
    ensures { result ≡ is_row word count }
{
    match word.natural() {
        Some(number) => number + u32::from(count) <= u32::from(CELLS),
        None => false,
    }
}

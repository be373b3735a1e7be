//! The operand of an instruction (1.3.1): the field F of the cell M.
ghost use Rattle.std.specs.Prelude.{◌≡◌};
ghost use Rattle.mix_word.specs.Prelude.{negation_of, field_value_of, put_field_of};
ghost use Rattle.mix_machine.specs.law.Stages.{operand_or_fault};

use crate::decode::Arguments;
use crate::fault::MixFault;
use crate::plan::Writes;
use crate::world::World;
use mix_word::{Field, Place, Word};

/// The cell M, the word in it, and the field F.
#[derive(Clone, Copy)]
pub(crate) struct Operand {
    pub(crate) place: Place,
    pub(crate) word: Word,
    pub(crate) field: Field,
}

impl World {
    /// The operand of an instruction, or its fault: F is no field, or M is no cell.
    #[inline(always)]
    pub(crate) fn operand(&self, a: Arguments) -> Result<Operand, MixFault>
        ensures { result ≡ operand_or_fault self.now a }
    {
        match (Field::of(a.f), a.m.place()) {
            (None, _) => Err(MixFault::NoField),
            (Some(_), None) => Err(MixFault::NoCell),
            (Some(field), Some(place)) => Ok(Operand {
                place,
                word: self.cell(place),
                field,
            }),
        }
    }
}

impl Operand {
    /// V: the field of the word.
    #[inline(always)]
    pub(crate) fn value(self) -> Word
        ensures { result ≡ field_value_of self.word self.field }
    {
        self.word.field_value(self.field)
    }

    /// V with the other sign.
    #[inline(always)]
    pub(crate) fn negated_value(self) -> Word
        ensures { result ≡ negation_of (field_value_of self.word self.field) }
    {
        self.value().negated()
    }

    /// A word put into the field of the cell.
    #[inline(always)]
    pub(crate) fn put(self, v: Word) -> Writes
        ensures { result ≡ Writes.Cell self.place (put_field_of self.word self.field v) }
    {
        let (place, word, field) = (self.place, self.word, self.field);
        Writes::Cell(place, word.put_field(field, v))
    }
}

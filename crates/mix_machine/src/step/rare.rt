//! A step of an operation that is rare, or long, apart from the others (1.3.1, "MIX operators").
ghost use Rattle.std.specs.Prelude.{◌≡◌, ◌<◌, None, IsTrue};
ghost use Rattle.mix_word.specs.Prelude.{number_of_pair, decode_of, parts_of};
ghost use Rattle.mix_machine.specs.Prelude.{arguments_of, step_or_fault, answer_of, applies, of_address, fault_among};
ghost use Rattle.mix_machine.specs.law.Apart.{is_apart};

use crate::fault::MixFault;
use crate::plan::Writes;
use crate::step::ending::Ending;
use crate::step::naming::{names, shift_at};
use crate::step::told::told;
use crate::step::transfer::goes_on;
use crate::world::World;
use mix_word::{Decoded, Operation, Word, decode};
use undo_core::Refused;

impl World {
    /// A step of what C and F name where it is rare, or long, or none, by its number: one function,
    /// so that the others together are short.
    #[inline(never)]
    pub(crate) fn step_of_rare<E: Ending>(&mut self, number: u8, word: Word, end: &mut E) -> u8
        requires cell { self.old.loc < 4000 }
        requires number { number ≡ number_of_pair (decode_of (parts_of word).code (parts_of word).f) }
        requires rare { 28 < number }
        requires served { fault_among (applies (decode_of (parts_of word).code (parts_of word).f) self.old (arguments_of self.old (parts_of word))) of_address ≡ None }
        ensures { E.ended (step_or_fault (decode_of (parts_of word).code (parts_of word).f) self.old (arguments_of self.old (parts_of word))) self.old self.new end.old end.new (answer_of result) }
    {
        let parts = word.parts();
        let a = self.arguments(parts);
        // (a copy, since the checker covers no struct that is passed by value twice)
        let given = a;
        match number {
            29 => {
                names(Operation::Mul, number, parts.code, parts.f);
                end.finish(self, Operation::Mul, self.multiply(given), a)
            }
            30 => {
                names(Operation::Div, number, parts.code, parts.f);
                end.finish(self, Operation::Div, self.divide(given), a)
            }
            31 | 32 | 33 | 34 | 35 | 36 => {
                let kind = shift_at(number - 31);
                names(Operation::Shift(kind), number, parts.code, parts.f);
                end.finish(
                    self,
                    Operation::Shift(kind),
                    self.shift_registers(kind, given),
                    a,
                )
            }
            37 => {
                names(Operation::Move, number, parts.code, parts.f);
                end.finish(self, Operation::Move, self.move_words(given), a)
            }
            _ => self.step_of_rarest(word, end),
        }
    }

    // The same of what programs do least: HLT, the conversions, units, and what is no operation.
    #[inline(never)]
    fn step_of_rarest<E: Ending>(&mut self, word: Word, end: &mut E) -> u8
        requires cell { self.old.loc < 4000 }
        requires rare { 37 < number_of_pair (decode_of (parts_of word).code (parts_of word).f) }
        requires served { fault_among (applies (decode_of (parts_of word).code (parts_of word).f) self.old (arguments_of self.old (parts_of word))) of_address ≡ None }
        ensures { E.ended (step_or_fault (decode_of (parts_of word).code (parts_of word).f) self.old (arguments_of self.old (parts_of word))) self.old self.new end.old end.new (answer_of result) }
    {
        let parts = word.parts();
        match decode(parts.code, parts.f) {
            Decoded::Named(operation) => self.step_apart(operation, word, end),
            Decoded::Floating => told(Err(Refused::Fault(MixFault::FloatingOperation))),
            Decoded::Unknown => told(Err(Refused::Fault(MixFault::NoOperation))),
        }
    }

    // A step of such an operation.
    fn step_apart<E: Ending>(&mut self, operation: Operation, word: Word, end: &mut E) -> u8
        requires apart { IsTrue (is_apart operation) }
        requires cell { self.old.loc < 4000 }
        requires served { fault_among (applies (Decoded.Named operation) self.old (arguments_of self.old (parts_of word))) of_address ≡ None }
        ensures { E.ended (step_or_fault (Decoded.Named operation) self.old (arguments_of self.old (parts_of word))) self.old self.new end.old end.new (answer_of result) }
    {
        let a = self.arguments(word.parts());
        // (a copy, since the checker covers no struct that is passed by value twice)
        let given = a;
        match operation {
            Operation::Hlt => end.finish(self, Operation::Hlt, Ok(goes_on(Writes::Nothing)), a),
            Operation::Num => end.finish(self, Operation::Num, self.to_number(given), a),
            Operation::Char => end.finish(self, Operation::Char, self.to_characters(given), a),
            Operation::Jbus => end.finish(self, Operation::Jbus, self.jump_busy(given), a),
            Operation::Ioc => end.finish(self, Operation::Ioc, self.control_unit(given), a),
            Operation::In => end.finish(self, Operation::In, self.read_block(given), a),
            Operation::Out => end.finish(self, Operation::Out, self.write_block(given), a),
            Operation::Jred => end.finish(self, Operation::Jred, self.jump_ready(given), a),
            Operation::Nop
            | Operation::Add
            | Operation::Sub
            | Operation::Mul
            | Operation::Div
            | Operation::Shift(_)
            | Operation::Move
            | Operation::Load(_)
            | Operation::LoadNegated(_)
            | Operation::Store(_)
            | Operation::StoreJ
            | Operation::StoreZero
            | Operation::Jump(_)
            | Operation::RegisterJump(_, _)
            | Operation::Increase(_)
            | Operation::Decrease(_)
            | Operation::Enter(_)
            | Operation::EnterNegated(_)
            | Operation::Compare(_) => unreachable!(),
        }
    }
}

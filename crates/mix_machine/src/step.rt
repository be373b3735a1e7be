//! A step: the tests of its instruction, and what its operation does (1.3.1, "MIX operators").
ghost use Rattle.std.specs.Prelude.{◌≡◌, ◌<◌, ◌&&◌, nat_le, nat_lt};
ghost use Rattle.mix_word.specs.Prelude.{decode_of, parts_of};
ghost use Rattle.mix_machine.specs.Prelude.{arguments_of, step_or_fault, answer_of, applies, of_address, fault_among};

mod arithmetic;
mod ending;
mod finish;
mod jump;
mod many;
mod move_words;
mod naming;
mod operand;
mod operation;
mod rare;
mod told;
mod transfer;
mod unit;

use crate::decode::Arguments;
use crate::fault::MixFault;
use crate::step::ending::Ending;
use crate::step::told::told;
use crate::world::World;
use mix_word::{Decoded, Word, decode};
use undo_core::Refused;

impl World {
    /// A step of the instruction in a word, at a cell. Each loop of steps calls it once, where it is inlined with the operations that programs do most.
    #[inline(always)]
    fn step_of_word<E: Ending>(&mut self, word: Word, end: &mut E) -> u8
        requires cell { self.old.loc < 4000 }
        ensures { E.ended (step_or_fault (decode_of (parts_of word).code (parts_of word).f) self.old (arguments_of self.old (parts_of word))) self.old self.new end.old end.new (answer_of result) }
    {
        let parts = word.parts();
        let arguments = self.arguments(parts);
        // (a copy, since the checker covers no struct that is passed by value twice)
        let given = arguments;
        match self.fault_of_address(word, given) {
            Some(fault) => told(Err(Refused::Fault(fault))),
            None => { self.step_of_number(word.pair_number(), parts.code, word, arguments, end) }
        }
    }

    // What I and M say against the step of an instruction.
    #[inline(always)]
    fn fault_of_address(&self, word: Word, a: Arguments) -> Option<MixFault>
        requires arguments { a ≡ arguments_of self.now (parts_of word) }
        requires plain { a.index ≡ 0 → a.m.magnitude < 4096 }
        ensures { result ≡ fault_among (applies (decode_of (parts_of word).code a.f) self.now a) of_address }
    {
        if is_plain(a) {
            None
        } else {
            self.fault_of_odd_address(word)
        }
    }

    // What an I over 6 or an M of 4096 and more says against it: nothing where the operation does not look at them.
    #[cold]
    #[inline(never)]
    fn fault_of_odd_address(&self, word: Word) -> Option<MixFault>
        ensures { result ≡ fault_among (applies (decode_of (parts_of word).code (parts_of word).f) self.now (arguments_of self.now (parts_of word))) of_address }
    {
        let parts = word.parts();
        let a = self.arguments(parts);
        match decode(parts.code, parts.f) {
            Decoded::Named(operation) => {
                if !operation.needs_address() {
                    None
                } else if a.index > 6 {
                    Some(MixFault::IndexOverSix)
                } else if a.m.magnitude() >= 4096 {
                    Some(MixFault::LargeAddress)
                } else {
                    None
                }
            }
            Decoded::Floating | Decoded::Unknown => None,
        }
    }
}

// Whether I is at most 6 and M is below 4096, as it is where I is 0.
#[inline(always)]
fn is_plain(a: Arguments) -> bool
    requires { a.index ≡ 0 → a.m.magnitude < 4096 }
    ensures { result ≡ (nat_le a.index 6 && nat_lt a.m.magnitude 4096) }
{
    a.index == 0 || a.index <= 6 && a.m.magnitude() < 4096
}

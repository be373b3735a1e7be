//! A step of what C and F name: of each operation (1.3.1, "MIX operators").
ghost use Rattle.std.specs.Prelude.{◌≡◌, ◌<◌, ◌≤◌, None};
ghost use Rattle.mix_word.specs.Prelude.{number_of_pair, decode_of, parts_of};
ghost use Rattle.mix_machine.specs.Prelude.{arguments_of, step_or_fault, answer_of, applies, of_address, fault_among};

use crate::decode::Arguments;
use crate::plan::Writes;
use crate::step::ending::Ending;
use crate::step::naming::{jump_at, names, register_at};
use crate::step::transfer::goes_on;
use crate::world::World;
use mix_word::{Condition, JumpKind, Operation, Word};

impl World {
    /// A step of what C and F name, which their number tells: one jump. Each operation ends its step
    /// for itself, so that the compiler knows there what it writes.
    #[inline(always)]
    pub(crate) fn step_of_number<E: Ending>(
        &mut self,
        number: u8,
        code: u8,
        word: Word,
        a: Arguments,
        end: &mut E,
    ) -> u8
        requires cell { self.old.loc < 4000 }
        requires arguments { a ≡ arguments_of self.old (parts_of word) }
        requires code { code ≡ (parts_of word).code }
        requires number { number ≡ number_of_pair (decode_of code a.f) }
        requires f { a.f < 64 }
        requires served { fault_among (applies (decode_of code a.f) self.old a) of_address ≡ None }
        ensures { E.ended (step_or_fault (decode_of code a.f) self.old a) self.old self.new end.old end.new (answer_of result) }
    {
        // (a copy, since the checker covers no struct that is passed by value twice)
        let given = a;
        match number {
            0 => {
                names(Operation::Nop, number, code, a.f);
                end.finish(self, Operation::Nop, Ok(goes_on(Writes::Nothing)), a)
            }
            1 => {
                names(Operation::Add, number, code, a.f);
                end.finish(self, Operation::Add, self.add_operand(given), a)
            }
            2 => {
                names(Operation::Sub, number, code, a.f);
                end.finish(self, Operation::Sub, self.subtract(given), a)
            }
            3 => {
                let r = register_at(code % 8);
                names(Operation::Load(r), number, code, a.f);
                end.finish(self, Operation::Load(r), self.load_register(r, given), a)
            }
            4 => {
                let r = register_at(code % 8);
                names(Operation::LoadNegated(r), number, code, a.f);
                end.finish(
                    self,
                    Operation::LoadNegated(r),
                    self.load_negated(r, given),
                    a,
                )
            }
            5 => {
                let r = register_at(code % 8);
                names(Operation::Store(r), number, code, a.f);
                end.finish(self, Operation::Store(r), self.store_register(r, given), a)
            }
            6 => {
                names(Operation::StoreJ, number, code, a.f);
                end.finish(self, Operation::StoreJ, self.store_j(given), a)
            }
            7 => {
                names(Operation::StoreZero, number, code, a.f);
                end.finish(self, Operation::StoreZero, self.store_zero(given), a)
            }
            8 => {
                let r = register_at(code % 8);
                names(Operation::Increase(r), number, code, a.f);
                end.finish(self, Operation::Increase(r), self.increase(r, given), a)
            }
            9 => {
                let r = register_at(code % 8);
                names(Operation::Decrease(r), number, code, a.f);
                end.finish(self, Operation::Decrease(r), self.decrease(r, given), a)
            }
            10 => {
                let r = register_at(code % 8);
                names(Operation::Enter(r), number, code, a.f);
                end.finish(self, Operation::Enter(r), self.enter(r, given), a)
            }
            11 => {
                let r = register_at(code % 8);
                names(Operation::EnterNegated(r), number, code, a.f);
                end.finish(
                    self,
                    Operation::EnterNegated(r),
                    self.enter_negated(r, given),
                    a,
                )
            }
            12 => {
                let r = register_at(code % 8);
                names(Operation::Compare(r), number, code, a.f);
                end.finish(
                    self,
                    Operation::Compare(r),
                    self.compare_register(r, given),
                    a,
                )
            }
            13 => {
                names(Operation::Jump(JumpKind::Jmp), number, code, a.f);
                end.finish(
                    self,
                    Operation::Jump(JumpKind::Jmp),
                    self.jump(JumpKind::Jmp, given),
                    a,
                )
            }
            14 | 15 | 16 | 17 | 18 | 19 | 20 | 21 | 22 => {
                let kind = jump_at(number - 13);
                names(Operation::Jump(kind), number, code, a.f);
                end.finish(self, Operation::Jump(kind), self.jump(kind, given), a)
            }
            23 => {
                let r = register_at(code % 8);
                names(
                    Operation::RegisterJump(r, Condition::Negative),
                    number,
                    code,
                    a.f,
                );
                end.finish(
                    self,
                    Operation::RegisterJump(r, Condition::Negative),
                    self.register_jump(r, Condition::Negative, given),
                    a,
                )
            }
            24 => {
                let r = register_at(code % 8);
                names(
                    Operation::RegisterJump(r, Condition::Zero),
                    number,
                    code,
                    a.f,
                );
                end.finish(
                    self,
                    Operation::RegisterJump(r, Condition::Zero),
                    self.register_jump(r, Condition::Zero, given),
                    a,
                )
            }
            25 => {
                let r = register_at(code % 8);
                names(
                    Operation::RegisterJump(r, Condition::Positive),
                    number,
                    code,
                    a.f,
                );
                end.finish(
                    self,
                    Operation::RegisterJump(r, Condition::Positive),
                    self.register_jump(r, Condition::Positive, given),
                    a,
                )
            }
            26 => {
                let r = register_at(code % 8);
                names(
                    Operation::RegisterJump(r, Condition::NotNegative),
                    number,
                    code,
                    a.f,
                );
                end.finish(
                    self,
                    Operation::RegisterJump(r, Condition::NotNegative),
                    self.register_jump(r, Condition::NotNegative, given),
                    a,
                )
            }
            27 => {
                let r = register_at(code % 8);
                names(
                    Operation::RegisterJump(r, Condition::NotZero),
                    number,
                    code,
                    a.f,
                );
                end.finish(
                    self,
                    Operation::RegisterJump(r, Condition::NotZero),
                    self.register_jump(r, Condition::NotZero, given),
                    a,
                )
            }
            28 => {
                let r = register_at(code % 8);
                names(
                    Operation::RegisterJump(r, Condition::NotPositive),
                    number,
                    code,
                    a.f,
                );
                end.finish(
                    self,
                    Operation::RegisterJump(r, Condition::NotPositive),
                    self.register_jump(r, Condition::NotPositive, given),
                    a,
                )
            }
            _ => self.step_of_rare(number, word, end),
        }
    }
}

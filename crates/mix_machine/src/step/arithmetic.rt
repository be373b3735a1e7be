//! Sums, products, quotients, shifts and conversions (1.3.1).
ghost use Rattle.std.specs.Prelude.{◌≡◌};
ghost use Rattle.mix_machine.specs.Effects.{pair_into, shift_into};
ghost use Rattle.mix_machine.specs.law.Stages.{outcome_of};

use crate::decode::Arguments;
use crate::fault::MixFault;
use crate::plan::{Outcome, Writes};
use crate::step::transfer::goes_on;
use crate::world::World;
use mix_word::{
    DataReg, Operation, Reg, ShiftKind, Sign, Word, add, div, mul, num, shift, sub, to_char,
};

impl World {
    /// ADD.
    #[inline(always)]
    pub(crate) fn add_operand(&self, a: Arguments) -> Outcome
        ensures { result ≡ outcome_of Operation.Add self.now a }
    {
        let v = self.operand(a)?.value();
        self.sum_into(DataReg::A, add(self.registers.get(Reg::A), v))
    }

    /// SUB.
    #[inline(always)]
    pub(crate) fn subtract(&self, a: Arguments) -> Outcome
        ensures { result ≡ outcome_of Operation.Sub self.now a }
    {
        let v = self.operand(a)?.value();
        self.sum_into(DataReg::A, sub(self.registers.get(Reg::A), v))
    }

    /// MUL.
    #[inline(always)]
    pub(crate) fn multiply(&self, a: Arguments) -> Outcome
        ensures { result ≡ outcome_of Operation.Mul self.now a }
    {
        let v = self.operand(a)?.value();
        Ok(goes_on(pair_into(mul(self.registers.get(Reg::A), v))))
    }

    /// DIV: where there is no quotient the toggle goes on, and rA and rX stay.
    #[inline(always)]
    pub(crate) fn divide(&self, a: Arguments) -> Outcome
        ensures { result ≡ outcome_of Operation.Div self.now a }
    {
        let v = self.operand(a)?.value();
        let (upper, lower) = (self.registers.get(Reg::A), self.registers.get(Reg::X));
        match div(upper, lower, v) {
            Some((quotient, remainder)) => Ok(goes_on(Writes::PairAndToggle(
                quotient, remainder, self.over,
            ))),
            None => Ok(goes_on(Writes::PairAndToggle(upper, lower, true))),
        }
    }

    /// NUM.
    pub(crate) fn to_number(&self, a: Arguments) -> Outcome
        ensures { result ≡ outcome_of Operation.Num self.now a }
    {
        self.sum_into(
            DataReg::A,
            num(self.registers.get(Reg::A), self.registers.get(Reg::X)),
        )
    }

    /// CHAR.
    pub(crate) fn to_characters(&self, a: Arguments) -> Outcome
        ensures { result ≡ outcome_of Operation.Char self.now a }
    {
        Ok(goes_on(pair_into(to_char(self.registers.get(Reg::A), self.registers.get(Reg::X)))))
    }

    /// SLA, SRA, SLAX, SRAX, SLC, SRC; M is not negative.
    #[inline(always)]
    pub(crate) fn shift_registers(&self, kind: ShiftKind, a: Arguments) -> Outcome
        ensures { result ≡ outcome_of (Operation.Shift kind) self.now a }
    {
        if a.m.sign() == Sign::Minus && a.m.magnitude() != 0 {
            return Err(MixFault::NegativeShift);
        }
        let words = shift(
            kind,
            self.registers.get(Reg::A),
            self.registers.get(Reg::X),
            a.m.magnitude(),
        );
        Ok(goes_on(shift_into(kind, words)))
    }
}

// Ten bytes into rA and rX.
fn pair_into(words: (Word, Word)) -> Writes
    ensures { result ≡ pair_into words }
{
    Writes::Pair(words.0, words.1)
}

// Shifted words into their registers: SLA and SRA leave rX alone.
fn shift_into(kind: ShiftKind, words: (Word, Word)) -> Writes
    ensures { result ≡ shift_into kind words }
{
    match kind {
        ShiftKind::Sla | ShiftKind::Sra => Writes::Register(Reg::A, words.0),
        ShiftKind::Slax | ShiftKind::Srax => pair_into(words),
        ShiftKind::Slc | ShiftKind::Src => pair_into(words),
    }
}

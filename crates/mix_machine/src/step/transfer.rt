//! Loads, stores, address transfers and comparisons (1.3.1).
ghost use Rattle.std.specs.Prelude.{◌≡◌, nat_lt};
ghost use Rattle.mix_machine.specs.Registers.{fits_register};
ghost use Rattle.mix_machine.specs.Effects.{goes_on, sum_into};
ghost use Rattle.mix_machine.specs.law.Stages.{outcome_of, fitting_or_fault};

use crate::decode::Arguments;
use crate::fault::MixFault;
use crate::plan::{Effects, Outcome, Writes};
use crate::registers::fits_register;
use crate::world::World;
use mix_word::{DataReg, Operation, Reg, Sign, Word, add, compare, sub};

/// These writes, and on to the next location.
#[inline(always)]
pub(crate) fn goes_on(writes: Writes) -> Effects
    ensures { result ≡ goes_on writes }
{
    Effects {
        writes,
        jumps: false,
    }
}

/// A word into a register, which has to hold it.
#[inline(always)]
pub(crate) fn word_into(r: Reg, word: Word) -> Outcome
    ensures { result ≡ fitting_or_fault (Writes.Register r word) }
{
    if fits_register(r, word) {
        Ok(goes_on(Writes::Register(r, word)))
    } else {
        Err(MixFault::IndexOverflow)
    }
}

// A word into an index register, which holds two bytes.
#[inline(always)]
fn two_bytes_into(r: Reg, word: Word) -> Outcome
    requires index { fits_register r word ≡ nat_lt word.magnitude 4096 }
    ensures { result ≡ fitting_or_fault (Writes.Register r word) }
{
    if word.magnitude() < 4096 {
        Ok(goes_on(Writes::Register(r, word)))
    } else {
        Err(MixFault::IndexOverflow)
    }
}

impl World {
    /// A sum into a register, whose overflow turns the toggle on where the register has five bytes.
    #[inline(always)]
    pub(crate) fn sum_into(&self, r: DataReg, sum: (Word, bool)) -> Outcome
        ensures { result ≡ fitting_or_fault (sum_into r self.now sum) }
    {
        let (word, overflow) = sum;
        let register = r.reg();
        match r {
            DataReg::A | DataReg::X => {
                let over = self.over || overflow;
                Ok(goes_on(Writes::RegisterAndToggle(register, word, over)))
            }
            DataReg::I1 | DataReg::I2 | DataReg::I3 | DataReg::I4 | DataReg::I5 | DataReg::I6 => {
                two_bytes_into(register, word)
            }
        }
    }

    /// LDA, LD1 to LD6, LDX.
    #[inline(always)]
    pub(crate) fn load_register(&self, r: DataReg, a: Arguments) -> Outcome
        ensures { result ≡ outcome_of (Operation.Load r) self.now a }
    {
        let v = self.operand(a)?.value();
        word_into(r.reg(), v)
    }

    /// LDAN, LD1N to LD6N, LDXN.
    #[inline(always)]
    pub(crate) fn load_negated(&self, r: DataReg, a: Arguments) -> Outcome
        ensures { result ≡ outcome_of (Operation.LoadNegated r) self.now a }
    {
        let v = self.operand(a)?.negated_value();
        word_into(r.reg(), v)
    }

    /// STA, ST1 to ST6, STX.
    #[inline(always)]
    pub(crate) fn store_register(&self, r: DataReg, a: Arguments) -> Outcome
        ensures { result ≡ outcome_of (Operation.Store r) self.now a }
    {
        let operand = self.operand(a)?;
        Ok(goes_on(operand.put(self.register(r.reg()))))
    }

    /// STJ.
    #[inline(always)]
    pub(crate) fn store_j(&self, a: Arguments) -> Outcome
        ensures { result ≡ outcome_of Operation.StoreJ self.now a }
    {
        let operand = self.operand(a)?;
        Ok(goes_on(operand.put(self.registers.get(Reg::J))))
    }

    /// STZ.
    #[inline(always)]
    pub(crate) fn store_zero(&self, a: Arguments) -> Outcome
        ensures { result ≡ outcome_of Operation.StoreZero self.now a }
    {
        let operand = self.operand(a)?;
        Ok(goes_on(operand.put(Word::ZERO)))
    }

    /// INCA, INC1 to INC6, INCX.
    #[inline(always)]
    pub(crate) fn increase(&self, r: DataReg, a: Arguments) -> Outcome
        ensures { result ≡ outcome_of (Operation.Increase r) self.now a }
    {
        self.sum_into(r, add(self.register(r.reg()), a.m.word()))
    }

    /// DECA, DEC1 to DEC6, DECX.
    #[inline(always)]
    pub(crate) fn decrease(&self, r: DataReg, a: Arguments) -> Outcome
        ensures { result ≡ outcome_of (Operation.Decrease r) self.now a }
    {
        self.sum_into(r, sub(self.register(r.reg()), a.m.word()))
    }

    /// CMPA, CMP1 to CMP6, CMPX.
    #[inline(always)]
    pub(crate) fn compare_register(&self, r: DataReg, a: Arguments) -> Outcome
        ensures { result ≡ outcome_of (Operation.Compare r) self.now a }
    {
        let operand = self.operand(a)?;
        let cmp = compare(self.register(r.reg()), operand.word, operand.field);
        Ok(goes_on(Writes::Indicator(cmp)))
    }

    /// ENTA, ENT1 to ENT6, ENTX.
    #[inline(always)]
    pub(crate) fn enter(&self, r: DataReg, a: Arguments) -> Outcome
        ensures { result ≡ outcome_of (Operation.Enter r) self.now a }
    {
        word_into(r.reg(), a.m.word())
    }

    /// ENNA, ENN1 to ENN6, ENNX.
    #[inline(always)]
    pub(crate) fn enter_negated(&self, r: DataReg, a: Arguments) -> Outcome
        ensures { result ≡ outcome_of (Operation.EnterNegated r) self.now a }
    {
        word_into(r.reg(), a.m.word().negated())
    }
}

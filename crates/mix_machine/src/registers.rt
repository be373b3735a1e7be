//! The nine registers (1.3.1).
ghost use Rattle.std.specs.Prelude.{◌≡◌};
ghost use Rattle.mix_machine.specs.Registers.{held_in, index_in, with_register, fits_register, blank_registers};

use mix_word::{Reg, Sign, Word};
use std::marker::Model;

/// The registers: rA and rX of five bytes, rI1 to rI6 and rJ of two.
// The word of each register stands at the register's number.
#[derive(Drop)]
pub(crate) struct Registers {
    words: [Word; 9],
}

impl Model for Registers {
    ghost use Rattle.mix_machine.specs.Registers.{RegistersState, registers_in};

    ghost Value = { RegistersState };

    ghost view = { λ r. registers_in r.words };
}

impl Registers {
    /// All of them +0.
    pub(crate) fn blank() -> Registers
        ensures { result ≡ blank_registers }
    {
        Registers {
            words: [Word::ZERO; 9],
        }
    }

    /// The same registers.
    pub(crate) fn copied(&self) -> Registers
        ensures { result ≡ self.now }
    {
        Registers { words: self.words }
    }

    /// What a register holds.
    #[inline(always)]
    #[tactic(auto, using(crate::proofs::RegisterLemmas::register_at))]
    pub(crate) fn get(&self, r: Reg) -> Word
        ensures { result ≡ held_in self.now r }
    {
        self.words[usize::from(r.number())]
    }

    /// What the index register of a number holds, and +0 where there is none of it.
    #[inline(always)]
    #[tactic(auto, using(crate::proofs::RegisterLemmas::index_at))]
    pub(crate) fn index(&self, i: u8) -> Word
        ensures { result ≡ index_in self.now i }
    {
        if 1 <= i && i <= 6 {
            self.words[usize::from(Reg::I1.number() + i - 1)]
        } else {
            Word::ZERO
        }
    }

    /// Puts a word into a register.
    #[inline(always)]
    pub(crate) fn set(&mut self, r: Reg, word: Word)
        ensures { self.new ≡ with_register self.old r word }
    {
        self.words[usize::from(r.number())] = word;
    }
}

/// Whether a register can hold a word: an index register has two bytes, and rJ the sign + besides.
pub(crate) fn fits_register(r: Reg, word: Word) -> bool
    ensures { result ≡ fits_register r word }
{
    match r {
        Reg::A | Reg::X => true,
        Reg::I1 | Reg::I2 | Reg::I3 | Reg::I4 | Reg::I5 | Reg::I6 => word.magnitude() < 4096,
        Reg::J => word.magnitude() < 4096 && word.sign() == Sign::Plus,
    }
}

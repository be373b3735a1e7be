//! A word: a sign and five bytes of 0 to 63 (1.3.1).
ghost use Rattle.std.specs.Prelude.{◌≡◌, ◌<◌, ◌≤◌, ◌/◌, ◌%◌, ◌^◌, IfSome, pos, unsigned_abs};
ghost use Rattle.mix_word.specs.Word.{word, is_same_word, byte_of, negation_of, number_of, natural_of, word_of_number, parts_of, word_of_parts, opposite};

use std::marker::Model;

/// The sign of a word (1.3.1).
#[derive(Clone, Copy, Debug, PartialEq, Eq)]
pub enum Sign {
    Plus,
    Minus,
}

/// What a comparison of two numbers gives, as the comparison indicator has it (1.3.1).
#[derive(Clone, Copy, Debug, PartialEq, Eq)]
pub enum Cmp {
    Less,
    Equal,
    Greater,
}

impl Sign {
    /// The other sign (1.3.1).
    pub fn opposite(self) -> Sign
        ensures { result ≡ opposite self }
    {
        match self {
            Sign::Plus => Sign::Minus,
            Sign::Minus => Sign::Plus,
        }
    }
}

/// A word (1.3.1): a sign and a magnitude of five bytes, below 64^5. +0 and -0 are different words and equal numbers, so words have no
/// order: compare their numbers.
// Bits 0 to 29 are the magnitude, and bit 30 is set where the sign is -.
#[derive(Clone, Copy, PartialEq, Eq)]
pub struct Word {
    bits: u32,
}

// The largest magnitude, of five bytes.
pub(crate) const MAX_MAGNITUDE: u32 = 0x3fff_ffff;

const SIGN_BIT: u32 = 0x4000_0000;

impl Model for Word {
    ghost use Rattle.std.specs.Prelude.{◌<◌, ◌^◌};
    ghost use Rattle.mix_word.specs.Word.{WordValue};

    ghost Value = { WordValue };

    ghost use Rattle.mix_word.specs.Packed.{word_of_bits, bits_of_word};
    ghost use Rattle.std.proofs.Common.{arith};
    ghost use Rattle.std.proofs.lemmas.Bool.Decides.{nat_tests};

    ghost view = { λ w. word_of_bits w.bits };

    ghost invariant = { λ w. w.bits < 2 ^ 31 };

    ghost inverse = { λ v. record { bits = bits_of_word v } };

    ghost inverse_ok = { λ a h. Prim.grind (arith, nat_tests) };
}

/// An instruction word in its parts (1.3.1): the sign, bytes 1 and 2 below 4096, and bytes 3, 4 and 5, each below 64.
#[derive(Clone, Copy)]
pub struct Parts {
    pub sign: Sign,
    pub address: u16,
    pub index: u8,
    pub f: u8,
    pub code: u8,
}

impl Word {
    /// +0 (1.3.1).
    pub const ZERO: Word = Word { bits: 0 };

    /// The word of this sign and magnitude, which is below 64^5 (1.3.1).
    pub fn of(sign: Sign, magnitude: u32) -> Word
        requires { magnitude < 64 ^ 5 }
        ensures { result ≡ word sign magnitude }
    {
        match sign {
            Sign::Plus => Word { bits: magnitude },
            Sign::Minus => Word {
                bits: magnitude + SIGN_BIT,
            },
        }
    }

    /// The sign (1.3.1), of a zero too.
    pub fn sign(self) -> Sign
        ensures { result ≡ self.sign }
    {
        if self.bits < SIGN_BIT {
            Sign::Plus
        } else {
            Sign::Minus
        }
    }

    /// The magnitude, below 64^5 (1.3.1).
    pub fn magnitude(self) -> u32
        ensures is { result ≡ self.magnitude }
        ensures bound { result < 64 ^ 5 }
    {
        self.bits & MAX_MAGNITUDE
    }

    /// Whether two words are the same (1.3.1), as `==` has it: +0 and -0 are not.
    pub fn is_same(self, other: Word) -> bool
        ensures { result ≡ is_same_word self other }
    {
        self.sign() == other.sign() && self.magnitude() == other.magnitude()
    }

    /// Byte `i`, 1 to 5 (1.3.1), from the most significant one on: below 64.
    #[tactic(auto, using(crate::proofs::Powers::byte_by_shift))]
    pub fn byte(self, i: u8) -> u8
        requires low { 1 ≤ i }
        requires high { i ≤ 5 }
        ensures is { result ≡ byte_of self i }
        ensures bound { result < 64 }
    {
        byte_above(self.magnitude(), 6 * u32::from(5 - i))
    }

    /// The word with the other sign (1.3.1): of +0 it is -0.
    pub fn negated(self) -> Word
        ensures { result ≡ negation_of self }
    {
        Word::of(self.sign().opposite(), self.magnitude())
    }

    /// The number that it stands for, whose magnitude is below 64^5 (1.3.1): 0 for both +0 and -0.
    pub fn number(self) -> i32
        ensures is { result ≡ number_of self }
        ensures bound { unsigned_abs result < 64 ^ 5 }
    {
        let magnitude = self.magnitude() as i32;
        match self.sign() {
            Sign::Plus => magnitude,
            Sign::Minus => -magnitude,
        }
    }

    /// The number where it is 0 or more, as that of -0 is, or none (1.3.1).
    #[inline(always)]
    pub fn natural(self) -> Option<u32>
        ensures is { result ≡ natural_of self }
        ensures number { IfSome result (λ n. number_of self ≡ pos n) }
        ensures bound { IfSome result (λ n. n < 64 ^ 5) }
    {
        let magnitude = self.magnitude();
        if self.sign() == Sign::Plus || magnitude == 0 {
            Some(magnitude)
        } else {
            None
        }
    }

    /// The word of a number whose magnitude is below 64^5 (1.3.1): +0 for 0.
    pub fn of_number(n: i32) -> Word
        requires { unsigned_abs n < 64 ^ 5 }
        ensures is { result ≡ word_of_number n }
        ensures number { number_of result ≡ n }
    {
        let sign = if n < 0 { Sign::Minus } else { Sign::Plus };
        Word::of(sign, n.unsigned_abs())
    }

    /// The parts of an instruction word (1.3.1): the sign, bytes 1 and 2 as one number, and bytes 3, 4 and 5.
    pub fn parts(self) -> Parts
        ensures is { result ≡ parts_of self }
        ensures joins { word_of_parts result ≡ self }
        ensures address { result.address < 4096 }
        ensures index { result.index < 64 }
        ensures f { result.f < 64 }
        ensures code { result.code < 64 }
    {
        let m = self.magnitude();
        Parts {
            sign: self.sign(),
            address: (m >> 18) as u16,
            index: byte_above(m, 12),
            f: byte_above(m, 6),
            code: byte_above(m, 0),
        }
    }

    /// The instruction word of these parts (1.3.1), whose address is below 4096 and whose bytes are below 64.
    pub fn join(p: Parts) -> Word
        requires address { p.address < 4096 }
        requires index { p.index < 64 }
        requires f { p.f < 64 }
        requires code { p.code < 64 }
        ensures is { result ≡ word_of_parts p }
        ensures parts { parts_of result ≡ p }
    {
        let address = u32::from(p.address);
        let upper = address << 6 | u32::from(p.index);
        let magnitude = (upper << 6 | u32::from(p.f)) << 6 | u32::from(p.code);
        Word::of(p.sign, magnitude)
    }
}

// The six bits of `m` above the lowest `shift`.
fn byte_above(m: u32, shift: u32) -> u8
    requires { shift < 32 }
    ensures is { result ≡ m / 2 ^ shift % 64 }
    ensures bound { result < 64 }
{
    ((m >> shift) & 63) as u8
}

//! The address M of an instruction (1.3.1): the sum of its AA and an index register.
ghost use Rattle.std.specs.Prelude.{◌≡◌, ◌<◌, ◌↔◌, IsTrue, IsSome, IfSome};
ghost use Rattle.mix_word.specs.Prelude.{word, zero_word, sum_of};
ghost use Rattle.mix_machine.specs.Decode.{is_cell};

use mix_word::{Place, Sign, Word};
use std::marker::Model;

/// M: a sign and a magnitude below 8192.
#[derive(Clone, Copy)]
pub(crate) struct Address {
    sign: Sign,
    magnitude: u16,
}

impl Model for Address {
    ghost use Rattle.std.specs.Prelude.{◌<◌, refl};
    ghost use Rattle.mix_word.specs.Word.{WordValue, word};

    ghost Value = { WordValue };

    ghost view = { λ a. word a.sign a.magnitude };

    ghost invariant = { λ a. a.magnitude < 8192 };

    ghost inverse = { λ v. record { sign = v.sign; magnitude = v.magnitude } };

    ghost inverse_ok = { λ a h. refl };
}

impl Address {
    /// An address by itself, as the sum of it and no index register.
    #[inline(always)]
    pub(crate) fn of(sign: Sign, address: u16) -> Address
        requires { address < 4096 }
        ensures is { result ≡ (sum_of (word sign address) zero_word).0 }
        ensures bound { result.magnitude < 4096 }
    {
        Address {
            sign,
            magnitude: address,
        }
    }

    /// The sum of an address and an index register; a zero sum has the sign of the address.
    #[inline(always)]
    pub(crate) fn add(sign: Sign, address: u16, index: Word) -> Address
        requires address { address < 4096 }
        requires index { index.magnitude < 4096 }
        ensures { result ≡ (sum_of (word sign address) index).0 }
    {
        let by = index.magnitude() as u16;
        if sign == index.sign() {
            Address {
                sign,
                magnitude: address + by,
            }
        } else if by <= address {
            Address {
                sign,
                magnitude: address - by,
            }
        } else {
            Address {
                sign: index.sign(),
                magnitude: by - address,
            }
        }
    }

    /// The sign.
    #[inline(always)]
    pub(crate) fn sign(self) -> Sign
        ensures { result ≡ self.sign }
    {
        self.sign
    }

    /// The magnitude, below 8192.
    #[inline(always)]
    pub(crate) fn magnitude(self) -> u16
        ensures is { result ≡ self.magnitude }
        ensures bound { result < 8192 }
    {
        self.magnitude
    }

    /// The word of this sign and magnitude.
    #[inline(always)]
    pub(crate) fn word(self) -> Word
        ensures { result ≡ self }
    {
        Word::of(self.sign, u32::from(self.magnitude))
    }

    /// The cell of this number, if there is one.
    #[inline(always)]
    pub(crate) fn place(self) -> Option<Place>
        ensures valid { IsSome result ↔ IsTrue (is_cell self) }
        ensures value { IfSome result (λ p. p ≡ self.magnitude) }
    {
        match self.word().natural() {
            Some(number) => Place::of(number as u16),
            None => None,
        }
    }
}

//! How words are written: the sign, and each byte as two digits after a blank. Operations and registers are written by name,
//! and locations in four digits.
ghost use Rattle.std.specs.Prelude.{Some, ◌≡◌, ◌<◌, ◌≤◌};
ghost use Rattle.mix_word.specs.Prelude.{byte_of, name_of, name_of_register};
ghost use Rattle.mix_word.specs.Text.{sign_text, byte_text, location_text, word_text, short_text};

use crate::operation::Operation;
use crate::register::Reg;
use crate::word::{Sign, Word};
use std::fmt;

/// A word of which only the sign and bytes 4 and 5 are written, as of an index register (1.3.1): `+ 02 36`.
#[derive(Clone, Copy)]
pub struct Short(pub Word);

impl fmt::Display for Sign {
    ghost output = { λ s. Some (sign_text s) };

    fn fmt<W: fmt::Write>(&self, f: &mut fmt::Formatter<W>) -> fmt::Result {
        match self {
            Sign::Plus => f.write_str("+"),
            Sign::Minus => f.write_str("-"),
        }
    }
}

/// A location, or the number of a cell, in four digits: `0042`.
#[derive(Clone, Copy)]
pub struct Location(pub u16);

impl fmt::Display for Location {
    ghost output = { λ l. Some (location_text l.0) };

    #[tactic(auto, unfolding(crate::specs::Text::location_text))]
    fn fmt<W: fmt::Write>(&self, f: &mut fmt::Formatter<W>) -> fmt::Result {
        let n = self.0;
        let (thousands, hundreds, tens, ones) = (n / 1000, n / 100 % 10, n / 10 % 10, n % 10);
        write!(f, "{thousands}{hundreds}{tens}{ones}")
    }
}

// A byte as a blank and two digits.
#[derive(Clone, Copy)]
struct Byte {
    value: u8,
    ghost two_digits: { value < 100 },
}

#[tactic(auto, using(std::proofs::lemmas::Fmt::decimal_digit))]
impl fmt::Display for Byte {
    ghost output = { λ b. Some (byte_text b.value) };

    fn fmt<W: fmt::Write>(&self, f: &mut fmt::Formatter<W>) -> fmt::Result {
        let (tens, units) = (self.value / 10, self.value % 10);
        write!(f, " {tens}{units}")
    }
}

fn digits_of(w: Word, i: u8) -> Byte
    requires low { 1 ≤ i }
    requires high { i ≤ 5 }
    ensures { result.value ≡ byte_of w i }
{
    Byte { value: w.byte(i) }
}

/// The sign and five bytes: `- 01 16 03 05 04`.
impl fmt::Display for Word {
    ghost output = { λ w. Some (word_text w) };

    #[tactic(auto, using(crate::proofs::TextLemmas::pieces), unfolding(crate::specs::Text::word_text))]
    fn fmt<W: fmt::Write>(&self, f: &mut fmt::Formatter<W>) -> fmt::Result {
        let w = *self;
        let (a, b, c, d, e) = (
            digits_of(w, 1),
            digits_of(w, 2),
            digits_of(w, 3),
            digits_of(w, 4),
            digits_of(w, 5),
        );
        write!(f, "{}{a}{b}{c}{d}{e}", w.sign())
    }
}

/// The same text: the bytes, and not the bits inside.
impl fmt::Debug for Word {
    ghost debug_output = { λ w. Some (word_text w) };

    fn fmt<W: fmt::Write>(&self, f: &mut fmt::Formatter<W>) -> fmt::Result {
        fmt::Display::fmt(self, f)
    }
}

/// The sign and bytes 4 and 5.
impl fmt::Display for Short {
    ghost output = { λ w. Some (short_text w.0) };

    #[tactic(auto, using(crate::proofs::TextLemmas::pieces), unfolding(crate::specs::Text::short_text))]
    fn fmt<W: fmt::Write>(&self, f: &mut fmt::Formatter<W>) -> fmt::Result {
        let w = self.0;
        let (d, e) = (digits_of(w, 4), digits_of(w, 5));
        write!(f, "{}{d}{e}", w.sign())
    }
}

/// The name.
impl fmt::Display for Operation {
    ghost output = { λ op. Some (name_of op) };

    fn fmt<W: fmt::Write>(&self, f: &mut fmt::Formatter<W>) -> fmt::Result {
        f.write_str(self.name())
    }
}

/// The name.
impl fmt::Display for Reg {
    ghost output = { λ r. Some (name_of_register r) };

    fn fmt<W: fmt::Write>(&self, f: &mut fmt::Formatter<W>) -> fmt::Result {
        f.write_str(self.name())
    }
}

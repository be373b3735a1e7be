//! A word as a line of MIXAL gives it (1.3.1, 1.3.2): the instruction that it is, or else the constant.
ghost use Rattle.std.specs.Prelude.{◌≡◌, Some};
ghost use Rattle.mix_word.specs.Instruction.{number_text, signed_text, other_f, form_of, f_text, index_text, address_text, after_name, instruction_text};

use crate::decoding::{Decoded, decode};
use crate::field::Field;
use crate::operation::Operation;
use crate::uses::{UNITS, Uses};
use crate::word::{Parts, Sign, Word};
use std::fmt;

/// The number of a word, in decimal (1.3.1): that of -0 is `-0`.
#[derive(Clone, Copy)]
pub struct Number(pub Word);

impl fmt::Display for Number {
    ghost output = { λ n. Some (number_text n.0) };

    #[tactic(auto, unfolding(crate::specs::Instruction::number_text))]
    fn fmt<W: fmt::Write>(&self, f: &mut fmt::Formatter<W>) -> fmt::Result {
        let number = Signed(self.0.sign(), self.0.magnitude());
        write!(f, "{number}")
    }
}

// A magnitude with its sign.
#[derive(Clone, Copy)]
struct Signed(Sign, u32);

impl fmt::Display for Signed {
    ghost output = { λ s. Some (signed_text s.0 s.1) };

    fn fmt<W: fmt::Write>(&self, f: &mut fmt::Formatter<W>) -> fmt::Result {
        let magnitude = self.1;
        match self.0 {
            Sign::Plus => write!(f, "{magnitude}"),
            Sign::Minus => write!(f, "-{magnitude}"),
        }
    }
}

/// The F of an instruction as it is written after the address (1.3.2): nothing where it is the normal one of the operation, a
/// number, or a field.
#[derive(Clone, Copy)]
pub(crate) enum FPart {
    Normal,
    Number(u8),
    Field(Field),
}

impl fmt::Display for FPart {
    ghost output = { λ part. Some (f_text part) };

    fn fmt<W: fmt::Write>(&self, f: &mut fmt::Formatter<W>) -> fmt::Result {
        match self {
            FPart::Normal => Ok(()),
            FPart::Number(number) => write!(f, "({number})"),
            FPart::Field(field) => {
                let (left, right) = (field.left(), field.right());
                write!(f, "({left}:{right})")
            }
        }
    }
}

// How an F other than the normal one is written.
fn other_f(uses: Uses, f: u8) -> Option<FPart>
    ensures { result ≡ other_f uses f }
{
    match uses {
        Uses::Nothing | Uses::Cells => Some(FPart::Number(f)),
        Uses::FAlone | Uses::Address | Uses::Count => None,
        Uses::Operand => Field::of(f).map(FPart::Field),
        Uses::Unit(_) => {
            if f < UNITS {
                Some(FPart::Number(f))
            } else {
                None
            }
        }
    }
}

// The operation that an instruction names, and how its F is written.
#[tactic(auto, unfolding(crate::specs::Instruction::form_of))]
fn form_of(p: Parts) -> Option<(Operation, FPart)>
    ensures { result ≡ form_of p }
{
    if p.index > 6 {
        return None;
    }
    match decode(p.code, p.f) {
        Decoded::Named(op) => {
            let part = if op.normal_f() == p.f {
                FPart::Normal
            } else {
                other_f(op.uses(), p.f)?
            };
            Some((op, part))
        }
        Decoded::Floating | Decoded::Unknown => None,
    }
}

// The index, where there is one.
#[derive(Clone, Copy)]
struct Index(u8);

impl fmt::Display for Index {
    ghost output = { λ i. Some (index_text i.0) };

    fn fmt<W: fmt::Write>(&self, f: &mut fmt::Formatter<W>) -> fmt::Result {
        let index = self.0;
        if index == 0 {
            Ok(())
        } else {
            write!(f, ",{index}")
        }
    }
}

// The address, the index and the F of an instruction.
#[derive(Clone, Copy)]
struct Address(Parts, FPart);

impl fmt::Display for Address {
    ghost output = { λ a. Some (address_text a.0 a.1) };

    #[tactic(auto, unfolding(crate::specs::Instruction::address_text))]
    fn fmt<W: fmt::Write>(&self, f: &mut fmt::Formatter<W>) -> fmt::Result {
        let address = Signed(self.0.sign, u32::from(self.0.address));
        let (index, part) = (Index(self.0.index), self.1);
        write!(f, "{address}{index}{part}")
    }
}

// What follows the name of an operation.
#[derive(Clone, Copy)]
struct AfterName(Operation, Parts, FPart);

impl fmt::Display for AfterName {
    ghost output = { λ a. Some (after_name a.0 a.1 a.2) };

    fn fmt<W: fmt::Write>(&self, f: &mut fmt::Formatter<W>) -> fmt::Result {
        let (op, p, part) = (self.0, self.1, self.2);
        let has_address = op.needs_address() || p.sign == Sign::Minus || p.address != 0;
        if has_address || p.index != 0 || !matches!(part, FPart::Normal) {
            let address = Address(p, part);
            write!(f, " {address}")
        } else {
            Ok(())
        }
    }
}

/// A word as a line of MIXAL gives it, from the operation on (1.3.2): `LDA 2000,2(0:3)`, or `CON` and its number where it is no
/// instruction of MIX.
#[derive(Clone, Copy)]
pub struct Instruction(pub Word);

impl fmt::Display for Instruction {
    ghost output = { λ i. Some (instruction_text i.0) };

    #[tactic(auto, unfolding(crate::specs::Instruction::instruction_text))]
    fn fmt<W: fmt::Write>(&self, f: &mut fmt::Formatter<W>) -> fmt::Result {
        let parts = self.0.parts();
        match form_of(parts) {
            Some((op, part)) => {
                let after = AfterName(op, parts, part);
                write!(f, "{op}{after}")
            }
            None => {
                let number = Number(self.0);
                write!(f, "CON {number}")
            }
        }
    }
}

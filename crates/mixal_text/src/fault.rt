//! The faults of a text's parts: a number and a text each.
ghost use Rattle.std.specs.Prelude.{◌≡◌, Some};
ghost use Rattle.mixal_text.specs.Fault.{fault_number, fault_text, fault_line};

use std::fmt;

/// Why a line, an expression, a W-value or an address is refused (1.3.2), in the order of the numbers.
#[derive(Clone, Copy, Debug, PartialEq, Eq)]
pub enum TextFault {
    /// A1: a byte that is no MIX character.
    BadByte,
    /// A2: OP names no operation.
    NoSuchOperation,
    /// A3: LOC is no symbol, or a symbol is too long or has no value.
    BadSymbol,
    /// A5: an atom is missing, or something is left over.
    BadExpression,
    /// A6: a number of more than ten digits, or one that no word holds.
    NumberTooLarge,
    /// A7: a symbol that is not defined.
    UndefinedSymbol,
    /// A8: a sum that overflows, or a quotient that is none.
    ExpressionOverflow,
    /// A10: an index over 6, an F over 63, or an F that is no field.
    PartOutOfRange,
    /// A12: a quoted ALF that does not end, or has more than five characters.
    BadAlf,
    /// A14: dB with no earlier dH.
    NoSuchLocalSymbol,
}

impl TextFault {
    /// The number after the letter A: 1, 2, 3, 5, 6, 7, 8, 10, 12 or 14.
    pub fn number(self) -> u8
        ensures { result ≡ fault_number self }
    {
        match self {
            TextFault::BadByte => 1,
            TextFault::NoSuchOperation => 2,
            TextFault::BadSymbol => 3,
            TextFault::BadExpression => 5,
            TextFault::NumberTooLarge => 6,
            TextFault::UndefinedSymbol => 7,
            TextFault::ExpressionOverflow => 8,
            TextFault::PartOutOfRange => 10,
            TextFault::BadAlf => 12,
            TextFault::NoSuchLocalSymbol => 14,
        }
    }

    /// The words after the number.
    pub fn text(self) -> &'static str
        ensures { result.now ≡ fault_text self }
    {
        match self {
            TextFault::BadByte => "bad byte",
            TextFault::NoSuchOperation => "no such operation",
            TextFault::BadSymbol => "bad symbol",
            TextFault::BadExpression => "bad expression",
            TextFault::NumberTooLarge => "number too large",
            TextFault::UndefinedSymbol => "undefined symbol",
            TextFault::ExpressionOverflow => "overflow in expression",
            TextFault::PartOutOfRange => "index, field or F out of range",
            TextFault::BadAlf => "bad ALF",
            TextFault::NoSuchLocalSymbol => "no such local symbol",
        }
    }
}

/// `A2 no such operation`.
impl fmt::Display for TextFault {
    ghost output = { λ fault. Some (fault_line fault) };

    fn fmt<W: fmt::Write>(&self, f: &mut fmt::Formatter<W>) -> fmt::Result {
        write!(f, "A{} {}", self.number(), self.text())
    }
}

//! The faults of a source: a number and a text each, and the line of the source.
ghost use Rattle.std.specs.Prelude.{◌≡◌, Some};
ghost use Rattle.mix_refused.specs.declared.refused.Refused.TheVariants.{Fault};
ghost use Rattle.mixal_asm.specs.Fault.{kind_number, kind_text, kind_line, asm_fault_line};
ghost use Rattle.mixal_asm.specs.Place.{kind_line_number, kind_span};

use mix_refused::Refused;
use mixal_text::{Misread, Mnemonic, Part, Span, line_op, part_span};
use std::fmt;

/// Why a source is refused (1.3.2), in the order of the numbers, but for those of a line's text, which come first here.
#[derive(Clone, Copy)]
pub enum AsmKind {
    /// A1 to A3, A5 to A8, A10, A12, A14: a fault of a line's text, with its bytes.
    Text(Misread),
    /// A5 to A8, A10, A14 at END: a fault of a literal, or A14, a dF that no dH meets, with the line that uses it first.
    Inserted { line: u32, misread: Misread },
    /// A4: a symbol that a line before has defined.
    DefinedTwice,
    /// A9: an address whose magnitude is 4096 or more, at the line of the instruction, or of the name that it waits for.
    AddressTooLarge,
    /// A11: a word at location 4000, or an ORIG that is not 0 to 4000.
    LocationOutOfRange,
    /// A13: no line is END. The line after the last one is reported.
    NoEnd,
    /// A15: a start that is not 0 to 3999.
    StartOutOfRange,
    /// A16: over 1,048,576 bytes, reported at line 1, or over 20,000 lines, reported at line 20,001.
    SourceTooLong,
}

impl AsmKind {
    /// The number after the letter A, 1 to 16.
    pub fn number(self) -> u8
        ensures { result ≡ kind_number self }
    {
        match self {
            AsmKind::Text(misread) => misread.fault.number(),
            AsmKind::Inserted { misread, .. } => misread.fault.number(),
            AsmKind::DefinedTwice => 4,
            AsmKind::AddressTooLarge => 9,
            AsmKind::LocationOutOfRange => 11,
            AsmKind::NoEnd => 13,
            AsmKind::StartOutOfRange => 15,
            AsmKind::SourceTooLong => 16,
        }
    }

    /// The words after the number.
    pub fn text(self) -> &'static str
        ensures { result.now ≡ kind_text self }
    {
        match self {
            AsmKind::Text(misread) => misread.fault.text(),
            AsmKind::Inserted { misread, .. } => misread.fault.text(),
            AsmKind::DefinedTwice => "defined twice",
            AsmKind::AddressTooLarge => "address beyond two bytes",
            AsmKind::LocationOutOfRange => "location outside 0 to 3999",
            AsmKind::NoEnd => "no END",
            AsmKind::StartOutOfRange => "start outside 0 to 3999",
            AsmKind::SourceTooLong => "source too long",
        }
    }
}

impl From<AsmKind> for Refused<AsmKind> {
    ghost from_gives = { λ kind refused. refused ≡ Fault kind };

    fn from(kind: AsmKind) -> Refused<AsmKind> {
        Refused::Fault(kind)
    }
}

/// `A13 no END`.
impl fmt::Display for AsmKind {
    ghost output = { λ kind. Some (kind_line kind) };

    fn fmt<W: fmt::Write>(&self, f: &mut fmt::Formatter<W>) -> fmt::Result {
        write!(f, "A{} {}", self.number(), self.text())
    }
}

/// A fault of a source, at its line, counted from 1, and at the bytes of the line that it is about; A13 and A16 are about none.
#[derive(Clone, Copy)]
pub struct AsmFault {
    pub line: u32,
    pub at: Option<Span>,
    pub kind: AsmKind,
}

impl AsmFault {
    /// A fault of a line with this text.
    pub(crate) fn of(line: u32, text: &[u8], kind: AsmKind) -> AsmFault
        ensures { result ≡ record { line = line; at = kind_span text.now kind; kind = kind } }
    {
        let at = match kind {
            AsmKind::Text(misread) | AsmKind::Inserted { misread, .. } => Some(misread.at),
            AsmKind::DefinedTwice => Some(part_span(text, Part::Label)),
            AsmKind::AddressTooLarge | AsmKind::StartOutOfRange => {
                Some(part_span(text, Part::Address))
            }
            AsmKind::LocationOutOfRange => match line_op(text) {
                Ok(Mnemonic::Orig) => Some(part_span(text, Part::Address)),
                _ => Some(part_span(text, Part::Operation)),
            },
            AsmKind::NoEnd | AsmKind::SourceTooLong => None,
        };
        AsmFault { line, at, kind }
    }

    /// The line that it is about: its own, or of what END meets that which uses it first.
    pub(crate) fn line_about(self) -> u32
        ensures { result ≡ kind_line_number self.line self.kind }
    {
        match self.kind {
            AsmKind::Inserted { line, .. } => line,
            _ => self.line,
        }
    }
}

/// `line 2: A13 no END`.
impl fmt::Display for AsmFault {
    ghost output = { λ fault. Some (asm_fault_line fault) };

    fn fmt<W: fmt::Write>(&self, f: &mut fmt::Formatter<W>) -> fmt::Result {
        write!(f, "line {}: {}", self.line, self.kind)
    }
}

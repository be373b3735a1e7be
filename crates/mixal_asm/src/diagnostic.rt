//! What there is to say of a source: a fault, or a warning of what is allowed and hardly meant.
ghost use Rattle.std.specs.Prelude.{◌≡◌};
ghost use Rattle.mixal_asm.specs.Place.{warning_part};
ghost use Rattle.mixal_asm.specs.Diagnose.{warning_name, warning_subject, warning_text};

use crate::fault::AsmKind;
use mixal_text::{Part, Slip, Span, Symbol};

/// What is allowed in a source and hardly meant (1.3.2).
#[derive(Drop)]
pub enum Warning {
    /// The first use of a symbol that is the LOC of no line, so that END makes a cell of 0 for it.
    UndefinedSymbol(Symbol),
    /// A slip of the line.
    Slip(Slip),
    /// The first line behind END that reads as if it belonged to the program.
    BehindEnd,
}

/// A fault, or a warning.
#[derive(Drop)]
pub enum Finding {
    Fault(AsmKind),
    Warning(Warning),
}

/// What there is to say of a line of a source (1.3.2), by its number, counted from 1, and the bytes of the line that it is about,
/// if it is about some.
#[derive(Drop)]
pub struct Diagnostic {
    pub line: u32,
    pub at: Option<Span>,
    pub finding: Finding,
}

impl Warning {
    /// The name by which it is known, as `undefined-symbol`.
    pub fn name(&self) -> &'static str
        ensures { result.now ≡ warning_name self.now }
    {
        match self {
            Warning::UndefinedSymbol(_) => "undefined-symbol",
            Warning::Slip(slip) => match slip {
                Slip::OperationAsLabel => "operation-as-label",
                Slip::NoLabel => "no-label",
                Slip::AlfCut => "alf-cut",
                Slip::AlfShort => "alf-short",
                Slip::BlankInAddress => "blank-in-address",
                Slip::NoField => "no-field",
                Slip::WrongUnit => "wrong-unit",
                Slip::NoCell => "no-cell",
                Slip::NegativeShift => "negative-shift",
            },
            Warning::BehindEnd => "behind-end",
        }
    }

    /// The symbol that it is about, with which its text begins, or nothing.
    pub fn subject(&self) -> &[u8]
        ensures { result.now ≡ warning_subject self.now }
    {
        match self {
            Warning::UndefinedSymbol(symbol) => symbol.name(),
            Warning::Slip(_) | Warning::BehindEnd => &[],
        }
    }

    /// Its text after that.
    pub fn text(&self) -> &'static str
        ensures { result.now ≡ warning_text self.now }
    {
        match self {
            Warning::UndefinedSymbol(_) => " is defined nowhere: END makes a cell of 0 for it",
            Warning::Slip(slip) => match slip {
                Slip::OperationAsLabel => {
                    "the label is the name of an operation: if that is meant, begin the line with a blank"
                }
                Slip::NoLabel => "EQU without a label defines nothing",
                Slip::AlfCut => {
                    "ALF takes five characters, and its text has more of them, or begins later"
                }
                Slip::AlfShort => "ALF takes five characters: what is missing becomes blanks",
                Slip::BlankInAddress => "a blank ends the address: what follows is a remark",
                Slip::NoField => "the operation takes no such F: the machine will refuse the step",
                Slip::WrongUnit => "the unit cannot do this: the machine will refuse the step",
                Slip::NoCell => {
                    "the cells are 0 to 3999: the machine will refuse the step, or the jump"
                }
                Slip::NegativeShift => {
                    "a shift by a negative number: the machine will refuse the step"
                }
            },
            Warning::BehindEnd => "this stands behind END and is not read",
        }
    }
}

/// The part of its line that a warning is about.
pub(crate) fn warning_part(warning: &Warning) -> Part
    ensures { result ≡ warning_part warning.now }
{
    match warning {
        Warning::UndefinedSymbol(_) => Part::APart,
        Warning::Slip(slip) => match slip {
            Slip::OperationAsLabel => Part::Label,
            Slip::NoLabel => Part::Operation,
            Slip::AlfCut | Slip::AlfShort | Slip::BlankInAddress => Part::Address,
            Slip::NoField | Slip::WrongUnit => Part::FPart,
            Slip::NoCell | Slip::NegativeShift => Part::APart,
        },
        Warning::BehindEnd => Part::Statement,
    }
}

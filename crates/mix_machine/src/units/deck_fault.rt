//! The faults of a deck, in the order of their numbers.
ghost use Rattle.std.specs.Prelude.{◌≡◌, Some};
ghost use Rattle.mix_machine.specs.units.deck.Fault.{deck_number, deck_text, deck_kind_text, deck_fault_text};

use std::fmt;

/// Why a deck is refused: K1 to K9, in the order of their numbers.
#[derive(Clone, Copy, Debug, PartialEq, Eq)]
pub enum DeckKind {
    BadHeader,
    UnitGivenTwice,
    LineTooLong,
    NoMixCharacter,
    BadWord,
    PartOfBlock,
    NoInput,
    TooManyBlocks,
    DeckTooLong,
}

impl DeckKind {
    /// The number after the letter K, 1 to 9.
    pub fn number(self) -> u8
        ensures { result ≡ deck_number self }
    {
        self as u8 + 1
    }

    /// The words after the number.
    pub fn text(self) -> &'static str
        ensures { result.now ≡ deck_text self }
    {
        match self {
            DeckKind::BadHeader => "bad header",
            DeckKind::UnitGivenTwice => "unit given twice",
            DeckKind::LineTooLong => "line too long",
            DeckKind::NoMixCharacter => "no MIX character",
            DeckKind::BadWord => "bad word",
            DeckKind::PartOfBlock => "part of a block",
            DeckKind::NoInput => "unit takes no input",
            DeckKind::TooManyBlocks => "too many blocks",
            DeckKind::DeckTooLong => "deck too long",
        }
    }
}

impl fmt::Display for DeckKind {
    ghost output = { λ kind. Some (deck_kind_text kind) };

    fn fmt<W: fmt::Write>(&self, f: &mut fmt::Formatter<W>) -> fmt::Result {
        write!(f, "K{} {}", self.number(), self.text())
    }
}

/// The first fault of a deck, at its line, counted from 1.
#[derive(Clone, Copy, Debug, PartialEq, Eq)]
pub struct DeckFault {
    pub line: u32,
    pub kind: DeckKind,
}

impl fmt::Display for DeckFault {
    ghost output = { λ fault. Some (deck_fault_text fault) };

    fn fmt<W: fmt::Write>(&self, f: &mut fmt::Formatter<W>) -> fmt::Result {
        let DeckFault { line, kind } = self;
        write!(f, "line {line}: {kind}")
    }
}

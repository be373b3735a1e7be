//! The lines of a deck, read one after the other into the units.
ghost use Rattle.std.specs.Prelude.{◌≡◌, ◌<◌, ◌^◌, IfOk, IfSome, MatchResult, Ok, Err};
ghost use Rattle.mix_lines.specs.Lines.{words};
ghost use Rattle.mix_machine.specs.units.deck.Deck.{Gives, nothing_read, no_line_read, reads_nothing, end_unit, begin_unit, header_line, blank_or, line_below, line_read, kind_at};

mod unit_line;

use crate::units::Units;
use crate::units::deck::header::{Header, header_of, is_header};
use crate::units::deck_fault::DeckKind;
use crate::units::kind::UnitKind;
use crate::units::number::UnitNo;
use mix_lines::next_word;
use mix_word::Word;
use std::alloc::Global;
use std::marker::Model;
use std::mem;
use undo_core::{Memory, Refused};

/// What is read of a deck so far: the units, up to the last header; the unit of that header; the words read for it; and of each unit
/// whether a header named it.
#[derive(Drop)]
pub(crate) struct Reader {
    alloc: Global,
    units: Units,
    unit: Option<UnitNo>,
    words: Vec<Word>,
    given: [bool; UnitNo::COUNT],
}

impl Model for Reader {
    ghost use Rattle.mix_machine.specs.units.deck.Deck.{Reading, IsReading};

    ghost Value = { Reading };

    ghost use Rattle.mix_machine.specs.units.deck.ReaderView.{reading_of};

    ghost view = { reading_of };

    ghost invariant = { λ r. IsReading (reading_of r) };
}

impl Reader {
    /// Nothing read.
    pub(crate) fn new(alloc: Global) -> Result<Reader, Memory>
        ensures { IfOk result (λ r. r ≡ nothing_read) }
    {
        let units = Units::empty(alloc)?;
        Ok(Reader {
            alloc,
            units,
            unit: None,
            words: Vec::new(alloc),
            given: [false; UnitNo::COUNT],
        })
    }

    /// No line read for a unit, of units that are there.
    pub(crate) fn of_unit(alloc: Global, units: Units, unit: UnitNo) -> Reader
        ensures { result ≡ no_line_read units unit }
    {
        Reader {
            alloc,
            units,
            unit: Some(unit),
            words: Vec::new(alloc),
            given: [false; UnitNo::COUNT],
        }
    }

    /// Reads a line, which is a header only in a text that has them.
    #[tactic(auto, unfolding(crate::specs::units::deck::Deck::line_read))]
    pub(crate) fn line(&mut self, text: &[u8], headers: bool) -> Result<(), Refused<DeckKind>>
        ensures { Gives (line_read headers self.old text.now) self.new result }
    {
        if headers && is_header(text) {
            return match self.header_line(text) {
                Ok(()) => Ok(()),
                Err(kind) => Err(Refused::Fault(kind)),
            };
        }
        match self.unit {
            None => match self.blank_or(DeckKind::BadHeader, text) {
                Ok(()) => Ok(()),
                Err(kind) => Err(Refused::Fault(kind)),
            },
            Some(unit) => {
                let kind = self.units.unit(unit).kind();
                self.line_of_unit(kind, text)
            }
        }
    }

    /// Ends the last unit, and gives the units.
    pub(crate) fn finish(self) -> Result<Units, DeckKind>
        ensures { MatchResult result (λ us. end_unit self.units self.unit self.words ≡ Ok us) (λ k. end_unit self.units self.unit self.words ≡ Err k) }
    {
        let mut reader = self;
        match reader.end_unit() {
            Err(kind) => Err(kind),
            Ok(()) => Ok(reader.units),
        }
    }

    // A header ends the unit before it and begins another.
    fn header_line(&mut self, text: &[u8]) -> Result<(), DeckKind>
        ensures { MatchResult result (λ _. header_line self.old text.now ≡ Ok self.new) (λ k. header_line self.old text.now ≡ Err k) }
    {
        match self.end_unit() {
            Err(kind) => Err(kind),
            Ok(()) => self.begin_unit(header_of(text)),
        }
    }

    // The words of a unit become its blocks, each of which has to be whole.
    fn end_unit(&mut self) -> Result<(), DeckKind>
        ensures ended { MatchResult result (λ _. end_unit self.old.units self.old.unit self.old.words ≡ Ok self.new.units) (λ k. end_unit self.old.units self.old.unit self.old.words ≡ Err k) }
        ensures given { self.new.given ≡ self.old.given }
    {
        match self.unit {
            None => Ok(()),
            Some(unit) => {
                let length = usize::from(self.units.unit(unit).kind().block_length());
                if self.words.len() % length != 0 {
                    return Err(DeckKind::PartOfBlock);
                }
                let words = mem::replace(&mut self.words, Vec::new(self.alloc));
                self.units.fill(unit, words);
                Ok(())
            }
        }
    }

    // A header begins a unit, which no header named before.
    fn begin_unit(&mut self, header: Option<Header>) -> Result<(), DeckKind>
        requires { IfSome header (λ h. IfSome h.delay (λ t. t < 10 ^ 18)) }
        ensures { MatchResult result (λ _. begin_unit self.old.units self.old.given header ≡ Ok self.new) (λ k. begin_unit self.old.units self.old.given header ≡ Err k) }
    {
        match header {
            None => Err(DeckKind::BadHeader),
            Some(header) => {
                let index = usize::from(header.unit.number());
                if self.given[index] {
                    return Err(DeckKind::UnitGivenTwice);
                }
                if reads_nothing(self.units.unit(header.unit).kind()) && header.delay.is_none() {
                    return Err(DeckKind::NoInput);
                }
                self.units.set_delay(header.unit, header.delay.unwrap_or(0));
                self.unit = Some(header.unit);
                self.words.clear();
                self.given[index] = true;
                Ok(())
            }
        }
    }

    // A blank line is nothing; another has a fault.
    fn blank_or(&self, kind: DeckKind, text: &[u8]) -> Result<(), DeckKind>
        ensures { MatchResult result (λ _. blank_or kind self.now (words text.now) ≡ Ok self.now) (λ k. blank_or kind self.now (words text.now) ≡ Err k) }
    {
        match next_word(text) {
            None => Ok(()),
            Some(_) => Err(kind),
        }
    }
}

// Whether a unit reads nothing.
fn reads_nothing(kind: UnitKind) -> bool
    ensures { result ≡ reads_nothing kind }
{
    match kind {
        UnitKind::CardPunch | UnitKind::Printer => true,
        UnitKind::Tape | UnitKind::Disk | UnitKind::CardReader => false,
        UnitKind::Typewriter | UnitKind::PaperTape => false,
    }
}

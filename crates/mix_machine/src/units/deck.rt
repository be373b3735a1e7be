//! The deck: what the units hold before the first step.
ghost use Rattle.std.specs.Prelude.{◌≡◌, ◌≤◌, length};
ghost use Rattle.mix_lines.specs.Lines.{lines};
ghost use Rattle.mix_machine.specs.units.deck.Deck.{deck_of, cards_of, typewriter_of, text_of_unit, lines_from, max_deck_bytes, Reads};

pub(crate) mod block;
pub(crate) mod header;
pub(crate) mod reader;

use crate::units::Units;
use crate::units::deck::reader::Reader;
use crate::units::deck_fault::{DeckFault, DeckKind};
use crate::units::number::UnitNo;
use mix_lines::split_line;
use std::alloc::Global;
use undo_core::{Memory, Refused};

/// The most bytes that a deck may have.
pub const MAX_DECK_BYTES: usize = 33_554_432;

impl Units {
    /// The units that a deck fills, each at its first block; those that it does not name stay empty. Its first fault is reported at its line,
    /// counted from 1: K9, over 33,554,432 bytes, before all else and at line 1, and K6 of the last unit at the line after the last one.
    /// `Memory` where there is no room for what it holds.
    #[tactic(auto, unfolding(crate::specs::units::deck::Deck::deck_of))]
    pub fn read(alloc: Global, deck: &[u8]) -> Result<Units, Refused<DeckFault>>
        ensures { Reads (deck_of deck.now) result }
    {
        if deck.len() > MAX_DECK_BYTES {
            return Err(fault_at(1, DeckKind::DeckTooLong));
        }
        match Reader::new(alloc) {
            Ok(reader) => read_lines(reader, deck, true),
            Err(Memory) => Err(Refused::Memory),
        }
    }

    /// These units with other cards (1.3.1): each line of a text is a card of unit 16, of at most 80 characters, also one that begins with
    /// `%`. They stand in place of those that unit 16 had, and the first is read next; all else stays. The first fault is reported at its
    /// line, counted from 1: K9, over 33,554,432 bytes, before all else and at line 1, then K8, K3 and K4 as of a card in a deck.
    /// `Memory` where there is no room for the cards.
    pub fn with_cards(self, alloc: Global, text: &[u8]) -> Result<Units, Refused<DeckFault>>
        ensures { Reads (cards_of self text.now) result }
    {
        self.with_text(alloc, UnitNo::CARD_READER, text)
    }

    /// These units with other lines to read from the typewriter (1.3.1): each line of a text is a block of unit 19, of at most 70 characters.
    /// They replace the blocks that unit 19 had. Everything else, and the faults, are as for cards.
    pub fn with_typewriter(self, alloc: Global, text: &[u8]) -> Result<Units, Refused<DeckFault>>
        ensures { Reads (typewriter_of self text.now) result }
    {
        self.with_text(alloc, UnitNo::TYPEWRITER, text)
    }

    // These units with the lines of a text as the blocks of one of them.
    #[tactic(auto, unfolding(crate::specs::units::deck::Deck::text_of_unit))]
    fn with_text(
        self,
        alloc: Global,
        unit: UnitNo,
        text: &[u8],
    ) -> Result<Units, Refused<DeckFault>>
        ensures { Reads (text_of_unit self unit text.now) result }
    {
        if text.len() > MAX_DECK_BYTES {
            return Err(fault_at(1, DeckKind::DeckTooLong));
        }
        read_lines(Reader::of_unit(alloc, self, unit), text, false)
    }
}

// The lines of a text, with headers or without, one after the other.
#[tactic(auto, using(crate::proofs::DeckLemmas::no_lines))]
fn read_lines(reader: Reader, text: &[u8], headers: bool) -> Result<Units, Refused<DeckFault>>
    requires { length text.now ≤ max_deck_bytes }
    ensures { Reads (lines_from headers 1 reader (lines text.now)) result }
{
    let mut reader = reader;
    let mut rest = text;
    let mut line = 1;
    while !rest.is_empty() {
        let (content, after) = split_line(rest);
        match reader.line(content, headers) {
            Ok(()) => {}
            Err(Refused::Fault(kind)) => return Err(fault_at(line, kind)),
            Err(Refused::Memory) => return Err(Refused::Memory),
        }
        rest = after;
        line += 1;
    }
    match reader.finish() {
        Ok(units) => Ok(units),
        Err(kind) => Err(fault_at(line, kind)),
    }
}

fn fault_at(line: u32, kind: DeckKind) -> Refused<DeckFault>
    ensures { result ≡ Refused.Fault (record { line = line; kind = kind }) }
{
    Refused::Fault(DeckFault { line, kind })
}

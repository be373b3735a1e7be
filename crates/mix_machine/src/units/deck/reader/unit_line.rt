//! A line of a unit, below its header: words, or the characters of a card or of a line of text.
ghost use Rattle.std.specs.Prelude.{◌≡◌, ◌≤◌, ◌+◌, ◌*◌, ◌++◌, OnOk, length, vec_len};
ghost use Rattle.mix_lines.specs.Lines.{words};
ghost use Rattle.mix_machine.specs.Prelude.{block_length, most_entries, deck_words, words_from};
ghost use Rattle.mix_machine.specs.units.deck.Deck.{Gives, with_words, line_of_words, line_of_text, line_of_unit, room_of};

use crate::units::MAX_ENTRIES;
use crate::units::deck::block::{deck_word, has_codes, has_more_words, is_too_long, word_at};
use crate::units::deck::reader::Reader;
use crate::units::deck_fault::DeckKind;
use crate::units::kind::UnitKind;
use mix_lines::Words;
use mix_word::Word;
use undo_core::{Memory, Refused};

impl Reader {
    /// A line below the header of a unit of this kind.
    pub(crate) fn line_of_unit(
        &mut self,
        kind: UnitKind,
        text: &[u8],
    ) -> Result<(), Refused<DeckKind>>
        requires { room_of self.old.units self.old.unit ≡ most_entries * block_length kind }
        ensures { Gives (line_of_unit kind self.old text.now) self.new result }
    {
        match kind {
            UnitKind::Tape => self.line_of_words(UnitKind::Tape, text),
            UnitKind::Disk => self.line_of_words(UnitKind::Disk, text),
            UnitKind::CardReader => self.line_of_text(UnitKind::CardReader, text),
            UnitKind::CardPunch | UnitKind::Printer => match self.blank_or(
                DeckKind::NoInput,
                text,
            ) {
                Ok(()) => Ok(()),
                Err(kind) => Err(Refused::Fault(kind)),
            },
            UnitKind::Typewriter => self.line_of_text(UnitKind::Typewriter, text),
            UnitKind::PaperTape => self.line_of_text(UnitKind::PaperTape, text),
        }
    }

    // A line of a tape or a disk: words.
    fn line_of_words(&mut self, kind: UnitKind, text: &[u8]) -> Result<(), Refused<DeckKind>>
        requires { room_of self.old.units self.old.unit ≡ most_entries * block_length kind }
        ensures { Gives (line_of_words kind self.old text.now) self.new result }
    {
        let room = usize::from(MAX_ENTRIES) * usize::from(kind.block_length()) - self.words.len();
        if has_more_words(text, room) {
            return Err(Refused::Fault(DeckKind::TooManyBlocks));
        }
        push_words(&mut self.words, text)
    }

    // A line of cards or text: one block, five characters a word.
    fn line_of_text(&mut self, kind: UnitKind, text: &[u8]) -> Result<(), Refused<DeckKind>>
        requires { room_of self.old.units self.old.unit ≡ most_entries * block_length kind }
        ensures { Gives (line_of_text kind self.old text.now) self.new result }
    {
        let length = kind.block_length();
        let columns = 5 * usize::from(length);
        if self.words.len() + usize::from(length) > usize::from(MAX_ENTRIES) * usize::from(length) {
            return Err(Refused::Fault(DeckKind::TooManyBlocks));
        }
        if is_too_long(text, columns) {
            return Err(Refused::Fault(DeckKind::LineTooLong));
        }
        if !has_codes(text, columns) {
            return Err(Refused::Fault(DeckKind::NoMixCharacter));
        }
        match push_columns(&mut self.words, text, length) {
            Ok(()) => Ok(()),
            Err(Memory) => Err(Refused::Memory),
        }
    }
}

// Appends the words of a line to those before them.
fn push_words(list: &mut Vec<Word>, text: &[u8]) -> Result<(), Refused<DeckKind>>
    ensures read { Gives (with_words list.old.items (deck_words (words text.now))) list.new.items result }
    ensures len { vec_len list.new ≤ vec_len list.old + length (words text.now) }
{
    let mut words = Words::of(text);
    while let Some(word) = words.next() {
        match deck_word(word) {
            None => return Err(Refused::Fault(DeckKind::BadWord)),
            Some(word) => list.push(word)?,
        }
    }
    Ok(())
}

// Appends so many words of five characters each.
fn push_columns(list: &mut Vec<Word>, text: &[u8], count: u8) -> Result<(), Memory>
    requires { count ≤ 100 }
    ensures read { OnOk result (list.new.items ≡ list.old.items ++ words_from count 0 text.now) }
    ensures len { vec_len list.new ≤ vec_len list.old + count }
{
    for i in 0..count {
        list.push(word_at(text, 5 * usize::from(i)))?;
    }
    Ok(())
}

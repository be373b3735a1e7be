//! The blocks and the rows of a unit: put in, counted, cut and added to (1.3.1, "Input-output operators").
ghost use Rattle.std.specs.Prelude.{◌≡◌, ◌<◌, ◌≤◌, ◌+◌, ◌/◌, ◌%◌, ◌++◌, OnOk, OnErr, length, replicate, vec_len, vec_capacity, IsTrue};
ghost use Rattle.mix_word.specs.Word.{zero_word};
ghost use Rattle.mix_machine.specs.Prelude.{block_length, with_blocks, with_row, filled, most_entries, cut_to, can_cut, length_of};

use crate::units::row::Row;
use crate::units::unit::Unit;
use mix_word::Word;
use undo_core::Memory;

impl Unit {
    /// Puts the blocks that these words make in place of all others, and the unit at the first of them.
    pub(crate) fn fill(&mut self, words: Vec<Word>)
        requires whole { length words.items % block_length self.old.kind ≡ 0 }
        requires room { length words.items / block_length self.old.kind ≤ most_entries }
        ensures { self.new ≡ filled self.old words.items }
    {
        let length = usize::from(self.kind.block_length());
        self.count = (words.len() / length) as u16;
        self.place = 0;
        self.words = words;
    }

    /// How many blocks a tape or a disk has, and how many rows another unit has written.
    pub(crate) fn len(&self) -> u16
        ensures { result ≡ length_of self.now }
    {
        if self.kind.has_medium() {
            self.count
        } else {
            self.rows.len() as u16
        }
    }

    /// Cuts the list of blocks, or of rows, to so many.
    pub(crate) fn cut(&mut self, len: u16)
        requires { IsTrue (can_cut len self.old) }
        ensures { self.new ≡ cut_to len self.old }
    {
        if self.kind.has_medium() {
            let length = usize::from(self.kind.block_length());
            self.words.truncate(usize::from(len) * length);
            self.count = len;
        } else {
            self.rows.truncate(usize::from(len));
        }
    }

    /// Appends so many blocks of +0 and then one of these words. Out of memory, the unit is as it was.
    pub(crate) fn add_blocks(&mut self, gap: u16, words: &[Word]) -> Result<(), Memory>
        requires whole { length words.now ≡ block_length self.old.kind }
        requires room { length self.old.blocks + gap < most_entries }
        ensures added { OnOk result (self.new ≡ with_blocks self.old gap words.now) }
        ensures same { OnErr result (self.new ≡ self.old) }
    {
        let length = usize::from(self.kind.block_length());
        let blank = usize::from(gap) * length;
        self.words.reserve(blank + length)?;
        push_zeros(&mut self.words, blank);
        push_words(&mut self.words, words);
        self.count += gap + 1;
        Ok(())
    }

    /// Appends a row. Out of memory, the unit is as it was.
    pub(crate) fn add_row(&mut self, row: Row) -> Result<(), Memory>
        requires { length self.old.rows < most_entries }
        ensures added { OnOk result (self.new ≡ with_row self.old row) }
        ensures same { OnErr result (self.new ≡ self.old) }
    {
        self.rows.push(row)?;
        Ok(())
    }
}

// Appends so many words of +0, for which there is room.
fn push_zeros(list: &mut Vec<Word>, count: usize)
    requires { vec_len list.old + count ≤ vec_capacity list.old }
    ensures items { list.new.items ≡ list.old.items ++ replicate count zero_word }
    ensures len { vec_len list.new ≡ vec_len list.old + count }
    ensures capacity { vec_capacity list.new ≡ vec_capacity list.old }
{
    for _word in 0..count {
        list.push_reserved(Word::ZERO);
    }
}

// Appends some words, for which there is room.
fn push_words(list: &mut Vec<Word>, words: &[Word])
    requires { vec_len list.old + length words.now ≤ vec_capacity list.old }
    ensures items { list.new.items ≡ list.old.items ++ words.now }
    ensures len { vec_len list.new ≡ vec_len list.old + length words.now }
    ensures capacity { vec_capacity list.new ≡ vec_capacity list.old }
{
    for word in words {
        list.push_reserved(*word);
    }
}

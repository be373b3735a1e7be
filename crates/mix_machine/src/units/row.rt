//! A row that a unit has written: the words of a line or a card, or a page mark.
ghost use Rattle.std.specs.Prelude.{◌≡◌, ◌≤◌, length, None, Some, MatchOption};
ghost use Rattle.mix_machine.specs.Prelude.{is_same_row, row_of};

use crate::units::unit::same::are_same_words;
use mix_word::{Sign, Word};
use std::marker::Model;

/// A row of a unit's output (1.3.1): the words of a line or a card, each with the sign +, or the mark of a new page.
// It has room for the longest row, so that it takes no memory of its own.
#[derive(Drop)]
pub struct Row {
    words: [Word; 24],
    len: u8,
    is_page: bool,
}

impl Model for Row {
    ghost use Rattle.std.specs.Prelude.{◌≤◌};
    ghost use Rattle.mix_machine.specs.units.Row.{RowState};

    ghost Value = { RowState };

    ghost use Rattle.std.specs.Prelude.{None, Some, take, if◌then◌else◌};

    ghost view = { λ r. if r.is_page then None else Some (take r.len r.words) };

    ghost invariant = { λ r. r.len ≤ 24 };
}

impl Row {
    /// The words of the row, 14, 16 or 24, each with the sign +, or none where it is a page mark.
    pub fn words(&self) -> Option<&[Word]>
        ensures { MatchOption result (self.now ≡ None) (λ words. self.now ≡ Some words.now) }
    {
        if self.is_page {
            None
        } else {
            Some(&self.words[..usize::from(self.len)])
        }
    }

    /// The same row.
    pub(crate) fn copied(&self) -> Row
        ensures { result ≡ self.now }
    {
        Row {
            words: self.words,
            len: self.len,
            is_page: self.is_page,
        }
    }

    /// Whether two rows are the same.
    pub(crate) fn is_same(&self, other: &Row) -> bool
        ensures { result ≡ is_same_row self.now other.now }
    {
        match (self.words(), other.words()) {
            (Some(words), Some(others)) => are_same_words(words, others),
            (None, None) => true,
            _ => false,
        }
    }

    /// A page mark.
    pub(crate) fn page() -> Row
        ensures { result ≡ None }
    {
        Row {
            words: [Word::ZERO; 24],
            len: 0,
            is_page: true,
        }
    }

    /// The row of so many words, without their signs.
    pub(crate) fn of(words: &[Word]) -> Row
        requires { length words.now ≤ 24 }
        ensures { result ≡ row_of words.now }
    {
        let mut row = [Word::ZERO; 24];
        let mut len = 0;
        for word in words {
            row[usize::from(len)] = Word::of(Sign::Plus, word.magnitude());
            len += 1;
        }
        Row {
            words: row,
            len,
            is_page: false,
        }
    }
}

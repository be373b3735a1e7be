//! Cells that stand one after the other, a slice at a time: their words kept, copied and put back.
ghost use Rattle.std.specs.Prelude.{◌≡◌, ◌+◌, ◌≤◌, length};
ghost use Rattle.mix_machine.specs.Cells.{cell_values, with_copies, with_words, words_of};

use crate::old::Old;
use crate::pack::{Anchor, append_row, long};
use mix_word::Word;
use std::marker::Model;
use undo_core::PackAll;

/// The values of cells from a place on.
#[derive(Drop)]
pub(crate) struct Cells<'a> {
    place: u16,
    words: &'a [Word],
}

impl<'a> Model for Cells<'a> {
    ghost use Rattle.std.specs.Prelude.{List, ◌+◌, ◌≤◌, length};
    ghost use Rattle.mix_machine.specs.Cells.{cell_values};
    ghost use Rattle.mix_machine.specs.declared.old.Old.{Old};

    ghost Value = { List Old };

    ghost view = { λ c. cell_values c.place c.words.now };

    ghost invariant = { λ c. c.place + length c.words.now ≤ 4000 };
}

impl<'a> Cells<'a> {
    /// Those that hold these words.
    #[inline(always)]
    pub(crate) fn of(place: u16, words: &'a [Word]) -> Cells<'a>
        requires { place + length words.now ≤ 4000 }
        ensures { result ≡ cell_values place words.now }
    {
        Cells { place, words }
    }
}

impl<'a> PackAll<Old> for Cells<'a> {
    ghost values = { λ c. c };

    #[inline(always)]
    fn count(&self) -> usize {
        self.words.len()
    }

    #[inline(always)]
    fn pack_all(&self, units: &mut Vec<u32>, _anchor: &mut Anchor) {
        append_row(self.place, self.words, units);
    }
}

/// Copies so many words from one place on to another on, one at a time, the first one first. Where no word is copied over before it is
/// copied itself, all are copied at once.
pub(crate) fn copy_words(cells: &mut [Word], count: usize, from: usize, to: usize)
    requires there { from + count ≤ length cells.old }
    requires into { to + count ≤ length cells.old }
    ensures is { cells.new ≡ with_copies count from to cells.old }
    ensures len { length cells.new ≡ length cells.old }
{
    if to <= from || from + count <= to {
        cells.copy_within(from..from + count, to);
    } else {
        copy_each(cells, count, from, to);
    }
}

// Copies one word at a time, the first one first.
fn copy_each(cells: &mut [Word], count: usize, from: usize, to: usize)
    requires there { from + count ≤ length cells.old }
    requires into { to + count ≤ length cells.old }
    ensures is { cells.new ≡ with_copies count from to cells.old }
    ensures len { length cells.new ≡ length cells.old }
{
    for i in 0..count {
        cells[to + i] = cells[from + i];
    }
}

/// Puts words into cells from a place on.
pub(crate) fn put_words(cells: &mut [Word], place: usize, units: &[u32])
    requires { place + length units.now ≤ length cells.old }
    ensures is { cells.new ≡ with_words cells.old place (words_of units.now) }
    ensures len { length cells.new ≡ length cells.old }
{
    let mut i = units.len();
    while i > 0 {
        i -= 1;
        cells[place + i] = long(units[i]);
    }
}

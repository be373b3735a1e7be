//! One unit (1.3.1, "Input-output operators"): its blocks and its place among them, the rows that it has written, and its times.
ghost use Rattle.std.specs.Prelude.{◌≡◌, ◌<◌, ◌≤◌, ◌+◌, ◌*◌, None, Some, MatchOption, IfOk, length, slice_get};
ghost use Rattle.mix_machine.specs.units.UnitKind.{block_length};
ghost use Rattle.mix_machine.specs.units.Unit.{IsUnit, empty_unit, word_of, with_word, most_entries, last_delay, last_until};

mod blocks;
pub(crate) mod same;

use crate::units::kind::UnitKind;
use crate::units::row::Row;
use mix_word::Word;
use std::alloc::Global;
use std::marker::Model;
use undo_core::Memory;

/// The most blocks that a unit may have, and the most rows that it may have written.
pub(crate) const MAX_ENTRIES: u16 = 1000;

/// A unit (1.3.1): the blocks that it reads and the place of the next one, the rows that it has written, its delay, and the time until
/// which its last transfer takes.
// The blocks lie side by side in one list of words.
#[derive(Drop)]
pub struct Unit {
    kind: UnitKind,
    place: u16,
    count: u16,
    words: Vec<Word>,
    rows: Vec<Row>,
    delay: u64,
    until: u64,
}

impl Model for Unit {
    ghost use Rattle.mix_machine.specs.units.Unit.{UnitState};

    ghost Value = { UnitState };

    ghost use Rattle.mix_machine.specs.units.View.{unit_of_fields, AreFields};

    ghost view = { unit_of_fields };

    ghost invariant = { AreFields };
}

impl Unit {
    /// The place of the block that is read next, 0 to the number of blocks; 0 where the unit has no place (1.3.1).
    pub fn place(&self) -> u16
        ensures is { result ≡ self.now.place }
        ensures bound { result ≤ most_entries }
    {
        self.place
    }

    /// How many blocks the unit has to read, or keeps, at most 1,000 (1.3.1).
    #[tactic(auto, using(crate::proofs::BlockLemmas::blocks))]
    pub fn blocks(&self) -> u16
        ensures { result ≡ length self.now.blocks }
    {
        self.count
    }

    /// The words of block i, counted from 0, or none where it isn't there (1.3.1).
    #[tactic(auto, using(crate::proofs::BlockLemmas::blocks))]
    pub fn block(&self, i: u16) -> Option<&[Word]>
        ensures { MatchOption result (None ≡ slice_get self.now.blocks i) (λ words. Some words.now ≡ slice_get self.now.blocks i) }
    {
        if i < self.count {
            let length = usize::from(self.kind.block_length());
            let start = usize::from(i) * length;
            Some(&self.words[start..start + length])
        } else {
            None
        }
    }

    /// How many rows the unit has written, at most 1,000 (1.3.1).
    pub fn rows(&self) -> u16
        ensures { result ≡ length self.now.rows }
    {
        self.rows.len() as u16
    }

    /// Row i, counted from 0, or none where it isn't there (1.3.1).
    pub fn row(&self, i: u16) -> Option<&Row>
        ensures { MatchOption result (None ≡ slice_get self.now.rows i) (λ row. Some row.now ≡ slice_get self.now.rows i) }
    {
        self.rows.get(usize::from(i))
    }

    /// How long a transfer goes on after its step, in u (1.3.1).
    pub fn delay(&self) -> u64
        ensures { result ≡ self.now.delay }
    {
        self.delay
    }

    /// The clock at which the last transfer ends, in u (1.3.1).
    pub fn until(&self) -> u64
        ensures is { result ≡ self.now.until }
        ensures bound { result ≤ last_until }
    {
        self.until
    }

    /// A unit of a kind with nothing in it.
    pub(crate) fn empty(alloc: Global, kind: UnitKind) -> Unit
        ensures { result ≡ empty_unit kind }
    {
        Unit {
            kind,
            place: 0,
            count: 0,
            words: Vec::new(alloc),
            rows: Vec::new(alloc),
            delay: 0,
            until: 0,
        }
    }

    /// The same unit. `Memory` where there is no room for what it holds.
    pub(crate) fn copied(&self, alloc: Global) -> Result<Unit, Memory>
        ensures { IfOk result (λ u. u ≡ self.now) }
    {
        let words = Vec::from_slice(alloc, &self.words)?;
        let rows = rows_copied(alloc, &self.rows)?;
        Ok(Unit {
            kind: self.kind,
            place: self.place,
            count: self.count,
            words,
            rows,
            delay: self.delay,
            until: self.until,
        })
    }

    /// What the unit is.
    pub(crate) fn kind(&self) -> UnitKind
        ensures { result ≡ self.now.kind }
    {
        self.kind
    }

    /// Word j of block i, both counted from 0.
    #[tactic(auto, using(crate::proofs::BlockLemmas::blocks))]
    pub(crate) fn word(&self, i: u16, j: u8) -> Word
        requires block { i < length self.now.blocks }
        requires word { j < block_length self.now.kind }
        ensures { result ≡ word_of self.now i j }
    {
        self.words[offset(self.count, self.kind.block_length(), i, j)]
    }

    /// Sets word j of block i.
    #[tactic(auto, using(crate::proofs::BlockLemmas::blocks))]
    pub(crate) fn set_word(&mut self, i: u16, j: u8, word: Word)
        requires block { i < length self.old.blocks }
        requires word { j < block_length self.old.kind }
        ensures { self.new ≡ with_word self.old i j word }
    {
        let at = offset(self.count, self.kind.block_length(), i, j);
        self.words[at] = word;
    }

    /// Sets the place of the block that is read next.
    pub(crate) fn set_place(&mut self, place: u16)
        requires { place ≤ length self.old.blocks }
        ensures { self.new ≡ record self.old { place = place } }
    {
        self.place = place;
    }

    /// Sets the clock at which the last transfer ends.
    pub(crate) fn set_until(&mut self, until: u64)
        requires { until ≤ last_until }
        ensures { self.new ≡ record self.old { until = until } }
    {
        self.until = until;
    }

    /// Sets the delay.
    pub(crate) fn set_delay(&mut self, delay: u64)
        requires { delay ≤ last_delay }
        ensures { self.new ≡ record self.old { delay = delay } }
    {
        self.delay = delay;
    }
}

// The same rows.
fn rows_copied(alloc: Global, rows: &[Row]) -> Result<Vec<Row>, Memory>
    ensures { IfOk result (λ v. v.items ≡ rows.now) }
{
    let mut list = Vec::new(alloc);
    for row in rows {
        list.push(row.copied())?;
    }
    Ok(list)
}

// Where word j of block i is among the words of so many blocks of a length.
fn offset(count: u16, length: u8, i: u16, j: u8) -> usize
    requires block { i < count }
    requires word { j < length }
    ensures is { result ≡ i * length + j }
    ensures within { result < count * length }
{
    usize::from(i) * usize::from(length) + usize::from(j)
}

//! The units of the machine (1.3.1, "Input-output operators").
ghost use Rattle.std.specs.Prelude.{◌≡◌, ◌<◌, ◌≤◌, ◌+◌, ◌/◌, ◌%◌, None, IfOk, OnOk, OnErr, IsTrue, length};
ghost use Rattle.mix_machine.specs.Prelude.{block_length, row_of, most_entries, last_delay};
ghost use Rattle.mix_machine.specs.units.Units.{empty_units, unit_of, set_place, fits_place, set_length, length_at, fits_length, set_item, item_at, fits_item, set_until, fits_until, add_blocks, add_row, set_delay, fill};

mod deck;
mod deck_fault;
mod kind;
mod number;
mod row;
mod unit;

use crate::units::kind::KINDS;
pub use deck::MAX_DECK_BYTES;
pub use deck_fault::{DeckFault, DeckKind};
pub use kind::UnitKind;
use mix_word::Word;
pub use number::UnitNo;
pub use row::Row;
use std::alloc::Global;
use std::marker::Model;
use undo_core::Memory;
pub(crate) use unit::MAX_ENTRIES;
pub use unit::Unit;
pub use unit::same::are_same_words;

/// The units of the machine (1.3.1), unit 0 first.
#[derive(Drop)]
pub struct Units {
    list: Vec<Unit>,
}

impl Model for Units {
    ghost use Rattle.mix_machine.specs.units.Units.{UnitsState, AreUnits};

    ghost Value = { UnitsState };

    ghost view = { λ u. u.list.items };

    ghost invariant = { λ u. AreUnits u.list.items };
}

impl Units {
    /// The units with nothing in them (1.3.1). `Memory` where there is no room for their list.
    pub fn empty(alloc: Global) -> Result<Units, Memory>
        ensures { IfOk result (λ u. u ≡ empty_units) }
    {
        let mut list = Vec::new(alloc);
        for kind in KINDS.iter() {
            list.push(Unit::empty(alloc, *kind))?;
        }
        Ok(Units { list })
    }

    /// The same units. `Memory` where there is no room for what they hold.
    pub(crate) fn copied(&self, alloc: Global) -> Result<Units, Memory>
        ensures { IfOk result (λ u. u ≡ self.now) }
    {
        let mut list = Vec::new(alloc);
        for unit in &self.list {
            list.push(unit.copied(alloc)?)?;
        }
        Ok(Units { list })
    }

    /// One unit (1.3.1).
    pub fn unit(&self, n: UnitNo) -> &Unit
        ensures { result.now ≡ unit_of self.now n }
    {
        &self.list[usize::from(n.number())]
    }

    /// Sets the place of the block that a unit reads next.
    pub(crate) fn set_place(&mut self, n: UnitNo, place: u16)
        requires { IsTrue (fits_place self.old n place) }
        ensures { self.new ≡ set_place self.old n place }
    {
        let unit = &mut self.list[usize::from(n.number())];
        unit.set_place(place);
    }

    /// Sets the clock at which the last transfer of a unit ends.
    pub(crate) fn set_until(&mut self, n: UnitNo, until: u64)
        requires { IsTrue (fits_until n until) }
        ensures { self.new ≡ set_until self.old n until }
    {
        let unit = &mut self.list[usize::from(n.number())];
        unit.set_until(until);
    }

    /// Sets the delay of a unit.
    pub(crate) fn set_delay(&mut self, n: UnitNo, delay: u64)
        requires { delay ≤ last_delay }
        ensures { self.new ≡ set_delay self.old n delay }
    {
        let unit = &mut self.list[usize::from(n.number())];
        unit.set_delay(delay);
    }

    /// Gives a unit the blocks that these words make, and puts it at the first of them.
    pub(crate) fn fill(&mut self, n: UnitNo, words: Vec<Word>)
        requires whole { length words.items % block_length (unit_of self.old n).kind ≡ 0 }
        requires room { length words.items / block_length (unit_of self.old n).kind ≤ most_entries }
        ensures { self.new ≡ fill self.old n words.items }
    {
        let unit = &mut self.list[usize::from(n.number())];
        unit.fill(words);
    }

    /// Sets word j of block i of a tape or a disk.
    pub(crate) fn set_item(&mut self, n: UnitNo, i: u16, j: u8, word: Word)
        requires { IsTrue (fits_item self.old n i j) }
        ensures { self.new ≡ set_item self.old n i j word }
    {
        let unit = &mut self.list[usize::from(n.number())];
        unit.set_word(i, j, word);
    }

    /// Cuts the blocks of a tape or a disk, or the rows of another unit, to so many.
    pub(crate) fn cut(&mut self, n: UnitNo, len: u16)
        requires { IsTrue (fits_length self.old n len) }
        ensures { self.new ≡ set_length self.old n len }
    {
        let unit = &mut self.list[usize::from(n.number())];
        unit.cut(len);
    }

    /// Appends so many blocks of +0 to a unit, and then one of these words. Out of memory, all units are as they were.
    pub(crate) fn add_blocks(&mut self, n: UnitNo, gap: u16, words: &[Word]) -> Result<(), Memory>
        requires whole { length words.now ≡ block_length (unit_of self.old n).kind }
        requires room { length (unit_of self.old n).blocks + gap < most_entries }
        ensures added { OnOk result (self.new ≡ add_blocks self.old n gap words.now) }
        ensures same { OnErr result (self.new ≡ self.old) }
    {
        let unit = &mut self.list[usize::from(n.number())];
        unit.add_blocks(gap, words)
    }

    /// Appends a row of words, without their signs, to what a unit has written. If memory runs out,
    /// all units are as they were.
    pub(crate) fn add_words(&mut self, n: UnitNo, words: &[Word]) -> Result<(), Memory>
        requires short { length words.now ≤ 24 }
        requires room { length (unit_of self.old n).rows < most_entries }
        ensures added { OnOk result (self.new ≡ add_row self.old n (row_of words.now)) }
        ensures same { OnErr result (self.new ≡ self.old) }
    {
        let unit = &mut self.list[usize::from(n.number())];
        unit.add_row(Row::of(words))
    }

    /// Appends a page mark to what a unit has written. Out of memory, all units are as they were.
    pub(crate) fn add_page(&mut self, n: UnitNo) -> Result<(), Memory>
        requires { length (unit_of self.old n).rows < most_entries }
        ensures added { OnOk result (self.new ≡ add_row self.old n None) }
        ensures same { OnErr result (self.new ≡ self.old) }
    {
        let unit = &mut self.list[usize::from(n.number())];
        unit.add_row(Row::page())
    }
}

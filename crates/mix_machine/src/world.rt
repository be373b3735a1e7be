//! The state of the machine, and what can be read of it (1.3.1).
ghost use Rattle.std.specs.Prelude.{◌≡◌, ◌<◌, ◌≤◌, ◌==◌, ◌&&◌, ◌↔◌, ℕ, true, false, IsTrue, IfOk, MatchOption};
ghost use Rattle.mix_word.specs.Word.{parts_of};
ghost use Rattle.mix_machine.specs.Prelude.{register_of, cell_of, unit_at, has_break, last_clock, is_halt_next, is_looked_at, is_plain_next};

use crate::breakpoints::Breakpoints;
use crate::registers::Registers;
use crate::units::{Unit, UnitNo, Units};
use mix_word::{Cmp, Place, Reg, Word, decode_law, number_law};
use std::alloc::Global;
use std::marker::Model;
use undo_core::Memory;

/// The machine (1.3.1): registers, overflow toggle, comparison indicator, 4,000 cells, location, clock, units and breakpoints.
#[derive(Drop)]
pub struct World {
    pub(crate) registers: Registers,
    pub(crate) over: bool,
    pub(crate) cmp: Cmp,
    pub(crate) cells: Vec<Word>,
    pub(crate) loc: u16,
    pub(crate) clock: u64,
    pub(crate) units: Units,
    pub(crate) breaks: Breakpoints,
}

impl Model for World {
    ghost use Rattle.mix_machine.specs.World.{WorldState, IsWorld};

    ghost Value = { WorldState };

    ghost use Rattle.mix_machine.specs.View.{view_of};

    ghost view = { view_of };

    ghost invariant = { λ w. IsWorld (view_of w) };
}

impl World {
    /// The same machine: registers, toggle, indicator, cells, location, clock, units and breakpoints. `Memory` where there is no room for
    /// the cells and what the units hold.
    pub fn copied(&self, alloc: Global) -> Result<World, Memory>
        ensures { IfOk result (λ w. w ≡ self.now) }
    {
        let cells = Vec::from_slice(alloc, &self.cells)?;
        let units = self.units.copied(alloc)?;
        Ok(World {
            registers: self.registers.copied(),
            over: self.over,
            cmp: self.cmp,
            cells,
            loc: self.loc,
            clock: self.clock,
            units,
            breaks: self.breaks.copied(),
        })
    }

    /// What a register holds; of an index register and of rJ the magnitude is below 4096.
    pub fn register(&self, r: Reg) -> Word
        ensures { result ≡ register_of self.now r }
    {
        self.registers.get(r)
    }

    /// What the cell at a place holds.
    pub fn cell(&self, p: Place) -> Word
        ensures { result ≡ cell_of self.now p }
    {
        self.cells[usize::from(p.number())]
    }

    /// The location of the next instruction, 0 to 4000; 4000 is past the last cell.
    pub fn loc(&self) -> u16
        ensures is { result ≡ self.now.loc }
        ensures bound { result ≤ 4000 }
    {
        self.loc
    }

    /// Whether the overflow toggle is on.
    pub fn over(&self) -> bool
        ensures { result ≡ self.now.over }
    {
        self.over
    }

    /// The comparison indicator: what the last comparison gave, and EQUAL before any.
    pub fn cmp(&self) -> Cmp
        ensures { result ≡ self.now.cmp }
    {
        self.cmp
    }

    /// The clock in u, at most 10^18.
    pub fn clock(&self) -> u64
        ensures is { result ≡ self.now.clock }
        ensures bound { result ≤ last_clock }
    {
        self.clock
    }

    /// One unit: its blocks, its rows, its place and its times.
    pub fn unit(&self, n: UnitNo) -> &Unit
        ensures { result.now ≡ unit_at self.now n }
    {
        self.units.unit(n)
    }

    /// Whether the cell at a place has a breakpoint, where a run stops.
    pub fn is_break(&self, p: Place) -> bool
        ensures { result ≡ has_break self.now p }
    {
        self.breaks.get(p)
    }

    /// Whether a cell may have a breakpoint: where not, none has one.
    pub fn has_breaks(&self) -> bool
        ensures { result ≡ false → (p : ℕ) → p < 4000 → has_break self.now p ≡ false }
    {
        self.breaks.any()
    }

    /// Whether the next instruction is HLT: the location is a cell, whose C is 5 and whose F is 2.
    pub fn next_is_halt(&self) -> bool
        ensures { result ≡ is_halt_next self.now }
    {
        match Place::of(self.loc) {
            None => false,
            Some(place) => is_halt(self.cell(place)),
        }
    }

    /// Whether the next step needs no look at the machine first: the location is a cell, whose C is neither 5, that of HLT, nor that of IOC, IN or OUT.
    #[inline(always)]
    pub fn next_is_plain(&self) -> bool
        ensures { result ≡ is_plain_next self.now }
    {
        self.plain_word().is_some()
    }

    /// The word of the next step, if that needs no look at the machine first.
    #[inline(always)]
    pub(crate) fn plain_word(&self) -> Option<Word>
        ensures { MatchOption result (is_plain_next self.now ≡ false) (λ word. (is_plain_next self.now ≡ true) × (self.now.loc < 4000) × (word ≡ cell_of self.now self.now.loc)) }
    {
        match Place::of(self.loc) {
            None => None,
            Some(place) => {
                let word = self.cell(place);
                if is_looked_at(word) { None } else { Some(word) }
            }
        }
    }
}

// Whether C is that of HLT (with NUM and CHAR), or that of IOC, IN or OUT, whose numbers are the last.
#[tactic(auto, using(crate::proofs::PairLemmas::not_looked_at))]
#[inline(always)]
fn is_looked_at(word: Word) -> bool
    ensures { result ≡ is_looked_at (parts_of word).code }
{
    decode_law();
    word.pair_number() >= 40 && is_code_looked_at(word.parts().code)
}

#[inline(always)]
fn is_code_looked_at(code: u8) -> bool
    ensures { result ≡ is_looked_at code }
{
    code == 5 || 35 <= code && code <= 37
}

// Whether C and F name HLT, which its number says.
#[inline(always)]
fn is_halt(word: Word) -> bool
    ensures { result ≡ ((parts_of word).code == 5 && (parts_of word).f == 2) }
{
    decode_law();
    number_law();
    word.pair_number() == 42
}

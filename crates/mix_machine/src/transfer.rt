//! What IN, OUT and IOC write (1.3.1, "Input-output operators"): a block moved between a unit and the cells, the place and the time of the
//! unit, and what it holds more.
ghost use Rattle.std.specs.Prelude.{◌≡◌, ◌<◌, ◌≤◌, ℕ, ◌+◌, ◌^◌, true, false, length, IsTrue, OnErr};
ghost use Rattle.mix_machine.specs.Prelude.{unit_at, fits, each, from_block, from_cell, place_after, input_writes, replace_writes, append_writes, row_writes, output_writes, control_writes, block_length, has_place, has_medium, fits_item, HasRoom, Wrote, Tried};
ghost use Rattle.mix_machine.specs.UnitAction.{transfer_start, transfer_end, marks_page};
ghost use Rattle.mix_machine.specs.units.Unit.{most_entries, last_until};
ghost use Rattle.mix_machine.specs.law.Plans.{InputFits, OutputFits, ControlFits};

use crate::old::Old;
use crate::perform::place;
use crate::plan::Transfer;
use crate::units::{UnitKind, UnitNo};
use crate::world::World;
use undo_core::{Kept, Memory};

impl World {
    /// The clock at which a transfer of a unit begins: at once, or when the last one is over.
    pub(crate) fn start_at(&self, n: UnitNo) -> u64
        ensures is { result ≡ transfer_start self.now n }
        ensures bound { result < 2 ^ 63 }
    {
        let until = self.unit(n).until();
        if until > self.clock {
            until
        } else {
            self.clock
        }
    }

    /// The clock at which a transfer of a unit ends.
    pub(crate) fn end_at(&self, n: UnitNo) -> u64
        requires { transfer_end self.now n ≤ last_until }
        ensures { result ≡ transfer_end self.now n }
    {
        self.start_at(n) + 1 + self.unit(n).delay()
    }

    /// What IN writes, of a unit of this kind.
    #[inline(never)]
    pub(crate) fn input(&mut self, t: Transfer, kind: UnitKind, kept: &mut Kept<Old>)
        requires fits { InputFits self.old t }
        requires kind { kind ≡ (unit_at self.old t.unit).kind }
        requires room { HasRoom kept.old (input_writes kind self.old t) }
        ensures { Wrote (input_writes kind self.old t) self.old self.new kept.old kept.new }
    {
        // (the proof knows the ranges of the machine where a field of it is named)
        let _ = &self.loc;
        // (a copy, since the borrow checker's part of the proof does not cover a unit read out of `t` before and after `t` is passed on)
        let (n, given) = (t.unit, t);
        let until = self.end_at(n);
        self.move_on(kind, given, kept);
        self.write_until(n, until, kept);
        self.to_cells(t, kind.block_length(), kept);
    }

    /// What OUT writes. Out of memory for a new block or row, nothing is altered.
    #[inline(never)]
    pub(crate) fn output(&mut self, t: Transfer, kept: &mut Kept<Old>) -> Result<(), Memory>
        requires fits { OutputFits self.old t }
        requires room { HasRoom kept.old (output_writes (unit_at self.old t.unit).kind self.old t) }
        ensures tried { Tried (output_writes (unit_at self.old t.unit).kind self.old t) self.old self.new kept.old kept.new result }
        ensures more { OnErr result (has_medium (unit_at self.old t.unit).kind ≡ true → length (unit_at self.old t.unit).blocks ≤ t.block) }
    {
        let (block, unit) = (t.block, self.unit(t.unit));
        let (kind, blocks) = (unit.kind(), unit.blocks());
        if !kind.has_medium() {
            return self.print(t, kind, kept);
        }
        if block < blocks {
            self.replace(t, kind, kept);
            Ok(())
        } else {
            self.append(t, kind, kept)
        }
    }

    // The words of cells in place of those of a block.
    fn replace(&mut self, t: Transfer, kind: UnitKind, kept: &mut Kept<Old>)
        requires fits { OutputFits self.old t }
        requires kind { kind ≡ (unit_at self.old t.unit).kind }
        requires medium { has_medium kind ≡ true }
        requires block { t.block < length (unit_at self.old t.unit).blocks }
        requires room { HasRoom kept.old (replace_writes kind self.old t) }
        ensures { Wrote (replace_writes kind self.old t) self.old self.new kept.old kept.new }
    {
        // (the proof knows the ranges of the machine where a field of it is named)
        let _ = &self.loc;
        // (a copy, since the borrow checker's part of the proof does not cover a unit read out of `t` before and after `t` is passed on)
        let (n, given) = (t.unit, t);
        let until = self.end_at(n);
        self.move_on(kind, given, kept);
        self.write_until(n, until, kept);
        self.from_cells(t, kind.block_length(), kept);
    }

    // The words of cells as a new block, after as many blocks of +0 as are missing before it.
    fn append(&mut self, t: Transfer, kind: UnitKind, kept: &mut Kept<Old>) -> Result<(), Memory>
        requires fits { OutputFits self.old t }
        requires kind { kind ≡ (unit_at self.old t.unit).kind }
        requires medium { has_medium kind ≡ true }
        requires block { length (unit_at self.old t.unit).blocks ≤ t.block }
        requires room { HasRoom kept.old (append_writes kind self.old t) }
        ensures { Tried (append_writes kind self.old t) self.old self.new kept.old kept.new result }
    {
        let n = t.unit;
        let until = self.end_at(n);
        let unit = self.unit(n);
        let (len, gap) = (unit.len(), t.block - unit.blocks());
        let (from, size) = (usize::from(t.cell), usize::from(kind.block_length()));
        self.units
            .add_blocks(n, gap, &self.cells[from..from + size])?;
        kept.push_reserved(Old::Len(n, len));
        self.move_on(kind, t, kept);
        self.write_until(n, until, kept);
        Ok(())
    }

    // The words of cells as a new row.
    fn print(&mut self, t: Transfer, kind: UnitKind, kept: &mut Kept<Old>) -> Result<(), Memory>
        requires fits { OutputFits self.old t }
        requires kind { kind ≡ (unit_at self.old t.unit).kind }
        requires medium { has_medium kind ≡ false }
        requires room { HasRoom kept.old (row_writes kind self.old t) }
        ensures { Tried (row_writes kind self.old t) self.old self.new kept.old kept.new result }
    {
        let n = t.unit;
        let until = self.end_at(n);
        let len = self.unit(n).len();
        let (from, size) = (usize::from(t.cell), usize::from(kind.block_length()));
        self.units.add_words(n, &self.cells[from..from + size])?;
        kept.push_reserved(Old::Len(n, len));
        self.write_until(n, until, kept);
        Ok(())
    }

    /// What IOC writes. Out of memory for the mark of a page, nothing is altered.
    #[inline(never)]
    pub(crate) fn control(&mut self, n: UnitNo, at: u16, kept: &mut Kept<Old>) -> Result<(), Memory>
        requires fits { ControlFits self.old n at }
        requires room { HasRoom kept.old (control_writes (unit_at self.old n).kind self.old n at) }
        ensures tried { Tried (control_writes (unit_at self.old n).kind self.old n at) self.old self.new kept.old kept.new result }
        ensures page { OnErr result (marks_page (unit_at self.old n).kind ≡ true) }
    {
        let until = self.end_at(n);
        let unit = self.unit(n);
        let (kind, len) = (unit.kind(), unit.len());
        match kind {
            UnitKind::Tape | UnitKind::PaperTape => {
                self.write(Old::At(n, at), kept);
                self.write_until(n, until, kept);
            }
            UnitKind::Disk => self.write_until(n, until, kept),
            UnitKind::Printer => {
                self.units.add_page(n)?;
                kept.push_reserved(Old::Len(n, len));
                self.write_until(n, until, kept);
            }
            UnitKind::CardReader | UnitKind::CardPunch | UnitKind::Typewriter => {}
        }
        Ok(())
    }

    // The place after the block, where the unit has one.
    fn move_on(&mut self, kind: UnitKind, t: Transfer, kept: &mut Kept<Old>)
        requires few { t.block < most_entries }
        requires fits { has_place kind ≡ true → IsTrue (fits self.old (Old.At t.unit (t.block + 1))) }
        requires room { HasRoom kept.old (place_after kind t) }
        ensures { Wrote (place_after kind t) self.old self.new kept.old kept.new }
    {
        if !kind.has_place() {
            return;
        }
        self.write(Old::At(t.unit, t.block + 1), kept);
    }

    // The words of a block into cells.
    fn to_cells(&mut self, t: Transfer, size: u8, kept: &mut Kept<Old>)
        requires size { size ≡ block_length (unit_at self.old t.unit).kind }
        requires block { t.block < length (unit_at self.old t.unit).blocks }
        requires cells { t.cell + size ≤ 4000 }
        requires room { HasRoom kept.old (each size 0 (from_block self.old t)) }
        ensures { Wrote (each size 0 (from_block self.old t)) self.old self.new kept.old kept.new }
    {
        for j in 0..size {
            let word = self.unit(t.unit).word(t.block, j);
            self.write(Old::Cell(place(t.cell + u16::from(j)), word), kept);
        }
    }

    // The words of cells into a block.
    fn from_cells(&mut self, t: Transfer, size: u8, kept: &mut Kept<Old>)
        requires cells { t.cell + size ≤ 4000 }
        requires block { (j : ℕ) → j < size → IsTrue (fits_item self.old.units t.unit t.block j) }
        requires room { HasRoom kept.old (each size 0 (from_cell self.old t)) }
        ensures { Wrote (each size 0 (from_cell self.old t)) self.old self.new kept.old kept.new }
    {
        // (the proof knows the ranges of the machine where a field of it is named)
        let _ = &self.loc;
        for j in 0..size {
            let word = self.cell(place(t.cell + u16::from(j)));
            self.write(Old::Item(t.unit, t.block, j, word), kept);
        }
    }
}

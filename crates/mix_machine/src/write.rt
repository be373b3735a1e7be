//! One value of the state set, and the one that it replaces kept.
ghost use Rattle.std.specs.Prelude.{◌≡◌, ◌≤◌, ◌∷◌, [], IsTrue};
ghost use Rattle.mix_machine.specs.Write.{set_value, value_at, fits, set};
ghost use Rattle.mix_machine.specs.law.Wrote.{HasRoom, Wrote};
ghost use Rattle.mix_machine.specs.law.Apart.{is_apart_value};

use crate::old::Old;
use crate::pack::{Anchor, Moved, MovedWith, Stored};
use crate::time::Time;
use crate::units::UnitNo;
use crate::world::World;
use mix_word::{Cmp, Place, Reg, Word};
use undo_core::Kept;

impl World {
    /// Sets a value, and keeps the one that it replaces. What a step writes most has a function of its own below, which is quicker.
    #[inline(always)]
    pub(crate) fn write(&mut self, value: Old, kept: &mut Kept<Old>)
        requires fits { IsTrue (fits self.old value) }
        requires room { HasRoom kept.old (set value ∷ []) }
        ensures { Wrote (set value ∷ []) self.old self.new kept.old kept.new }
    {
        // (a copy, since the borrow checker's part of the proof does not cover a value that is passed on twice)
        let next = value;
        kept.push_reserved(self.value_at(value));
        self.set_value(next);
    }

    /// Sets a register, and keeps what it held.
    #[inline(always)]
    pub(crate) fn write_register(&mut self, r: Reg, word: Word, kept: &mut Kept<Old>)
        requires fits { IsTrue (fits self.old (Old.Reg r word)) }
        requires room { HasRoom kept.old (set (Old.Reg r word) ∷ []) }
        ensures { Wrote (set (Old.Reg r word) ∷ []) self.old self.new kept.old kept.new }
    {
        kept.push_reserved(Old::Reg(r, self.registers.get(r)));
        self.registers.set(r, word);
    }

    /// Sets a cell, and keeps what it held.
    #[inline]
    pub(crate) fn write_cell(&mut self, place: Place, word: Word, kept: &mut Kept<Old>)
        requires fits { IsTrue (fits self.old (Old.Cell place word)) }
        requires room { HasRoom kept.old (set (Old.Cell place word) ∷ []) }
        ensures { Wrote (set (Old.Cell place word) ∷ []) self.old self.new kept.old kept.new }
    {
        let at = usize::from(place.number());
        kept.push_reserved(Old::Cell(place, self.cells[at]));
        self.cells[at] = word;
    }

    /// Sets the overflow toggle, and keeps what it was.
    #[inline]
    pub(crate) fn write_over(&mut self, over: bool, kept: &mut Kept<Old>)
        requires fits { IsTrue (fits self.old (Old.Over over)) }
        requires room { HasRoom kept.old (set (Old.Over over) ∷ []) }
        ensures { Wrote (set (Old.Over over) ∷ []) self.old self.new kept.old kept.new }
    {
        kept.push_reserved(Old::Over(self.over));
        self.over = over;
    }

    /// Sets the comparison indicator, and keeps what it was.
    #[inline]
    pub(crate) fn write_cmp(&mut self, cmp: Cmp, kept: &mut Kept<Old>)
        requires fits { IsTrue (fits self.old (Old.Cmp cmp)) }
        requires room { HasRoom kept.old (set (Old.Cmp cmp) ∷ []) }
        ensures { Wrote (set (Old.Cmp cmp) ∷ []) self.old self.new kept.old kept.new }
    {
        kept.push_reserved(Old::Cmp(self.cmp));
        self.cmp = cmp;
    }

    /// Sets the location and the clock, and keeps those before, which are given.
    #[inline(always)]
    pub(crate) fn move_to(&mut self, to: Anchor, from: Anchor, kept: &mut Kept<Old>)
        requires from { from.loc ≡ self.old.loc }
        requires when { from.clock ≡ self.old.clock }
        requires loc { IsTrue (fits self.old (Old.Loc to.loc)) }
        requires clock { IsTrue (fits self.old (Old.Clock to.clock)) }
        requires room { HasRoom kept.old (set (Old.Loc to.loc) ∷ set (Old.Clock to.clock) ∷ []) }
        ensures { Wrote (set (Old.Loc to.loc) ∷ set (Old.Clock to.clock) ∷ []) self.old self.new kept.old kept.new }
    {
        // (the proof knows the ranges of the machine where a field of it is named)
        let _ = &self.loc;
        kept.append_reserved(&Moved::of(from, to));
        self.loc = to.loc;
        self.clock = to.clock;
    }

    /// Sets a register, the location and the clock, and keeps those before, of which the last two are given.
    #[inline(always)]
    pub(crate) fn move_with(
        &mut self,
        r: Reg,
        word: Word,
        to: Anchor,
        from: Anchor,
        kept: &mut Kept<Old>,
    )
        requires from { from.loc ≡ self.old.loc }
        requires when { from.clock ≡ self.old.clock }
        requires fits { IsTrue (fits self.old (Old.Reg r word)) }
        requires loc { IsTrue (fits self.old (Old.Loc to.loc)) }
        requires clock { IsTrue (fits self.old (Old.Clock to.clock)) }
        requires room { HasRoom kept.old (set (Old.Reg r word) ∷ set (Old.Loc to.loc) ∷ set (Old.Clock to.clock) ∷ []) }
        ensures { Wrote (set (Old.Reg r word) ∷ set (Old.Loc to.loc) ∷ set (Old.Clock to.clock) ∷ []) self.old self.new kept.old kept.new }
    {
        let held = self.registers.get(r);
        kept.append_reserved(&MovedWith::of(r, held, from, to));
        self.registers.set(r, word);
        self.loc = to.loc;
        self.clock = to.clock;
    }

    /// Sets a cell, the location and the clock, and keeps those before, of which the last two are given.
    #[inline(always)]
    pub(crate) fn store(
        &mut self,
        place: Place,
        word: Word,
        to: Anchor,
        from: Anchor,
        kept: &mut Kept<Old>,
    )
        requires from { from.loc ≡ self.old.loc }
        requires when { from.clock ≡ self.old.clock }
        requires fits { IsTrue (fits self.old (Old.Cell place word)) }
        requires loc { IsTrue (fits self.old (Old.Loc to.loc)) }
        requires clock { IsTrue (fits self.old (Old.Clock to.clock)) }
        requires room { HasRoom kept.old (set (Old.Cell place word) ∷ set (Old.Loc to.loc) ∷ set (Old.Clock to.clock) ∷ []) }
        ensures { Wrote (set (Old.Cell place word) ∷ set (Old.Loc to.loc) ∷ set (Old.Clock to.clock) ∷ []) self.old self.new kept.old kept.new }
    {
        let at = usize::from(place.number());
        let held = self.cells[at];
        kept.append_reserved(&Stored::of(place, held, from, to));
        self.cells[at] = word;
        self.loc = to.loc;
        self.clock = to.clock;
    }

    /// Where the machine stands, and when.
    #[inline(always)]
    pub(crate) fn anchor(&self) -> Anchor
        ensures loc { result.loc ≡ self.now.loc }
        ensures clock { result.clock ≡ self.now.clock }
        ensures bound { result.loc ≤ 4000 }
    {
        Anchor {
            loc: self.loc,
            clock: self.clock,
        }
    }

    /// Sets the time until which a unit is busy, and keeps the one before.
    pub(crate) fn write_until(&mut self, n: UnitNo, until: u64, kept: &mut Kept<Old>)
        requires fits { IsTrue (fits self.old (Old.Until n until)) }
        requires room { HasRoom kept.old (set (Old.Until n until) ∷ []) }
        ensures { Wrote (set (Old.Until n until) ∷ []) self.old self.new kept.old kept.new }
    {
        self.write(Old::Until(n, Time::of(until)), kept);
    }

    /// Sets a value that is in the range of its place.
    #[inline(always)]
    pub(crate) fn set_value(&mut self, value: Old)
        requires { IsTrue (fits self.old value) }
        ensures { self.new ≡ set_value self.old value }
    {
        match value {
            Old::Loc(loc) => self.loc = loc,
            Old::Clock(clock) => self.clock = clock.number(),
            Old::Reg(r, word) => self.registers.set(r, word),
            Old::Cell(place, word) => self.cells[usize::from(place.number())] = word,
            value => self.set_apart(value),
        }
    }

    // The same of a value that steps write seldom.
    #[inline(never)]
    fn set_apart(&mut self, value: Old)
        requires apart { IsTrue (is_apart_value value) }
        requires fits { IsTrue (fits self.old value) }
        ensures { self.new ≡ set_value self.old value }
    {
        match value {
            Old::Loc(_) | Old::Clock(_) | Old::Reg(_, _) | Old::Cell(_, _) => unreachable!(),
            Old::Over(over) => self.over = over,
            Old::Cmp(cmp) => self.cmp = cmp,
            Old::Break(place, on) => self.breaks.set(place, on),
            Old::At(n, place) => self.units.set_place(n, place),
            Old::Len(n, len) => self.units.cut(n, len),
            Old::Item(n, i, j, word) => self.units.set_item(n, i, j, word),
            Old::Until(n, until) => self.units.set_until(n, until.number()),
        }
    }

    // The value that stands at the place that another one names.
    #[inline(always)]
    fn value_at(&self, value: Old) -> Old
        requires { IsTrue (fits self.now value) }
        ensures { result ≡ value_at self.now value }
    {
        match value {
            Old::Loc(_) => Old::Loc(self.loc),
            Old::Clock(_) => Old::Clock(Time::of(self.clock)),
            Old::Reg(r, _) => Old::Reg(r, self.register(r)),
            Old::Cell(place, _) => Old::Cell(place, self.cell(place)),
            Old::Over(_) => Old::Over(self.over),
            Old::Cmp(_) => Old::Cmp(self.cmp),
            Old::Break(place, _) => Old::Break(place, self.breaks.get(place)),
            Old::At(n, _) => Old::At(n, self.units.unit(n).place()),
            Old::Len(n, _) => Old::Len(n, self.units.unit(n).len()),
            Old::Item(n, i, j, _) => Old::Item(n, i, j, self.units.unit(n).word(i, j)),
            Old::Until(n, _) => Old::Until(n, Time::of(self.units.unit(n).until())),
        }
    }
}

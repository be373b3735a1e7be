//! The parts of the machine, and the marks by which it is seen that a change altered one.
ghost use Rattle.std.specs.Prelude.{◌≡◌, unwrap_or};
ghost use Rattle.mix_machine.specs.World.{IsWorld};
ghost use Rattle.mix_machine.specs.Part.{IsPart, is_same_part, is_same_indicator, is_same_mark, mark_of, mark_in, mark_given, mark_before};

use crate::old::Old;
use crate::units::UnitNo;
use crate::world::World;
use mix_word::{Cmp, Place, Reg, Word};
use undo_core::Values;

/// A part of the machine (1.3.1): a register, the overflow toggle, the comparison indicator, a cell, a unit, the location, or the clock.
#[derive(Clone, Copy, Debug, PartialEq, Eq)]
pub enum Part {
    Register(Reg),
    Over,
    Cmp,
    Cell(Place),
    Unit(UnitNo),
    Loc,
    Clock,
}

/// The mark of a part, by which it is seen whether a change altered the part: what it holds; and of a unit the time in u until which its
/// last transfer takes, which each IN, OUT and IOC on it makes greater.
#[derive(Clone, Copy, PartialEq, Eq)]
pub enum Mark {
    Word(Word),
    Toggle(bool),
    Indicator(Cmp),
    Location(u16),
    Time(u64),
}

impl Part {
    // Whether two parts are the same.
    fn is_same(self, other: Part) -> bool
        ensures { result ≡ is_same_part self other }
    {
        match self {
            Part::Register(r) => matches!(other, Part::Register(s) if r.number() == s.number()),
            Part::Over => matches!(other, Part::Over),
            Part::Cmp => matches!(other, Part::Cmp),
            Part::Cell(p) => matches!(other, Part::Cell(q) if p.number() == q.number()),
            Part::Unit(m) => matches!(other, Part::Unit(n) if m.number() == n.number()),
            Part::Loc => matches!(other, Part::Loc),
            Part::Clock => matches!(other, Part::Clock),
        }
    }
}

impl Mark {
    /// Whether two marks are the same, as `==` has it: those of +0 and -0 are not.
    pub fn is_same(self, other: Mark) -> bool
        ensures { result ≡ is_same_mark self other }
    {
        match self {
            Mark::Word(v) => matches!(other, Mark::Word(w) if v.is_same(w)),
            Mark::Toggle(a) => matches!(other, Mark::Toggle(b) if a == b),
            Mark::Indicator(c) => matches!(other, Mark::Indicator(d) if is_same_indicator(c, d)),
            Mark::Location(m) => matches!(other, Mark::Location(n) if m == n),
            Mark::Time(s) => matches!(other, Mark::Time(t) if s == t),
        }
    }
}

fn is_same_indicator(c: Cmp, d: Cmp) -> bool
    ensures { result ≡ is_same_indicator c d }
{
    match c {
        Cmp::Less => matches!(d, Cmp::Less),
        Cmp::Equal => matches!(d, Cmp::Equal),
        Cmp::Greater => matches!(d, Cmp::Greater),
    }
}

impl World {
    /// The mark of a part of the machine.
    pub fn mark(&self, part: Part) -> Mark
        ensures is { result ≡ mark_of self.now part }
        ensures world { IsWorld self.now }
        ensures real { IsPart part }
    {
        match part {
            Part::Register(r) => Mark::Word(self.register(r)),
            Part::Over => Mark::Toggle(self.over),
            Part::Cmp => Mark::Indicator(self.cmp),
            Part::Cell(p) => Mark::Word(self.cells[usize::from(p.number())]),
            Part::Unit(n) => {
                // (the proof knows the range of the number where it is taken)
                let _ = n.number();
                Mark::Time(self.unit(n).until())
            }
            Part::Loc => Mark::Location(self.loc),
            Part::Clock => Mark::Time(self.clock),
        }
    }
}

impl Old {
    // The part whose mark the value gives, and that mark.
    fn mark(self) -> Option<(Part, Mark)>
        ensures { result ≡ mark_in self }
    {
        match self {
            Old::Loc(loc) => Some((Part::Loc, Mark::Location(loc))),
            Old::Clock(time) => Some((Part::Clock, Mark::Time(time.number()))),
            Old::Reg(r, word) => Some((Part::Register(r), Mark::Word(word))),
            Old::Cell(place, word) => Some((Part::Cell(place), Mark::Word(word))),
            Old::Over(over) => Some((Part::Over, Mark::Toggle(over))),
            Old::Cmp(cmp) => Some((Part::Cmp, Mark::Indicator(cmp))),
            Old::Until(n, time) => Some((Part::Unit(n), Mark::Time(time.number()))),
            Old::Break(..) | Old::At(..) | Old::Len(..) | Old::Item(..) => None,
        }
    }
}

// The mark that a value gives of a part, or else this one.
fn mark_or(value: Old, part: &Part, mark: Mark) -> Mark
    ensures { result ≡ unwrap_or (mark_given value part.now) mark }
{
    match value.mark() {
        None => mark,
        Some((other, given)) => { if other.is_same(*part) { given } else { mark } }
    }
}

/// The mark of a part before the changes that kept these values, where `mark` is its mark after them.
pub fn mark_before(kept: &Values<'_, Old>, part: Part, mark: Mark) -> Mark
    ensures { result ≡ mark_before kept.now part mark }
{
    let mut left = kept.copied();
    let mut before = mark;
    for _ in 0..left.len() {
        match left.pop() {
            None => unreachable!(),
            Some(value) => before = mark_or(value, &part, before),
        }
    }
    before
}

//! The location and the clock that a step replaces, and a register with them.
ghost use Rattle.std.specs.Prelude.{◌≡◌, ◌+◌, ◌-◌, ◌≤◌, ◌<◌, ◌^◌, ◌++◌, [], ◌∷◌, IfSome, IsTrue, vec_len, vec_capacity};
ghost use Rattle.mix_machine.specs.declared.old.Old.TheVariants as old;
ghost use Rattle.mix_machine.specs.Pack.{said, IsAfterTime};

use crate::old::Old;
use crate::pack::anchor::Anchor;
use crate::pack::appending::register;
use crate::pack::headers::{elapsed, header_with, is_same, moment_header};
use crate::pack::kind::Kind;
use crate::pack::parts::halves;
use crate::time::Time;
use mix_word::{Reg, Word};
use std::marker::Model;
use undo_core::PackAll;

/// The location and the clock before a step, by those after it.
#[derive(Drop)]
pub(crate) struct Moved {
    from: Anchor,
    to: Anchor,
}

impl Model for Moved {
    ghost use Rattle.std.specs.Prelude.{List, [], ◌∷◌, ◌≤◌};
    ghost use Rattle.mix_machine.specs.declared.old.Old.{Old};
    ghost use Rattle.mix_machine.specs.declared.old.Old.TheVariants as old;

    ghost Value = { List Old };

    ghost view = { λ m. old.Loc m.from.loc ∷ old.Clock m.from.clock ∷ [] };

    ghost invariant = { λ m. m.from.loc ≤ 4000 };
}

impl Moved {
    /// A step from one place and time to another.
    #[inline(always)]
    pub(crate) fn of(from: Anchor, to: Anchor) -> Moved
        requires { from.loc ≤ 4000 }
        ensures { result ≡ old.Loc from.loc ∷ old.Clock from.clock ∷ [] }
    {
        Moved { from, to }
    }
}

impl PackAll<Old> for Moved {
    ghost values = { λ m. m };

    #[inline(always)]
    fn count(&self) -> usize {
        // (the proof knows the values where a field of it is named)
        let _ = &self.from;
        2
    }

    #[inline(always)]
    fn pack_all(&self, units: &mut Vec<u32>, anchor: &mut Anchor) {
        append_moment(self.from, self.to, units, anchor);
    }
}

/// A register before a step, and the location and the clock.
#[derive(Drop)]
pub(crate) struct MovedWith {
    reg: Reg,
    word: Word,
    from: Anchor,
    to: Anchor,
}

impl Model for MovedWith {
    ghost use Rattle.std.specs.Prelude.{List, [], ◌∷◌, ◌≤◌};
    ghost use Rattle.mix_machine.specs.declared.old.Old.{Old};
    ghost use Rattle.mix_machine.specs.declared.old.Old.TheVariants as old;

    ghost Value = { List Old };

    ghost view = { λ m. old.Reg m.reg m.word ∷ old.Loc m.from.loc ∷ old.Clock m.from.clock ∷ [] };

    ghost invariant = { λ m. m.from.loc ≤ 4000 };
}

impl MovedWith {
    /// A step from one place and time to another, before which a register held this word.
    #[inline(always)]
    pub(crate) fn of(reg: Reg, word: Word, from: Anchor, to: Anchor) -> MovedWith
        requires { from.loc ≤ 4000 }
        ensures { result ≡ old.Reg reg word ∷ old.Loc from.loc ∷ old.Clock from.clock ∷ [] }
    {
        MovedWith {
            reg,
            word,
            from,
            to,
        }
    }
}

impl PackAll<Old> for MovedWith {
    ghost values = { λ m. m };

    #[inline(always)]
    fn count(&self) -> usize {
        // (the proof knows the values where a field of it is named)
        let _ = &self.from;
        3
    }

    #[inline(always)]
    fn pack_all(&self, units: &mut Vec<u32>, anchor: &mut Anchor) {
        append_with(self.reg, self.word, self.from, self.to, units, anchor);
    }
}

// A register, the location and the clock: in one header, where it is known what stood there before and the header has the bits.
#[inline(always)]
fn append_with(
    reg: Reg,
    word: Word,
    from: Anchor,
    to: Anchor,
    units: &mut Vec<u32>,
    anchor: &mut Anchor,
)
    requires loc { from.loc ≤ 4000 }
    requires room { vec_len units.old + 9 ≤ vec_capacity units.old }
    ensures said { said anchor.new units.new.items ≡ said anchor.old units.old.items ++ old.Reg reg word ∷ old.Loc from.loc ∷ old.Clock from.clock ∷ [] }
    ensures len { vec_len units.new ≤ vec_len units.old + 9 }
    ensures capacity { vec_capacity units.new ≡ vec_capacity units.old }
{
    if is_same(*anchor, from) {
        if let Some(header) = header_with(reg, word, from, to) {
            units.push_reserved(header);
            anchor.set(to);
            return;
        }
    }
    register(reg, word, units);
    append_moment(from, to, units, anchor);
}

/// Appends the location and the clock: in one header, where it is known what stood there before and the header has the bits.
#[inline(always)]
pub(crate) fn append_moment(from: Anchor, to: Anchor, units: &mut Vec<u32>, anchor: &mut Anchor)
    requires loc { from.loc ≤ 4000 }
    requires room { vec_len units.old + 6 ≤ vec_capacity units.old }
    ensures said { said anchor.new units.new.items ≡ said anchor.old units.old.items ++ old.Loc from.loc ∷ old.Clock from.clock ∷ [] }
    ensures len { vec_len units.new ≤ vec_len units.old + 6 }
    ensures capacity { vec_capacity units.new ≡ vec_capacity units.old }
{
    let time = elapsed(from, to);
    if time < 65536 && is_same(*anchor, from) {
        units.push_reserved(moment_header(time as u32, from, to));
    } else {
        append_whole(from, to, units, *anchor);
    }
    anchor.set(to);
}

// The location and the clock in full, and the anchor before.
#[cold]
#[inline(never)]
fn append_whole(from: Anchor, to: Anchor, units: &mut Vec<u32>, anchor: Anchor)
    requires loc { from.loc ≤ 4000 }
    requires room { vec_len units.old + 6 ≤ vec_capacity units.old }
    ensures said { said to units.new.items ≡ said anchor units.old.items ++ old.Loc from.loc ∷ old.Clock from.clock ∷ [] }
    ensures len { vec_len units.new ≤ vec_len units.old + 6 }
    ensures capacity { vec_capacity units.new ≡ vec_capacity units.old }
{
    append_time(anchor.clock, units);
    append_time(from.clock, units);
    let payload = u32::from(anchor.loc) * 4096 + u32::from(from.loc);
    units.push_reserved(Kind::WholeMoment.header(payload));
}

// A time in two units.
fn append_time(clock: u64, units: &mut Vec<u32>)
    requires room { vec_len units.old + 2 ≤ vec_capacity units.old }
    ensures items { IsAfterTime units.old.items clock units.new.items }
    ensures len { vec_len units.new ≡ vec_len units.old + 2 }
    ensures capacity { vec_capacity units.new ≡ vec_capacity units.old }
{
    let (low, high) = halves(Time::of(clock));
    units.push_reserved(low);
    units.push_reserved(high);
}

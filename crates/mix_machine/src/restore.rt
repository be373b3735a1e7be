//! Kept values put back: what one header says at once, or one value.
ghost use Rattle.std.specs.Prelude.{◌≡◌, ◌-◌, ◌/◌, ◌<◌, ◌≤◌, ◌++◌, [], ◌∷◌, IsSome, IfSome, IsTrue, length, drop, reverse, vec_len, vec_capacity};
ghost use Rattle.undo_core.specs.Replay.{put_back};
ghost use Rattle.mix_machine.specs.Prelude.{last_clock, put_value, set_value, fits, header_of, last_value, said, IsRow, Restored};
ghost use Rattle.mix_machine.specs.declared.old.Old.TheVariants as old;
ghost use Rattle.mix_machine.specs.declared.pack.kind.Kind.TheVariants as kind;

mod stored;

use crate::cells::put_words;
use crate::old::Old;
use crate::pack::{
    Anchor, Kind, before_jump, before_moment, before_short, register, row_of, short,
    short_register, take_before, wide_bits,
};
use crate::world::World;
use mix_word::Reg;

impl World {
    // Puts back what stands before a header: what a step keeps in one header at once. Its kind is asked once: a row is one of the kinds.
    #[inline(always)]
    pub(crate) fn restore_by(
        &mut self,
        header: u32,
        units: &mut Vec<u32>,
        anchor: &mut Anchor,
        most: usize,
    ) -> usize
        requires room { vec_len units.old < vec_capacity units.old }
        requires most { 0 < most }
        requires within { most ≤ length (said anchor.old (units.old.items ++ header ∷ [])) }
        requires fits { IsSome (put_back put_value (drop (length (said anchor.old (units.old.items ++ header ∷ [])) - most) (said anchor.old (units.old.items ++ header ∷ []))) self.old) }
        ensures restored { Restored (said anchor.old (units.old.items ++ header ∷ [])) (said anchor.new units.new.items) self.old self.new result }
        ensures within { result ≤ most }
    {
        match Kind::of(header) {
            Some(Kind::Row) => self.restore_cells(header, units, anchor, most),
            Some(Kind::Moment) => self.restore_moment(header, units, anchor, most),
            Some(Kind::Jump) => self.restore_jump(header, units, anchor, most),
            Some(Kind::Short) => self.restore_short(header, units, anchor, most),
            Some(Kind::Store) => self.restore_store(header, units, anchor, most),
            _ => self.restore_one(header, units, anchor, most),
        }
    }

    // The same of a moment: its clock and its location, where both may be taken off.
    #[inline(always)]
    fn restore_moment(
        &mut self,
        header: u32,
        units: &mut Vec<u32>,
        anchor: &mut Anchor,
        most: usize,
    ) -> usize
        requires kind { header ≡ header_of kind.Moment (header / 16) }
        requires room { vec_len units.old < vec_capacity units.old }
        requires most { 0 < most }
        requires within { most ≤ length (said anchor.old (units.old.items ++ header ∷ [])) }
        requires fits { IsSome (put_back put_value (drop (length (said anchor.old (units.old.items ++ header ∷ [])) - most) (said anchor.old (units.old.items ++ header ∷ []))) self.old) }
        ensures restored { Restored (said anchor.old (units.old.items ++ header ∷ [])) (said anchor.new units.new.items) self.old self.new result }
        ensures within { result ≤ most }
    {
        if most < 2 {
            return self.restore_fewer(header, units, anchor, most);
        }
        let to = before_moment(header / 16, *anchor);
        self.go_to(to.loc, to.clock);
        anchor.set(to);
        2
    }

    // The same of a jump: the clock, the location and rJ.
    #[inline(always)]
    fn restore_jump(
        &mut self,
        header: u32,
        units: &mut Vec<u32>,
        anchor: &mut Anchor,
        most: usize,
    ) -> usize
        requires kind { header ≡ header_of kind.Jump (header / 16) }
        requires room { vec_len units.old < vec_capacity units.old }
        requires most { 0 < most }
        requires within { most ≤ length (said anchor.old (units.old.items ++ header ∷ [])) }
        requires fits { IsSome (put_back put_value (drop (length (said anchor.old (units.old.items ++ header ∷ [])) - most) (said anchor.old (units.old.items ++ header ∷ []))) self.old) }
        ensures restored { Restored (said anchor.old (units.old.items ++ header ∷ [])) (said anchor.new units.new.items) self.old self.new result }
        ensures within { result ≤ most }
    {
        let payload = header / 16;
        if !takes_three(payload % 2, most) {
            return self.restore_fewer(header, units, anchor, most);
        }
        let to = before_jump(payload, *anchor);
        self.go_to(to.loc, to.clock);
        anchor.set(to);
        self.set_value(Old::Reg(Reg::J, short(wide_bits(4096, payload / 8192))));
        3
    }

    // The same of a short step: the clock, the location and a register.
    #[inline(always)]
    fn restore_short(
        &mut self,
        header: u32,
        units: &mut Vec<u32>,
        anchor: &mut Anchor,
        most: usize,
    ) -> usize
        requires kind { header ≡ header_of kind.Short (header / 16) }
        requires room { vec_len units.old < vec_capacity units.old }
        requires most { 0 < most }
        requires within { most ≤ length (said anchor.old (units.old.items ++ header ∷ [])) }
        requires fits { IsSome (put_back put_value (drop (length (said anchor.old (units.old.items ++ header ∷ [])) - most) (said anchor.old (units.old.items ++ header ∷ []))) self.old) }
        ensures restored { Restored (said anchor.old (units.old.items ++ header ∷ [])) (said anchor.new units.new.items) self.old self.new result }
        ensures within { result ≤ most }
    {
        let payload = header / 16;
        if !takes_three(payload / 16 % 2, most) {
            return self.restore_fewer(header, units, anchor, most);
        }
        let reg = short_register(payload);
        let to = before_short(payload, *anchor);
        self.go_to(to.loc, to.clock);
        anchor.set(to);
        let word = short(wide_bits(0x40_0000, payload / 32));
        self.set_value(Old::Reg(reg, word));
        3
    }

    // Sets the clock and the location.
    #[inline(always)]
    fn go_to(&mut self, loc: u16, clock: u64)
        requires loc { loc ≤ 4000 }
        requires clock { clock ≤ last_clock }
        ensures { self.new ≡ set_value (set_value self.old (old.Clock clock)) (old.Loc loc) }
    {
        self.loc = loc;
        self.clock = clock;
    }

    // Puts back the cells of a row where they may all be taken off, or else the last one.
    #[inline(always)]
    fn restore_cells(
        &mut self,
        header: u32,
        units: &mut Vec<u32>,
        anchor: &mut Anchor,
        most: usize,
    ) -> usize
        requires room { vec_len units.old < vec_capacity units.old }
        requires most { 0 < most }
        requires within { most ≤ length (said anchor.old (units.old.items ++ header ∷ [])) }
        requires fits { IsSome (put_back put_value (drop (length (said anchor.old (units.old.items ++ header ∷ [])) - most) (said anchor.old (units.old.items ++ header ∷ []))) self.old) }
        ensures restored { Restored (said anchor.old (units.old.items ++ header ∷ [])) (said anchor.new units.new.items) self.old self.new result }
        ensures within { result ≤ most }
    {
        match row_of(header, units.len(), most) {
            Some((place, count)) => {
                self.restore_row(header, place, count, units, *anchor);
                count
            }
            None => self.restore_fewer(header, units, anchor, most),
        }
    }

    // Puts back the cells of a row, before its header.
    #[inline(never)]
    fn restore_row(
        &mut self,
        header: u32,
        place: usize,
        count: usize,
        units: &mut Vec<u32>,
        anchor: Anchor,
    )
        requires row { IsRow header place count }
        requires units { count ≤ vec_len units.old }
        ensures { Restored (said anchor (units.old.items ++ header ∷ [])) (said anchor units.new.items) self.old self.new count }
    {
        // (the proof knows the ranges of the machine where a field of it is named)
        let _ = &self.loc;
        let left = units.len() - count;
        put_words(&mut self.cells, place, &units[left..]);
        units.truncate(left);
    }

    // The same where fewer values may be taken off than a header says. (Apart, so that what puts back all of them is short, and is inlined.)
    #[cold]
    #[inline(never)]
    fn restore_fewer(
        &mut self,
        header: u32,
        units: &mut Vec<u32>,
        anchor: &mut Anchor,
        most: usize,
    ) -> usize
        requires room { vec_len units.old < vec_capacity units.old }
        requires most { 0 < most }
        requires within { most ≤ length (said anchor.old (units.old.items ++ header ∷ [])) }
        requires fits { IsSome (put_back put_value (drop (length (said anchor.old (units.old.items ++ header ∷ [])) - most) (said anchor.old (units.old.items ++ header ∷ []))) self.old) }
        ensures restored { Restored (said anchor.old (units.old.items ++ header ∷ [])) (said anchor.new units.new.items) self.old self.new 1 }
        ensures one { result ≡ 1 }
        ensures within { result ≤ most }
    {
        self.restore_one(header, units, anchor, most)
    }

    // Puts back the last value alone.
    #[inline(always)]
    fn restore_one(
        &mut self,
        header: u32,
        units: &mut Vec<u32>,
        anchor: &mut Anchor,
        most: usize,
    ) -> usize
        requires room { vec_len units.old < vec_capacity units.old }
        requires most { 0 < most }
        requires within { most ≤ length (said anchor.old (units.old.items ++ header ∷ [])) }
        requires fits { IsSome (put_back put_value (drop (length (said anchor.old (units.old.items ++ header ∷ [])) - most) (said anchor.old (units.old.items ++ header ∷ []))) self.old) }
        ensures restored { Restored (said anchor.old (units.old.items ++ header ∷ [])) (said anchor.new units.new.items) self.old self.new 1 }
        ensures one { result ≡ 1 }
        ensures within { result ≤ most }
    {
        self.restore_before(header, units, anchor);
        1
    }

    // Puts back the last value of units, before their header. What steps keep most is put back by its kind at once.
    #[inline(always)]
    fn restore_before(&mut self, header: u32, units: &mut Vec<u32>, anchor: &mut Anchor)
        requires room { vec_len units.old < vec_capacity units.old }
        requires some { IsSome (last_value anchor.old (header ∷ reverse units.old.items)) }
        requires fits { IfSome (last_value anchor.old (header ∷ reverse units.old.items)) (λ last. IsTrue (fits self.old last.value)) }
        ensures { IfSome (last_value anchor.old (header ∷ reverse units.old.items)) (λ last. (self.new ≡ set_value self.old last.value) × (reverse units.new.items ≡ last.before) × (anchor.new ≡ last.anchor)) }
    {
        let payload = header / 16;
        match Kind::of(header) {
            Some(Kind::Location) => self.set_value(Old::Loc((payload % 65536) as u16)),
            Some(Kind::Register) => match register(payload % 16, short(payload / 16)) {
                Some(held) => self.set_value(held),
                None => unreachable!(),
            },
            _ => match take_before(header, units, anchor) {
                Some(value) => self.set_value(value),
                None => unreachable!(),
            },
        }
    }
}

// Whether all three values of a header may be taken off, and none has been, which its bit says.
#[inline(always)]
fn takes_three(bit: u32, most: usize) -> bool
    ensures most { IsTrue result → 2 < most }
    ensures bit { IsTrue result → bit ≡ 0 }
{
    most > 2 && bit == 0
}

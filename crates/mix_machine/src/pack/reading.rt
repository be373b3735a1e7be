//! The last value of units, read from their header.
ghost use Rattle.std.specs.Prelude.{◌≡◌, ◌<◌, ◌≤◌, ℕ, ◌^◌, ◌++◌, [], ◌∷◌, Option, Some, None, IfSome, IsTrue, MatchOption, length, take, reverse, vec_len, vec_capacity};
ghost use Rattle.std.specs.Option.{option_map};
ghost use Rattle.undo_core.specs.Pack.{unit_list};
ghost use Rattle.mix_machine.specs.declared.old.Old.{Old};
ghost use Rattle.mix_machine.specs.declared.pack.kind.Kind.TheVariants as kind;
ghost use Rattle.mix_machine.specs.Pack.{shorter_row, last_cell, value_by, last_of, last_value, seen, is_rare, whole_value};

use crate::old::Old;
use crate::pack::anchor::Anchor;
use crate::pack::kind::Kind;
use crate::pack::last::{alone, last_two, with_more};
use crate::pack::parts::{breakpoint, indicator, long, register, short, time, unit_of};
use crate::pack::step::{before_jump, before_moment, before_short, before_store, wide_bits};
use crate::time::Time;
use mix_word::Place;
use undo_core::Last;

/// Takes off the last value of units, before their header, if there is one.
pub(crate) fn take_before(header: u32, units: &mut Vec<u32>, anchor: &mut Anchor) -> Option<Old>
    requires { vec_len units.old < vec_capacity units.old }
    ensures { MatchOption result (last_value anchor.old (header ∷ reverse units.old.items) ≡ None)
        (λ value. last_value anchor.old (header ∷ reverse units.old.items) ≡ Some (last_of value anchor.new (reverse units.new.items))) }
{
    let last = last_before(header, units, *anchor)?;
    leave(units, last.left, last.more);
    *anchor = last.anchor;
    Some(last.value)
}

// Leaves the first units, and maybe one more.
#[inline(always)]
fn leave(units: &mut Vec<u32>, left: usize, more: Option<u32>)
    requires { left < vec_capacity units.old }
    ensures { units.new.items ≡ take left units.old.items ++ unit_list more }
{
    units.truncate(left);
    if let Some(unit) = more {
        units.push_reserved(unit);
    }
}

/// The last value of units that end in a header, and what is left before it.
#[inline(always)]
pub(crate) fn last_before(header: u32, before: &[u32], anchor: Anchor) -> Option<Last<Old, Anchor>>
    ensures is { option_map (seen before.now) result ≡ last_value anchor (header ∷ reverse before.now) }
    ensures within { IfSome result (λ last. last.left ≤ length before.now) }
{
    let payload = header / 16;
    match Kind::of(header)? {
        // the most frequent ones first
        Kind::Location => Some(alone(Old::Loc((payload % 65536) as u16), before, anchor)),
        Kind::Register => Some(alone(register(payload % 16, short(payload / 16))?, before, anchor)),
        Kind::Row => cell(payload, before, anchor),
        Kind::Moment => Some(moment(payload, before, anchor)),
        Kind::Jump => Some(jump(payload, before, anchor)),
        Kind::Short => Some(short_step(payload, before, anchor)),
        Kind::Store => Some(store(payload, before, anchor)),
        kind => rare(kind, payload, before, anchor),
    }
}

// The clock of a moment: its location is left.
#[inline(always)]
fn moment(payload: u32, before: &[u32], anchor: Anchor) -> Last<Old, Anchor>
    requires { payload < 2 ^ 28 }
    ensures is { Some (seen before.now result) ≡ value_by kind.Moment payload anchor (reverse before.now) }
    ensures left { result.left ≡ length before.now }
{
    let earlier = before_moment(payload, anchor);
    with_more(
        Old::Clock(Time::of(earlier.clock)),
        before,
        Kind::Location.header(u32::from(earlier.loc)),
        earlier,
    )
}

// The clock of a jump, or its location: what else it says is left.
fn jump(payload: u32, before: &[u32], anchor: Anchor) -> Last<Old, Anchor>
    requires { payload < 2 ^ 28 }
    ensures is { Some (seen before.now result) ≡ value_by kind.Jump payload anchor (reverse before.now) }
    ensures left { result.left ≡ length before.now }
{
    let earlier = before_jump(payload, anchor);
    if payload % 2 == 0 {
        let value = Old::Clock(Time::of(earlier.clock));
        return with_more(value, before, Kind::Jump.header(payload + 1), earlier);
    }
    let bits = wide_bits(4096, payload / 8192);
    with_more(
        Old::Loc(earlier.loc),
        before,
        Kind::Register.header(bits * 16 + 8),
        anchor,
    )
}

// The clock of a short step, or its location: what else it says is left.
fn short_step(payload: u32, before: &[u32], anchor: Anchor) -> Last<Old, Anchor>
    requires { payload < 2 ^ 28 }
    ensures is { Some (seen before.now result) ≡ value_by kind.Short payload anchor (reverse before.now) }
    ensures left { result.left ≡ length before.now }
{
    if payload / 16 % 2 == 0 {
        let earlier = before_short(payload, anchor);
        let value = Old::Clock(Time::of(earlier.clock));
        return with_more(value, before, Kind::Short.header(payload + 16), earlier);
    }
    let bits = wide_bits(0x40_0000, payload / 32);
    with_more(
        Old::Loc(anchor.loc),
        before,
        Kind::Register.header(bits * 16 + payload % 8),
        anchor,
    )
}

// The clock of a store, or its location: its cell is left.
fn store(payload: u32, before: &[u32], anchor: Anchor) -> Last<Old, Anchor>
    requires { payload < 2 ^ 28 }
    ensures is { Some (seen before.now result) ≡ value_by kind.Store payload anchor (reverse before.now) }
    ensures left { result.left ≡ length before.now }
{
    if payload % 2 == 0 {
        let earlier = before_store(anchor);
        let value = Old::Clock(Time::of(earlier.clock));
        return with_more(value, before, Kind::Store.header(payload + 1), earlier);
    }
    let row = Kind::Row.header(4096 + payload / 2 % 4096);
    with_more(Old::Loc(anchor.loc), before, row, anchor)
}

// The same of the other kinds.
#[inline(never)]
fn rare(kind: Kind, payload: u32, before: &[u32], anchor: Anchor) -> Option<Last<Old, Anchor>>
    requires rare { IsTrue (is_rare kind) }
    requires payload { payload < 2 ^ 28 }
    ensures is { option_map (seen before.now) result ≡ value_by kind payload anchor (reverse before.now) }
    ensures within { IfSome result (λ last. last.left ≤ length before.now) }
{
    match kind {
        Kind::Location | Kind::Register | Kind::Row | Kind::Moment => unreachable!(),
        Kind::Jump | Kind::Short | Kind::Store => unreachable!(),
        Kind::LongRegister => {
            let (bits, rest) = before.split_last()?;
            Some(alone(register(payload, long(*bits))?, rest, anchor))
        }
        Kind::Indicator => Some(alone(indicator(payload), before, anchor)),
        Kind::Breakpoint => Some(alone(breakpoint(payload)?, before, anchor)),
        Kind::UnitPlace => {
            let unit = unit_of(payload / 65536)?;
            Some(alone(Old::At(unit, (payload % 65536) as u16), before, anchor))
        }
        Kind::UnitLength => {
            let unit = unit_of(payload / 65536)?;
            Some(alone(Old::Len(unit, (payload % 65536) as u16), before, anchor))
        }
        Kind::UnitItem => item(payload, before, anchor),
        Kind::UnitTime => {
            let (low, high, rest) = last_two(before)?;
            let unit = unit_of(payload)?;
            Some(alone(Old::Until(unit, time(low, high)), rest, anchor))
        }
        Kind::Clock => {
            let (low, high, rest) = last_two(before)?;
            Some(alone(Old::Clock(time(low, high)), rest, anchor))
        }
        Kind::WholeMoment => whole(payload, before),
    }
}

// The clock of a whole moment: its location is left.
fn whole(payload: u32, before: &[u32]) -> Option<Last<Old, Anchor>>
    requires { payload < 2 ^ 28 }
    ensures is { option_map (seen before.now) result ≡ whole_value payload (reverse before.now) }
    ensures within { IfSome result (λ last. last.left ≤ length before.now) }
{
    let (low, high, rest) = last_two(before)?;
    let (anchor_low, anchor_high, rest) = last_two(rest)?;
    let clock = time(anchor_low, anchor_high).number();
    let loc = (payload / 4096) as u16;
    let header = Kind::Location.header(payload % 4096);
    Some(with_more(
        Old::Clock(time(low, high)),
        rest,
        header,
        Anchor { loc, clock },
    ))
}

fn item(payload: u32, before: &[u32], anchor: Anchor) -> Option<Last<Old, Anchor>>
    requires { payload < 2 ^ 28 }
    ensures is { option_map (seen before.now) result ≡ value_by kind.UnitItem payload anchor (reverse before.now) }
    ensures within { IfSome result (λ last. last.left ≤ length before.now) }
{
    let (bits, block, rest) = last_two(before)?;
    let unit = unit_of(payload / 256)?;
    let (i, j) = ((block % 65536) as u16, (payload % 256) as u8);
    Some(alone(Old::Item(unit, i, j, long(bits)), rest, anchor))
}

// The last cell of a row.
#[inline(always)]
fn cell(payload: u32, before: &[u32], anchor: Anchor) -> Option<Last<Old, Anchor>>
    requires { payload < 2 ^ 28 }
    ensures is { option_map (seen before.now) result ≡ last_cell payload anchor (reverse before.now) }
    ensures within { IfSome result (λ last. last.left ≤ length before.now) }
{
    let (bits, rest) = before.split_last()?;
    let place = Place::of((payload % 4096) as u16)?;
    Some(Last {
        value: Old::Cell(place, long(*bits)),
        left: rest.len(),
        more: shorter(payload),
        anchor,
    })
}

// The header of a row without its last cell, if there is another one.
#[inline(always)]
fn shorter(payload: u32) -> Option<u32>
    requires { payload < 2 ^ 28 }
    ensures { result ≡ shorter_row payload }
{
    if payload < 2 * 4096 {
        None
    } else {
        Some(Kind::Row.header(payload - 4097))
    }
}

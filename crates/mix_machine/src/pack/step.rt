//! What the headers of a step say: its location, its time, a register.
ghost use Rattle.std.specs.Prelude.{◌≡◌, ◌<◌, ◌≤◌, ◌*◌, ◌%◌, ◌^◌, Some, slice_get};
ghost use Rattle.mix_word.specs.Prelude.{all_registers, word};
ghost use Rattle.mix_machine.specs.Pack.{before_moment, before_jump, before_next, before_short, before_store, short_word, wide_bits};

use crate::pack::anchor::Anchor;
use mix_word::{Reg, Sign, Word};

/// The anchor before a moment.
#[inline(always)]
pub(crate) fn before_moment(payload: u32, anchor: Anchor) -> Anchor
    ensures { result ≡ before_moment payload anchor }
{
    Anchor {
        loc: (payload % 4096) as u16,
        clock: anchor.clock.saturating_sub(u64::from(payload / 4096)),
    }
}

/// The anchor before a jump.
#[inline(always)]
pub(crate) fn before_jump(payload: u32, anchor: Anchor) -> Anchor
    ensures { result ≡ before_jump payload anchor }
{
    Anchor {
        loc: (payload / 2 % 4096) as u16,
        clock: anchor.clock.saturating_sub(1),
    }
}

/// The anchor before a short step.
#[inline(always)]
pub(crate) fn before_short(payload: u32, anchor: Anchor) -> Anchor
    ensures { result ≡ before_short payload anchor }
{
    before_next(payload / 8 % 2 + 1, anchor)
}

/// The anchor before a store.
#[inline(always)]
pub(crate) fn before_store(anchor: Anchor) -> Anchor
    ensures { result ≡ before_store anchor }
{
    before_next(2, anchor)
}

// The anchor before a step that goes on to the next location and takes so many u.
#[inline(always)]
fn before_next(time: u32, anchor: Anchor) -> Anchor
    ensures { result ≡ before_next time anchor }
{
    Anchor {
        loc: anchor.loc.saturating_sub(1),
        clock: anchor.clock.saturating_sub(u64::from(time)),
    }
}

/// The register of a short step.
#[inline(always)]
pub(crate) fn short_register(payload: u32) -> Reg
    ensures { slice_get all_registers (payload % 8) ≡ Some result }
{
    match payload % 8 {
        0 => Reg::A,
        1 => Reg::X,
        2 => Reg::I1,
        3 => Reg::I2,
        4 => Reg::I3,
        5 => Reg::I4,
        6 => Reg::I5,
        _ => Reg::I6,
    }
}

/// The bits of a word whose magnitude is below a limit as those of one below 2^23.
#[inline(always)]
pub(crate) fn wide_bits(limit: u32, bits: u32) -> u32
    requires limit { 0 < limit }
    requires low { limit ≤ 2 ^ 22 }
    ensures is { result ≡ wide_bits limit bits }
    ensures bound { result < 2 ^ 24 }
{
    if bits < limit {
        bits % limit
    } else {
        0x80_0000 + bits % limit
    }
}

/// The bits of a word whose magnitude is below a limit.
#[inline(always)]
pub(crate) fn bits_below(limit: u32, word: Word) -> u32
    requires low { limit ≤ 2 ^ 22 }
    requires below { word.magnitude < limit }
    ensures is { short_word (wide_bits limit result) ≡ word }
    ensures bound { result < 2 * limit }
{
    signed_bits(limit, word.sign(), word.magnitude())
}

#[inline(always)]
fn signed_bits(limit: u32, sign: Sign, magnitude: u32) -> u32
    requires low { limit ≤ 2 ^ 22 }
    requires below { magnitude < limit }
    ensures is { short_word (wide_bits limit result) ≡ word sign magnitude }
    ensures bound { result < 2 * limit }
{
    match sign {
        Sign::Plus => magnitude,
        Sign::Minus => magnitude + limit,
    }
}

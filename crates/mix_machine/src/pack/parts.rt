//! The parts of a value, as numbers and back: times, words, registers, the comparison indicator, breakpoints, units.
ghost use Rattle.std.specs.Prelude.{◌≡◌, ◌<◌, ◌^◌, Some, None, cond, nat_lt, slice_get};
ghost use Rattle.mix_word.specs.Prelude.{all_registers, unit_count};
ghost use Rattle.mix_machine.specs.Pack.{comparison_of, indicator_value, short_word, long_word, time_of, register_value, breakpoint_value};

use crate::old::Old;
use crate::time::Time;
use crate::units::UnitNo;
use mix_word::{Cmp, Place, Reg, Sign, UNITS, Word};

/// A time of its lower and its upper 32 bits.
#[inline(always)]
pub(crate) fn time(low: u32, high: u32) -> Time
    ensures { result ≡ time_of low high }
{
    Time::of(u64::from(high) * 0x1_0000_0000 + u64::from(low))
}

/// The lower and the upper 32 bits of a time.
#[inline(always)]
pub(crate) fn halves(time: Time) -> (u32, u32)
    ensures { time_of result.0 result.1 ≡ time }
{
    let number = time.number();
    (
        (number % 0x1_0000_0000) as u32,
        (number / 0x1_0000_0000) as u32,
    )
}

/// A word whose magnitude is below 2^23.
#[inline(always)]
pub(crate) fn short(bits: u32) -> Word
    ensures { result ≡ short_word bits }
{
    let sign = if bits < 0x80_0000 {
        Sign::Plus
    } else {
        Sign::Minus
    };
    Word::of(sign, bits % 0x80_0000)
}

/// The bits of such a word.
#[inline(always)]
pub(crate) fn short_bits(word: Word) -> u32
    requires { word.magnitude < 2 ^ 23 }
    ensures is { short_word result ≡ word }
    ensures bound { result < 2 ^ 24 }
{
    match word.sign() {
        Sign::Plus => word.magnitude(),
        Sign::Minus => word.magnitude() + 0x80_0000,
    }
}

/// Any word.
#[inline(always)]
pub(crate) fn long(bits: u32) -> Word
    ensures { result ≡ long_word bits }
{
    let sign = if bits < 0x4000_0000 {
        Sign::Plus
    } else {
        Sign::Minus
    };
    Word::of(sign, bits % 0x4000_0000)
}

/// The bits of any word.
#[inline(always)]
pub(crate) fn long_bits(word: Word) -> u32
    ensures { long_word result ≡ word }
{
    match word.sign() {
        Sign::Plus => word.magnitude(),
        Sign::Minus => word.magnitude() + 0x4000_0000,
    }
}

/// The register of this number, if there is one, with its word.
#[inline(always)]
pub(crate) fn register(number: u32, word: Word) -> Option<Old>
    ensures { result ≡ register_value number word }
{
    match reg(number) {
        Some(reg) => Some(Old::Reg(reg, word)),
        None => None,
    }
}

#[inline(always)]
fn reg(number: u32) -> Option<Reg>
    ensures { result ≡ slice_get all_registers number }
{
    match number {
        0 => Some(Reg::A),
        1 => Some(Reg::X),
        2 => Some(Reg::I1),
        3 => Some(Reg::I2),
        4 => Some(Reg::I3),
        5 => Some(Reg::I4),
        6 => Some(Reg::I5),
        7 => Some(Reg::I6),
        8 => Some(Reg::J),
        _ => None,
    }
}

/// The overflow toggle or the comparison indicator.
pub(crate) fn indicator(payload: u32) -> Old
    ensures { result ≡ indicator_value payload }
{
    match payload {
        0 => Old::Over(false),
        1 => Old::Over(true),
        2 => Old::Cmp(Cmp::Less),
        3 => Old::Cmp(Cmp::Equal),
        _ => Old::Cmp(Cmp::Greater),
    }
}

/// The number of the comparison indicator.
pub(crate) fn number_of(cmp: Cmp) -> u32
    ensures is { comparison_of result ≡ cmp }
    ensures bound { result < 3 }
{
    match cmp {
        Cmp::Less => 0,
        Cmp::Equal => 1,
        Cmp::Greater => 2,
    }
}

/// The breakpoint of a cell, if there is such a cell.
pub(crate) fn breakpoint(payload: u32) -> Option<Old>
    ensures { result ≡ breakpoint_value payload }
{
    let place = Place::of((payload % 4096) as u16)?;
    Some(Old::Break(place, payload / 4096 == 1))
}

/// The unit of this number, if there is one.
pub(crate) fn unit_of(number: u32) -> Option<UnitNo>
    ensures { result ≡ cond (nat_lt number unit_count) (Some number) None }
{
    if number < u32::from(UNITS) {
        UnitNo::of(number as u8)
    } else {
        None
    }
}

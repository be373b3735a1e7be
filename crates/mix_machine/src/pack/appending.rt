//! The units of a value, appended.
ghost use Rattle.std.specs.Prelude.{◌≡◌, ◌+◌, ◌*◌, ◌%◌, ◌<◌, ◌≤◌, ◌^◌, ◌++◌, [], ◌∷◌, Some, IsTrue, reverse, vec_len, vec_capacity};
ghost use Rattle.mix_machine.specs.Prelude.{Old, Anchor, last_of, value_by, said};
ghost use Rattle.mix_machine.specs.declared.old.Old.TheVariants as old;

use crate::old::Old;
use crate::pack::kind::Kind;
use crate::pack::parts::{halves, long_bits, number_of, short_bits};
use crate::time::Time;
use crate::units::UnitNo;
use mix_word::{Place, Reg, Word};

/// Appends a value.
#[inline(always)]
pub(crate) fn append(value: Old, units: &mut Vec<u32>)
    requires { vec_len units.old + 3 ≤ vec_capacity units.old }
    ensures said { (a : Anchor) → said a units.new.items ≡ said a units.old.items ++ value ∷ [] }
    ensures len { vec_len units.new ≤ vec_len units.old + 3 }
    ensures capacity { vec_capacity units.new ≡ vec_capacity units.old }
{
    match value {
        Old::Loc(place) => one(Kind::Location, u32::from(place), units),
        Old::Clock(time) => clock(time, units),
        Old::Reg(reg, word) => register(reg, word, units),
        Old::Cell(place, word) => cell(place, word, units),
        Old::Over(on) => one(Kind::Indicator, u32::from(on), units),
        Old::Cmp(cmp) => one(Kind::Indicator, 2 + number_of(cmp), units),
        Old::Break(place, on) => breakpoint(place, on, units),
        Old::At(unit, place) => unit_place(unit, place, units),
        Old::Len(unit, length) => unit_length(unit, length, units),
        Old::Item(unit, i, j, word) => unit_item(unit, i, j, word, units),
        Old::Until(unit, time) => unit_time(unit, time, units),
    }
}

// What a step keeps most is appended in each operation, whatever is rare, or long, by a function of its own.
#[inline(never)]
fn clock(time: Time, units: &mut Vec<u32>)
    requires { vec_len units.old + 3 ≤ vec_capacity units.old }
    ensures said { (a : Anchor) → said a units.new.items ≡ said a units.old.items ++ old.Clock time ∷ [] }
    ensures len { vec_len units.new ≤ vec_len units.old + 3 }
    ensures capacity { vec_capacity units.new ≡ vec_capacity units.old }
{
    let (low, high) = halves(time);
    three(Kind::Clock, 0, low, high, units);
}

/// Appends a register.
#[inline(always)]
pub(crate) fn register(reg: Reg, word: Word, units: &mut Vec<u32>)
    requires { vec_len units.old + 3 ≤ vec_capacity units.old }
    ensures said { (a : Anchor) → said a units.new.items ≡ said a units.old.items ++ old.Reg reg word ∷ [] }
    ensures len { vec_len units.new ≤ vec_len units.old + 3 }
    ensures capacity { vec_capacity units.new ≡ vec_capacity units.old }
{
    if word.magnitude() < 0x80_0000 {
        let number = u32::from(reg.number());
        one(Kind::Register, short_bits(word) * 16 + number, units);
    } else {
        long_register(reg, word, units);
    }
}

#[inline(never)]
fn long_register(reg: Reg, word: Word, units: &mut Vec<u32>)
    requires { vec_len units.old + 3 ≤ vec_capacity units.old }
    ensures said { (a : Anchor) → said a units.new.items ≡ said a units.old.items ++ old.Reg reg word ∷ [] }
    ensures len { vec_len units.new ≤ vec_len units.old + 3 }
    ensures capacity { vec_capacity units.new ≡ vec_capacity units.old }
{
    let number = u32::from(reg.number());
    two(Kind::LongRegister, number, long_bits(word), units);
}

/// Appends a cell, which makes a row longer that ends one place before it.
#[inline]
pub(crate) fn cell(place: Place, word: Word, units: &mut Vec<u32>)
    requires { vec_len units.old + 3 ≤ vec_capacity units.old }
    ensures said { (a : Anchor) → said a units.new.items ≡ said a units.old.items ++ old.Cell place word ∷ [] }
    ensures len { vec_len units.new ≤ vec_len units.old + 3 }
    ensures capacity { vec_capacity units.new ≡ vec_capacity units.old }
{
    match units.pop() {
        None => row(place, word, units),
        Some(header) => {
            if ends_before(header, place) {
                units.push_reserved(long_bits(word));
                units.push_reserved(header + 65552);
            } else {
                units.push_reserved(header);
                row(place, word, units);
            }
        }
    }
}

// Whether a row with this header ends one place before, and can be longer.
#[inline(always)]
fn ends_before(header: u32, place: Place) -> bool
    ensures cell { place < 4000 }
    ensures row { IsTrue result → (header % 65536 + 16 ≡ place * 16 + 3) × (65536 ≤ header) × (header < 65535 * 65536) }
{
    header % 65536 + 16 == u32::from(place.number()) * 16 + 3
        && header >= 0x1_0000
        && header < 0xffff_0000
}

// A row of one cell.
#[inline(always)]
fn row(place: Place, word: Word, units: &mut Vec<u32>)
    requires { vec_len units.old + 3 ≤ vec_capacity units.old }
    ensures said { (a : Anchor) → said a units.new.items ≡ said a units.old.items ++ old.Cell place word ∷ [] }
    ensures len { vec_len units.new ≤ vec_len units.old + 3 }
    ensures capacity { vec_capacity units.new ≡ vec_capacity units.old }
{
    let payload = 4096 + u32::from(place.number());
    two(Kind::Row, payload, long_bits(word), units);
}

#[inline(never)]
fn breakpoint(place: Place, on: bool, units: &mut Vec<u32>)
    requires { vec_len units.old + 3 ≤ vec_capacity units.old }
    ensures said { (a : Anchor) → said a units.new.items ≡ said a units.old.items ++ old.Break place on ∷ [] }
    ensures len { vec_len units.new ≤ vec_len units.old + 3 }
    ensures capacity { vec_capacity units.new ≡ vec_capacity units.old }
{
    let payload = u32::from(on) * 4096 + u32::from(place.number());
    one(Kind::Breakpoint, payload, units);
}

#[inline(never)]
fn unit_place(unit: UnitNo, place: u16, units: &mut Vec<u32>)
    requires { vec_len units.old + 3 ≤ vec_capacity units.old }
    ensures said { (a : Anchor) → said a units.new.items ≡ said a units.old.items ++ old.At unit place ∷ [] }
    ensures len { vec_len units.new ≤ vec_len units.old + 3 }
    ensures capacity { vec_capacity units.new ≡ vec_capacity units.old }
{
    let payload = u32::from(unit.number()) * 65536 + u32::from(place);
    one(Kind::UnitPlace, payload, units);
}

#[inline(never)]
fn unit_length(unit: UnitNo, length: u16, units: &mut Vec<u32>)
    requires { vec_len units.old + 3 ≤ vec_capacity units.old }
    ensures said { (a : Anchor) → said a units.new.items ≡ said a units.old.items ++ old.Len unit length ∷ [] }
    ensures len { vec_len units.new ≤ vec_len units.old + 3 }
    ensures capacity { vec_capacity units.new ≡ vec_capacity units.old }
{
    let payload = u32::from(unit.number()) * 65536 + u32::from(length);
    one(Kind::UnitLength, payload, units);
}

#[inline(never)]
fn unit_item(unit: UnitNo, i: u16, j: u8, word: Word, units: &mut Vec<u32>)
    requires { vec_len units.old + 3 ≤ vec_capacity units.old }
    ensures said { (a : Anchor) → said a units.new.items ≡ said a units.old.items ++ old.Item unit i j word ∷ [] }
    ensures len { vec_len units.new ≤ vec_len units.old + 3 }
    ensures capacity { vec_capacity units.new ≡ vec_capacity units.old }
{
    let payload = u32::from(unit.number()) * 256 + u32::from(j);
    three(
        Kind::UnitItem,
        payload,
        long_bits(word),
        u32::from(i),
        units,
    );
}

#[inline(never)]
fn unit_time(unit: UnitNo, time: Time, units: &mut Vec<u32>)
    requires { vec_len units.old + 3 ≤ vec_capacity units.old }
    ensures said { (a : Anchor) → said a units.new.items ≡ said a units.old.items ++ old.Until unit time ∷ [] }
    ensures len { vec_len units.new ≤ vec_len units.old + 3 }
    ensures capacity { vec_capacity units.new ≡ vec_capacity units.old }
{
    let (low, high) = halves(time);
    three(Kind::UnitTime, u32::from(unit.number()), low, high, units);
}

// A header alone.
#[inline(always)]
fn one(kind: Kind, payload: u32, units: &mut Vec<u32>)
    requires room { vec_len units.old + 3 ≤ vec_capacity units.old }
    requires payload { payload < 2 ^ 28 }
    ensures said { (a : Anchor) (v : Old) → value_by kind payload a (reverse units.old.items) ≡ Some (last_of v a (reverse units.old.items)) →
        said a units.new.items ≡ said a units.old.items ++ v ∷ [] }
    ensures len { vec_len units.new ≡ vec_len units.old + 1 }
    ensures capacity { vec_capacity units.new ≡ vec_capacity units.old }
{
    units.push_reserved(kind.header(payload));
}

// A header after another unit.
#[inline(always)]
fn two(kind: Kind, payload: u32, first: u32, units: &mut Vec<u32>)
    requires room { vec_len units.old + 3 ≤ vec_capacity units.old }
    requires payload { payload < 2 ^ 28 }
    ensures said { (a : Anchor) (v : Old) → value_by kind payload a (first ∷ reverse units.old.items) ≡ Some (last_of v a (reverse units.old.items)) →
        said a units.new.items ≡ said a units.old.items ++ v ∷ [] }
    ensures len { vec_len units.new ≡ vec_len units.old + 2 }
    ensures capacity { vec_capacity units.new ≡ vec_capacity units.old }
{
    units.push_reserved(first);
    units.push_reserved(kind.header(payload));
}

// A header after two other units.
#[inline(always)]
fn three(kind: Kind, payload: u32, first: u32, second: u32, units: &mut Vec<u32>)
    requires room { vec_len units.old + 3 ≤ vec_capacity units.old }
    requires payload { payload < 2 ^ 28 }
    ensures said { (a : Anchor) (v : Old) → value_by kind payload a (second ∷ first ∷ reverse units.old.items) ≡ Some (last_of v a (reverse units.old.items)) →
        said a units.new.items ≡ said a units.old.items ++ v ∷ [] }
    ensures len { vec_len units.new ≡ vec_len units.old + 3 }
    ensures capacity { vec_capacity units.new ≡ vec_capacity units.old }
{
    units.push_reserved(first);
    units.push_reserved(second);
    units.push_reserved(kind.header(payload));
}

//! The memory as bytes: a cell is six, its sign (0 for +, 1 for -) and its five bytes of 0 to 63; cell N begins at byte 6N.

ghost use Rattle.std.specs.Prelude.{◌≡◌, ◌∷◌, [], ◌<◌, ◌≤◌, IfSome};
ghost use Rattle.std.specs.Str.Parse.{without_leading_plus};
ghost use Rattle.dap_asked.specs.Layout.{byte_of_reference, byte_named, byte_at, byte_written, within, cell_byte, memory_byte, word_of, sign_of};

use crate::value::place_at;
use mix_machine::{Place, Sign, Word, World};
use mix_refused::Memory;
use std::alloc::Global;

/// How many bytes a cell has.
pub const CELL_BYTES: u64 = 6;

/// The reference of a cell: where it begins, in hexadecimal digits.
pub fn reference_of(alloc: Global, number: u16) -> Result<String, Memory> {
    byte_reference(alloc, u64::from(number) * CELL_BYTES)
}

/// The reference of a byte, in hexadecimal digits.
pub fn byte_reference(alloc: Global, byte: u64) -> Result<String, Memory> {
    let text = format!(in alloc; "0x{byte:04x}")?;
    Ok(text)
}

/// How many bytes the memory has.
pub const MEMORY_BYTES: u64 = 24_000;

/// The byte that a reference names, as `0x` and hexadecimal digits or as decimal digits, with an offset in bytes: within the memory or at its end.
#[tactic(auto, using(crate::proofs::ReferenceLemmas::too_far))]
pub(crate) fn byte_of_reference(reference: &str, offset: i64) -> Option<u64>
    ensures is { result ≡ byte_of_reference reference.now offset }
    ensures bound { IfSome result (λ byte. byte ≤ 24000) }
{
    let start = byte_named(reference)?;
    match (start as i64).checked_add(offset) {
        Some(byte) => byte_at(byte),
        None => None,
    }
}

// The byte of a whole number.
fn byte_at(byte: i64) -> Option<u64>
    ensures is { result ≡ byte_at byte }
    ensures bound { IfSome result (λ byte. byte ≤ 24000) }
{
    match u64::try_from(byte) {
        Ok(byte) => within(byte),
        Err(_) => None,
    }
}

// The byte that a text names.
fn byte_named(reference: &str) -> Option<u64>
    ensures is { result ≡ byte_named reference.now }
    ensures bound { IfSome result (λ byte. byte ≤ 24000) }
{
    match reference.strip_prefix("0x") {
        Some(digits) => byte_written(digits, 16),
        None => byte_written(reference, 10),
    }
}

// The byte of the number that digits write.
fn byte_written(text: &str, radix: u32) -> Option<u64>
    requires low { 2 ≤ radix }
    requires high { radix ≤ 36 }
    ensures is { result ≡ byte_written radix (without_leading_plus text.now) }
    ensures bound { IfSome result (λ byte. byte ≤ 24000) }
{
    match u64::from_str_radix(text, radix) {
        Ok(byte) => within(byte),
        Err(_) => None,
    }
}

// A number, if it is one of a byte of the memory or of its end.
fn within(byte: u64) -> Option<u64>
    ensures is { result ≡ within byte }
    ensures bound { IfSome result (λ byte. byte ≤ 24000) }
{
    if byte <= MEMORY_BYTES {
        Some(byte)
    } else {
        None
    }
}

/// The cell in which the byte of a reference with an offset lies.
pub fn cell_of_reference(reference: &str, offset: i64) -> Option<Place> {
    let byte = byte_of_reference(reference, offset)?;
    Place::of((byte / CELL_BYTES) as u16)
}

/// A byte of the memory.
pub fn memory_byte(world: &World, at: u64) -> u8
    requires { at < 24000 }
    ensures { result ≡ memory_byte world.now at }
{
    let word = world.cell(place_at((at / CELL_BYTES) as u16));
    cell_byte(word, (at % CELL_BYTES) as u8)
}

// A byte of a cell: its sign, and its five bytes.
fn cell_byte(word: Word, i: u8) -> u8
    requires { i < 6 }
    ensures { result ≡ cell_byte word i }
{
    match i {
        0 => match word.sign() {
            Sign::Plus => 0,
            Sign::Minus => 1,
        },
        _ => word.byte(i),
    }
}

/// The word of the six bytes of a cell, unless the first is over 1 or another over 63.
pub fn word_of(sign: u8, a: u8, b: u8, c: u8, d: u8, e: u8) -> Option<Word>
    ensures { result ≡ word_of (sign ∷ a ∷ b ∷ c ∷ d ∷ e ∷ []) }
{
    if sign > 1 || a > 63 || b > 63 || c > 63 || d > 63 || e > 63 {
        return None;
    }
    let high = (u32::from(a) * 64 + u32::from(b)) * 64 + u32::from(c);
    Some(Word::of(
        sign_of(sign),
        (high * 64 + u32::from(d)) * 64 + u32::from(e),
    ))
}

fn sign_of(byte: u8) -> Sign
    ensures { result ≡ sign_of byte }
{
    match byte {
        0 => Sign::Plus,
        _ => Sign::Minus,
    }
}

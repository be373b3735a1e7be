//! Shifts by a number of bytes (1.3.1): of one word, or of the ten bytes of two. Signs stay.
ghost use Rattle.std.specs.Prelude.{◌≡◌, ◌*◌, ◌/◌, ◌%◌, ◌^◌, ◌<◌, ◌≤◌};
ghost use Rattle.mix_word.specs.Shift.{shift_of, split_into, rotation_of};

use crate::arithmetic::{lower, ten_bytes, upper};
use crate::operation::ShiftKind;
use crate::word::Word;

/// The words `a` and `x` shifted by `m` bytes (1.3.1), whose signs stay. SLA and SRA move `a` alone, SLAX and SRAX the ten bytes of
/// both, and SLC and SRC move these circularly. Where bytes go out, zeros come in.
pub fn shift(k: ShiftKind, a: Word, x: Word, m: u16) -> (Word, Word)
    ensures { result ≡ shift_of k a x m }
{
    let word = u64::from(a.magnitude());
    let pair = ten_bytes(a.magnitude(), x.magnitude());
    match k {
        ShiftKind::Sla => (Word::of(a.sign(), lower(left(word, m))), x),
        ShiftKind::Sra => (Word::of(a.sign(), lower(right(word, m))), x),
        ShiftKind::Slax => split(a, x, left(pair, m)),
        ShiftKind::Srax => split(a, x, right(pair, m)),
        ShiftKind::Slc => split(a, x, turn(pair, m % 10)),
        ShiftKind::Src => split(a, x, turn(pair, (10 - m % 10) % 10)),
    }
}

fn split(a: Word, x: Word, number: u64) -> (Word, Word)
    requires { number < 64 ^ 10 }
    ensures { result ≡ split_into a x number }
{
    (
        Word::of(a.sign(), upper(number)),
        Word::of(x.sign(), lower(number)),
    )
}

const TEN_BYTES: u64 = (1 << 60) - 1;

// Ten bytes moved to the left.
#[tactic(auto, using(crate::proofs::ShiftLemmas::moves))]
fn left(number: u64, m: u16) -> u64
    requires { number < 64 ^ 10 }
    ensures is { result ≡ number * 64 ^ m % 64 ^ 10 }
    ensures bound { result < 64 ^ 10 }
{
    if m < 10 {
        (number << (6 * m)) & TEN_BYTES
    } else {
        0
    }
}

// Ten bytes moved to the right.
#[tactic(auto, using(crate::proofs::ShiftLemmas::moves))]
fn right(number: u64, m: u16) -> u64
    requires { number < 64 ^ 10 }
    ensures is { result ≡ number / 64 ^ m }
    ensures bound { result ≤ number }
{
    if m < 10 { number >> (6 * m) } else { 0 }
}

// Ten bytes moved circularly to the left.
#[tactic(auto, using(crate::proofs::ShiftLemmas::moves))]
fn turn(number: u64, k: u16) -> u64
    requires number { number < 64 ^ 10 }
    requires k { k < 10 }
    ensures is { result ≡ rotation_of number k }
    ensures bound { result < 64 ^ 10 }
{
    left(number, k) + right(number, 10 - k)
}

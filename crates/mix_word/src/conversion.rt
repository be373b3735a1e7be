//! NUM and CHAR (1.3.1): between ten bytes that stand for decimal digits, and a number.
ghost use Rattle.std.specs.Prelude.{◌≡◌, ◌+◌, ◌*◌, ◌%◌, ◌^◌, ◌<◌, ◌≤◌};
ghost use Rattle.mix_word.specs.Conversion.{digit_of, five_digits_of, num_of, digit_characters_of};

use crate::arithmetic::lower;
use crate::word::{MAX_MAGNITUDE, Word};

/// NUM: the number of ten decimal digits (1.3.1), each a byte of `a` and then of `x` modulo 10, with the sign of `a`;
/// and whether it is 64^5 or more: then the number is modulo 64^5.
pub fn num(a: Word, x: Word) -> (Word, bool)
    ensures { result ≡ num_of a x }
{
    let number = u64::from(five_digits(a)) * 100_000 + u64::from(five_digits(x));
    (
        Word::of(a.sign(), lower(number)),
        number > u64::from(MAX_MAGNITUDE),
    )
}

/// CHAR: the ten decimal digits of `a` (1.3.1) as the codes 30 to 39: five in each word, whose signs stay.
pub fn to_char(a: Word, x: Word) -> (Word, Word)
    ensures { result ≡ digit_characters_of a x }
{
    let n = a.magnitude();
    let first = codes(
        n / 1_000_000_000,
        n / 100_000_000,
        n / 10_000_000,
        n / 1_000_000,
        n / 100_000,
    );
    let second = codes(n / 10_000, n / 1_000, n / 100, n / 10, n);
    (Word::of(a.sign(), first), Word::of(x.sign(), second))
}

fn five_digits(w: Word) -> u32
    ensures is { result ≡ five_digits_of w }
    ensures bound { result < 10 ^ 5 }
{
    let (a, b, c, d, e) = (
        digit(w, 1),
        digit(w, 2),
        digit(w, 3),
        digit(w, 4),
        digit(w, 5),
    );
    (((a * 10 + b) * 10 + c) * 10 + d) * 10 + e
}

fn digit(w: Word, i: u8) -> u32
    requires low { 1 ≤ i }
    requires high { i ≤ 5 }
    ensures is { result ≡ digit_of w i }
    ensures bound { result < 10 }
{
    u32::from(w.byte(i) % 10)
}

// Five bytes, each the code of the last digit of a number.
fn codes(a: u32, b: u32, c: u32, d: u32, e: u32) -> u32
    ensures is { result ≡ (30 + a % 10) * 64 ^ 4 + (30 + b % 10) * 64 ^ 3 + (30 + c % 10) * 64 ^ 2
        + (30 + d % 10) * 64 + (30 + e % 10) }
    ensures bound { result < 64 ^ 5 }
{
    let upper = ((code(a) << 6 | code(b)) << 6) | code(c);
    (upper << 6 | code(d)) << 6 | code(e)
}

fn code(n: u32) -> u32
    ensures is { result ≡ 30 + n % 10 }
    ensures bound { result < 64 }
{
    30 + n % 10
}

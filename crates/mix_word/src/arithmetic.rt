//! Sums and differences, products and quotients of words (1.3.1).
ghost use Rattle.std.specs.Prelude.{◌≡◌, ◌+◌, ◌*◌, ◌/◌, ◌%◌, ◌^◌, ◌<◌};
ghost use Rattle.mix_word.specs.Word.{negation_of};
ghost use Rattle.mix_word.specs.Arithmetic.{sum_of, product_sign, product_of, quotient_of};

use crate::word::{MAX_MAGNITUDE, Sign, Word};

/// ADD: the sum (1.3.1), and whether it overflows: then it is the exact sum's magnitude modulo 64^5.
/// A sum of zero has the sign of `a`.
#[inline(always)]
pub fn add(a: Word, v: Word) -> (Word, bool)
    ensures { result ≡ sum_of a v }
{
    let (x, y) = (a.magnitude(), v.magnitude());
    if a.sign() == v.sign() {
        let sum = x + y;
        (Word::of(a.sign(), sum & MAX_MAGNITUDE), sum > MAX_MAGNITUDE)
    } else if y <= x {
        (Word::of(a.sign(), x - y), false)
    } else {
        (Word::of(v.sign(), y - x), false)
    }
}

/// SUB: the difference (1.3.1), as the sum of `a` and the negated `v`, and whether it overflows.
#[inline(always)]
pub fn sub(a: Word, v: Word) -> (Word, bool)
    ensures { result ≡ sum_of a (negation_of v) }
{
    add(a, v.negated())
}

/// MUL: the product of ten bytes (1.3.1), its upper and its lower word, both + where the signs agree and - where not.
pub fn mul(a: Word, v: Word) -> (Word, Word)
    ensures { result ≡ product_of a v }
{
    let sign = common_sign(a.sign(), v.sign());
    let product = u64::from(a.magnitude()) * u64::from(v.magnitude());
    (
        Word::of(sign, upper(product)),
        Word::of(sign, lower(product)),
    )
}

/// DIV: the quotient and the remainder of the ten bytes of `a` and `x` by `v` (1.3.1). The quotient is + where the
/// signs of `a` and `v` agree and - where not, and the remainder has the sign of `a`.
/// None where `v` is zero, or its magnitude is not above that of `a`.
pub fn div(a: Word, x: Word, v: Word) -> Option<(Word, Word)>
    ensures { result ≡ quotient_of a x v }
{
    let divisor = v.magnitude();
    if divisor <= a.magnitude() {
        return None;
    }
    let (quotient, remainder) = divided(a.magnitude(), x.magnitude(), divisor);
    let sign = common_sign(a.sign(), v.sign());
    Some((Word::of(sign, quotient), Word::of(a.sign(), remainder)))
}

fn common_sign(a: Sign, v: Sign) -> Sign
    ensures { result ≡ product_sign a v }
{
    if a == v { Sign::Plus } else { Sign::Minus }
}

fn divided(a: u32, x: u32, divisor: u32) -> (u32, u32)
    requires above { a < divisor }
    requires divisor { divisor < 64 ^ 5 }
    requires low { x < 64 ^ 5 }
    ensures quotient { result.0 ≡ (a * 64 ^ 5 + x) / divisor }
    ensures remainder { result.1 ≡ (a * 64 ^ 5 + x) % divisor }
    ensures quotient_fits { result.0 < 64 ^ 5 }
    ensures remainder_fits { result.1 < 64 ^ 5 }
{
    let number = ten_bytes(a, x);
    let divisor = u64::from(divisor);
    ((number / divisor) as u32, (number % divisor) as u32)
}

/// The number of ten bytes, the upper five and the lower five.
pub(crate) fn ten_bytes(upper: u32, lower: u32) -> u64
    requires upper { upper < 64 ^ 5 }
    requires lower { lower < 64 ^ 5 }
    ensures is { result ≡ upper * 64 ^ 5 + lower }
    ensures bound { result < 64 ^ 10 }
{
    (u64::from(upper) << 30) + u64::from(lower)
}

/// The upper five of ten bytes.
pub(crate) fn upper(number: u64) -> u32
    requires { number < 64 ^ 10 }
    ensures is { result ≡ number / 64 ^ 5 }
    ensures bound { result < 64 ^ 5 }
{
    (number >> 30) as u32
}

/// The lower five of ten bytes.
pub(crate) fn lower(number: u64) -> u32
    ensures is { result ≡ number % 64 ^ 5 }
    ensures bound { result < 64 ^ 5 }
{
    (number & u64::from(MAX_MAGNITUDE)) as u32
}

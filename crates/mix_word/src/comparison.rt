//! The comparison of a field of two words (1.3.1).
ghost use Rattle.std.specs.Prelude.{◌≡◌, pos};
ghost use Rattle.mix_word.specs.Comparison.{order_of, comparison_of};

use crate::field::Field;
use crate::word::{Cmp, Sign, Word};

/// CMP: the order of the field `f` of `a` and of `v` as signed numbers (1.3.1): -0 equals +0, and (0:0) is always equal.
pub fn compare(a: Word, v: Word, f: Field) -> Cmp
    ensures { result ≡ comparison_of a v f }
{
    let (a, v) = (a.field_value(f), v.field_value(f));
    let (x, y) = (a.magnitude(), v.magnitude());
    match (a.sign(), v.sign()) {
        (Sign::Plus, Sign::Plus) => rising(x, y),
        (Sign::Minus, Sign::Minus) => rising(y, x),
        _ if x == 0 && y == 0 => Cmp::Equal,
        (Sign::Plus, Sign::Minus) => Cmp::Greater,
        (Sign::Minus, Sign::Plus) => Cmp::Less,
    }
}

fn rising(x: u32, y: u32) -> Cmp
    ensures { result ≡ order_of (pos x) (pos y) }
{
    if x < y {
        Cmp::Less
    } else if y < x {
        Cmp::Greater
    } else {
        Cmp::Equal
    }
}

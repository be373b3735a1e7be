//! The value of a formula.
ghost use Rattle.std.specs.Prelude.{◌≡◌};
ghost use Rattle.mix_formula.specs.Formula.{told_value, value_of};
ghost use Rattle.mix_formula.specs.Names.{all_named, names_of};

use crate::arithmetic::Reckoned;
use crate::formula::sum;
use crate::names::{Named, Scope};
use crate::text::unblanked;

/// The value of a formula.
#[derive(Clone, Copy)]
pub enum Value {
    /// A number.
    Known(i64),
    /// A name in it has no value.
    Unknown,
    /// It cannot be read: the first byte, counted from 0, that is not the next one of a formula, or
    /// its length if the formula breaks off.
    Unreadable(usize),
    /// It, or a part of it, is beyond the numbers of 64 bits, or a division is by zero.
    TooLarge,
}

/// How deep brackets are in one another, and one more.
const DEPTH: u8 = 64;

/// The value of a formula, as `N-1+B-A`, `2*(M+1)` or `(T+3)//4`: of numbers of up to 18 digits and
/// names, `+`, `-`, `*`, `//` (which rounds down), round brackets, and a sign before a part. Blanks
/// may be around each of these. Products and quotients are done before sums and differences, and
/// each of the two kinds from left to right. Of two values of a name the first counts.
pub(crate) fn value_of(formula: &[u8], names: &[Named]) -> Value
    ensures { result ≡ value_of (all_named names.now) formula.now }
{
    value_with(formula, &Scope { names, tried: None })
}

/// The same with one more name.
#[tactic(auto, unfolding(crate::specs::Formula::value_of))]
pub(crate) fn value_with(formula: &[u8], scope: &Scope) -> Value
    ensures { result ≡ value_of (names_of scope.now) formula.now }
{
    match sum(scope, DEPTH, formula) {
        Err(left) => Value::Unreadable(formula.len().saturating_sub(left)),
        Ok((value, rest)) => {
            let rest = unblanked(rest);
            if rest.is_empty() {
                told(value)
            } else {
                Value::Unreadable(formula.len().saturating_sub(rest.len()))
            }
        }
    }
}

/// What a sum comes to, as a value.
pub(crate) fn told(value: Reckoned) -> Value
    ensures { result ≡ told_value value }
{
    match value {
        Reckoned::Known(number) => Value::Known(number),
        Reckoned::Unknown => Value::Unknown,
        Reckoned::TooLarge => Value::TooLarge,
    }
}

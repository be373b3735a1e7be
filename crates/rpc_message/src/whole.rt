//! Whole numbers, however JSON writes them: `2`, `2.0` and `2e0` are the same one.

ghost use Rattle.std.specs.Prelude.{◌≡◌};
ghost use Rattle.serde_json.specs.View.{view};
ghost use Rattle.rpc_message.specs.Whole.{integer_in, integer_of_float, is_integer, is_natural, natural_in, natural_of_float};

use serde_json::Value;
use std::num::{saturating_f64_to_i64, saturating_f64_to_u64};

/// The whole number below 2^64 that a value is.
pub fn natural(value: &Value) -> Option<u64>
    ensures { result ≡ natural_in (view value.now) }
{
    let number = value.as_number()?;
    if number.is_f64() {
        natural_of_float(number.as_f64()?)
    } else {
        number.as_u64()
    }
}

/// The whole number from -2^63 to below 2^63 that a value is. A float of -2^63 may stand for a
/// number below it, so it is none.
pub fn integer(value: &Value) -> Option<i64>
    ensures { result ≡ integer_in (view value.now) }
{
    let number = value.as_number()?;
    if number.is_f64() {
        integer_of_float(number.as_f64()?)
    } else {
        number.as_i64()
    }
}

fn natural_of_float(x: f64) -> Option<u64>
    ensures { result ≡ natural_of_float x }
{
    if is_natural(x) {
        Some(saturating_f64_to_u64(x))
    } else {
        None
    }
}

fn integer_of_float(x: f64) -> Option<i64>
    ensures { result ≡ integer_of_float x }
{
    if is_integer(x) {
        Some(saturating_f64_to_i64(x))
    } else {
        None
    }
}

fn is_natural(x: f64) -> bool
    ensures { result ≡ is_natural x }
{
    (x.trunc() == x) & (0.0 <= x) & (x < 18446744073709551616.0)
}

fn is_integer(x: f64) -> bool
    ensures { result ≡ is_integer x }
{
    (x.trunc() == x) & (-9223372036854775808.0 < x) & (x < 9223372036854775808.0)
}

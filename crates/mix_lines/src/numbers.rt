//! Numbers written in decimal digits.

ghost use Rattle.std.specs.Prelude.{◌≡◌, ◌<◌, ◌≤◌, ◌^◌, IfSome, length, true};
ghost use Rattle.std.specs.List.{list_all};
ghost use Rattle.mix_lines.specs.Number.{is_digit, is_digits, number_up_to, decimal_number, value_of};

/// The number that a text of 1 to 10 digits stands for, below ten thousand million; `None` for every other text.
#[tactic(auto, unfolding(crate::specs::Number::decimal_number))]
pub fn number(text: &[u8]) -> Option<u64>
    ensures value { result ≡ decimal_number text.now }
    ensures below { IfSome result (λ n. n < 10 ^ 10) }
{
    number_up_to(text, 10)
}

/// The number that a text of 1 to 18 digits stands for; `None` for every other text.
pub fn long_number(text: &[u8]) -> Option<u64>
    ensures value { result ≡ number_up_to 18 text.now }
    ensures below { IfSome result (λ n. n < 10 ^ 18) }
{
    number_up_to(text, 18)
}

fn number_up_to(text: &[u8], most: usize) -> Option<u64>
    requires { most ≤ 18 }
    ensures value { result ≡ number_up_to most text.now }
    ensures below { IfSome result (λ n. n < 10 ^ most) }
{
    if all_digits(text) && text.len() <= most {
        Some(value(text))
    } else {
        None
    }
}

/// Whether a text is one digit or more, and nothing else.
#[tactic(auto, unfolding(crate::specs::Number::is_digits))]
pub fn all_digits(text: &[u8]) -> bool
    ensures { result ≡ is_digits text.now }
{
    !text.is_empty() && are_digits(text)
}

fn are_digits(text: &[u8]) -> bool
    ensures { result ≡ list_all is_digit text.now }
{
    text.iter().all(|byte| byte.is_ascii_digit())
}

#[tactic(auto, using(crate::proofs::NumberLemmas::digits))]
fn value(text: &[u8]) -> u64
    requires digits { is_digits text.now ≡ true }
    requires short { length text.now ≤ 18 }
    ensures value { result ≡ value_of text.now }
    ensures below { result < 10 ^ length text.now }
{
    let mut value = 0;
    for digit in text {
        value = value * 10 + u64::from(*digit - b'0');
    }
    value
}

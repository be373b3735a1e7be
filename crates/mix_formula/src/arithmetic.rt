//! The arithmetic of formulas: whole numbers of 64 bits with their sign.
ghost use Rattle.std.specs.Prelude.{◌≡◌, ◌<ℤ◌, ℕ, ℤ, pos, FitsSigned};
ghost use Rattle.std.specs.Int.{w64};
ghost use Rattle.std.specs.Option.{SomeIff};
ghost use Rattle.mix_formula.specs.Arithmetic.{floor_by, negated, outcome, quotient, within};

/// What a formula, or a part of it, comes to.
#[derive(Clone, Copy)]
pub(crate) enum Reckoned {
    /// A number.
    Known(i64),
    /// A name in it has no value.
    Unknown,
    /// It, or a part of it, is beyond the numbers of 64 bits, or a division is by zero.
    TooLarge,
}

/// An operator of a formula.
#[derive(Clone, Copy)]
pub(crate) enum Operator {
    Add,
    Subtract,
    Multiply,
    /// The quotient is rounded down.
    Divide,
}

/// What an operator makes of two parts.
pub(crate) fn outcome(operator: Operator, a: Reckoned, b: Reckoned) -> Reckoned
    ensures { result ≡ outcome operator a b }
{
    match (a, b) {
        (Reckoned::Known(a), Reckoned::Known(b)) => match operator {
            Operator::Add => known(a.checked_add(b)),
            Operator::Subtract => known(a.checked_sub(b)),
            Operator::Multiply => known(a.checked_mul(b)),
            Operator::Divide => quotient(a, b),
        },
        (Reckoned::Unknown, _) => Reckoned::Unknown,
        (_, Reckoned::Unknown) => Reckoned::Unknown,
        (_, _) => Reckoned::TooLarge,
    }
}

/// The negative of a part.
pub(crate) fn negated(a: Reckoned) -> Reckoned
    ensures { result ≡ negated a }
{
    outcome(Operator::Subtract, Reckoned::Known(0), a)
}

// A number that fits, if there is one.
fn known(number: Option<i64>) -> Reckoned
    ensures { (z : ℤ) → SomeIff number (FitsSigned w64 z) z → result ≡ within z }
{
    match number {
        Some(number) => Reckoned::Known(number),
        None => Reckoned::TooLarge,
    }
}

// The quotient of two numbers, rounded down.
fn quotient(a: i64, b: i64) -> Reckoned
    ensures { result ≡ quotient a b }
{
    if b == 0 {
        Reckoned::TooLarge
    } else if b > 0 {
        floor(i128::from(a), i128::from(b))
    } else {
        floor(-i128::from(a), -i128::from(b))
    }
}

fn floor(a: i128, b: i128) -> Reckoned
    requires { pos 0 <ℤ b }
    ensures { (d : ℕ) → b ≡ pos d → result ≡ within (floor_by a d) }
{
    match i64::try_from(a.div_euclid(b)) {
        Ok(quotient) => Reckoned::Known(quotient),
        Err(_) => Reckoned::TooLarge,
    }
}

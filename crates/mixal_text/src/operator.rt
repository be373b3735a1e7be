//! The binary operations of an expression (1.3.2).
ghost use Rattle.std.specs.Prelude.{◌≡◌, ◌≤◌, IfSome, MatchOption, drop, length};
ghost use Rattle.mixal_text.specs.Operator.{operator_at, operator_length, outcome_of, sum_or_fault, quotient_or_fault};

use crate::fault::TextFault;
use mix_word::{Sign, Word, add, div, mul, sub};

/// The operator between two atoms: `+`, `-`, `*`, `/`, `//` or `:`.
#[derive(Clone, Copy)]
pub(crate) enum Operator {
    Add,
    Subtract,
    Multiply,
    Divide,
    Fraction,
    Field,
}

/// The operator that begins a text, and what follows it, or none; two slashes are one operator.
#[tactic(auto, unfolding(crate::specs::Operator::operator_at))]
pub(crate) fn split_operator(text: &[u8]) -> Option<(Operator, &[u8])>
    ensures operator { MatchOption result (operator_at text.now ≡ None) (λ r. operator_at text.now ≡ Some r.0) }
    ensures rest { IfSome result (λ r. r.1.now ≡ drop (operator_length r.0) text.now) }
    ensures within { IfSome result (λ r. operator_length r.0 ≤ length text.now) }
{
    match text {
        [b'+', rest @ ..] => Some((Operator::Add, rest)),
        [b'-', rest @ ..] => Some((Operator::Subtract, rest)),
        [b'*', rest @ ..] => Some((Operator::Multiply, rest)),
        [b'/', b'/', rest @ ..] => Some((Operator::Fraction, rest)),
        [b'/', rest @ ..] => Some((Operator::Divide, rest)),
        [b':', rest @ ..] => Some((Operator::Field, rest)),
        _ => None,
    }
}

impl Operator {
    /// The result for two words. A sum that overflows is A8, and so is a quotient that does not
    /// exist.
    pub(crate) fn outcome(self, a: Word, b: Word) -> Result<Word, TextFault>
        ensures { result ≡ outcome_of self a b }
    {
        match self {
            Operator::Add => sum_or_fault(add(a, b)),
            Operator::Subtract => sum_or_fault(sub(a, b)),
            Operator::Multiply => Ok(mul(a, b).1),
            Operator::Divide => quotient_or_fault(div(Word::of(a.sign(), 0), a, b)),
            Operator::Fraction => quotient_or_fault(div(a, Word::ZERO, b)),
            Operator::Field => sum_or_fault(add(mul(a, Word::of(Sign::Plus, 8)).1, b)),
        }
    }
}

fn sum_or_fault(sum: (Word, bool)) -> Result<Word, TextFault>
    ensures { result ≡ sum_or_fault sum }
{
    let (sum, overflows) = sum;
    if overflows {
        Err(TextFault::ExpressionOverflow)
    } else {
        Ok(sum)
    }
}

fn quotient_or_fault(parts: Option<(Word, Word)>) -> Result<Word, TextFault>
    ensures { result ≡ quotient_or_fault parts }
{
    match parts {
        Some((quotient, _)) => Ok(quotient),
        None => Err(TextFault::ExpressionOverflow),
    }
}

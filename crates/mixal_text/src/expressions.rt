//! Expressions (1.3.2): atoms and operators, worked out strictly from left to right.
ghost use Rattle.std.specs.Prelude.{◌≡◌, ◌≤◌, ◌<◌, ◌+◌, ◌-◌, ◌^◌, IfErr, MatchResult, drop, length};
ghost use Rattle.mixal_text.specs.Prelude.{atom_value, outcome_of, IsWithin, or_at};
ghost use Rattle.mixal_text.specs.Expression.{expression_at, expression_of, whole_at, whole_expression, sign_at, sign_length, value_after_sign};

use crate::atom::{atom_value, split_atom};
use crate::fault::TextFault;
use crate::misread::{Misread, Span, or_at};
use crate::names::Names;
use crate::operator::{Operator, split_operator};
use mix_word::{Sign, Word};

/// The value of the expression that begins a text (1.3.2), and how many bytes it has. The asterisk stands for `here`,
/// the location of the line. The first fault from the left is the answer: a missing atom is A5, a symbol of over ten
/// characters or dH A3, a number that no word holds A6, a symbol that is not defined or dF A7, dB with no earlier dH A14,
/// all at the atom; and an operation that overflows or has no quotient A8, at all that stands before its end.
pub fn expression<N: Names>(text: &[u8], names: &N, here: Word) -> Result<(Word, usize), Misread>
    ensures value { result ≡ expression_of (N.names names.now) here text.now }
    ensures within { MatchResult result
        (λ r. r.1 ≤ length text.now)
        (λ misread. IsWithin 0 (length text.now) misread.at) }
{
    expression_at(0, text, names, here)
}

/// The same of a text that stands at a place, from which its bytes are counted on: the value, and the place where the expression
/// ends.
pub(crate) fn expression_at<N: Names>(
    start: usize,
    text: &[u8],
    names: &N,
    here: Word,
) -> Result<(Word, usize), Misread>
    requires { start + length text.now < 2 ^ 64 }
    ensures value { result ≡ expression_at (N.names names.now) here start text.now }
    ensures within { MatchResult result
        (λ r. (start ≤ r.1) × (r.1 ≤ start + length text.now))
        (λ misread. IsWithin start (start + length text.now) misread.at) }
{
    let (sign, unsigned) = split_sign(text);
    let (atom, mut rest) = split_atom(unsigned);
    let from = place_of(start, text, unsigned);
    let to = place_of(start, text, rest);
    let first = atom_at(atom, names, here, from, to)?;
    let mut value = value_after_sign(sign, first);
    while let Some((operator, second)) = split_operator(rest) {
        let (atom, after) = split_atom(second);
        let begin = place_of(start, text, second);
        let end = place_of(start, text, after);
        let operand = atom_at(atom, names, here, begin, end)?;
        value = outcome_at(operator, value, operand, start, end)?;
        rest = after;
    }
    let last = place_of(start, text, rest);
    Ok((value, last))
}

// The place of what is left of a text.
fn place_of(start: usize, text: &[u8], rest: &[u8]) -> usize
    requires left { length rest.now ≤ length text.now }
    requires fits { start + length text.now < 2 ^ 64 }
    ensures { result ≡ start + (length text.now - length rest.now) }
{
    start + (text.len() - rest.len())
}

fn atom_at<N: Names>(
    atom: &[u8],
    names: &N,
    here: Word,
    from: usize,
    to: usize,
) -> Result<Word, Misread>
    ensures { result ≡ or_at (atom_value (N.names names.now) here atom.now) from to }
{
    or_at(atom_value(atom, names, here), from, to)
}

fn outcome_at(operator: Operator, a: Word, b: Word, from: usize, to: usize) -> Result<Word, Misread>
    ensures { result ≡ or_at (outcome_of operator a b) from to }
{
    or_at(operator.outcome(a, b), from, to)
}

// The sign that begins a text, and what follows it.
#[tactic(auto, unfolding(crate::specs::Expression::sign_at))]
fn split_sign(text: &[u8]) -> (Option<Sign>, &[u8])
    ensures sign { result.0 ≡ sign_at text.now }
    ensures rest { result.1.now ≡ drop (sign_length (sign_at text.now)) text.now }
{
    match text {
        [b'+', rest @ ..] => (Some(Sign::Plus), rest),
        [b'-', rest @ ..] => (Some(Sign::Minus), rest),
        _ => (None, text),
    }
}

fn value_after_sign(sign: Option<Sign>, value: Word) -> Word
    ensures { result ≡ value_after_sign sign value }
{
    match sign {
        Some(Sign::Minus) => value.negated(),
        Some(Sign::Plus) => value,
        None => value,
    }
}

/// The value of a text that is one expression and nothing else (1.3.2). The first fault of the expression is the answer; what
/// is left over after it is A5.
pub fn whole_expression<N: Names>(text: &[u8], names: &N, here: Word) -> Result<Word, Misread>
    ensures value { result ≡ whole_expression (N.names names.now) here text.now }
    ensures within { IfErr result (λ misread. IsWithin 0 (length text.now) misread.at) }
{
    whole_at(0, text, names, here)
}

/// The same of a text that stands at a place.
#[tactic(auto, unfolding(crate::specs::Expression::whole_at))]
pub(crate) fn whole_at<N: Names>(
    start: usize,
    text: &[u8],
    names: &N,
    here: Word,
) -> Result<Word, Misread>
    requires { start + length text.now < 2 ^ 64 }
    ensures value { result ≡ whole_at (N.names names.now) here start text.now }
    ensures within { IfErr result (λ misread. IsWithin start (start + length text.now) misread.at) }
{
    let (value, end) = expression_at(start, text, names, here)?;
    let to = start + text.len();
    if end == to {
        Ok(value)
    } else {
        Err(Misread {
            fault: TextFault::BadExpression,
            at: Span { from: end, to },
        })
    }
}

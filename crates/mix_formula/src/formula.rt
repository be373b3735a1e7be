//! Sums of products of numbers, names and sums in brackets.
ghost use Rattle.std.specs.Prelude.{◌≡◌, Err, MatchOption, MatchResult, None, Ok, Some};
ghost use Rattle.mix_formula.specs.Formula.{closed, name_value_of, number_value, plain_part, product_by, product_operator, signed_part, sum_at, sum_operator, word_at};
ghost use Rattle.mix_formula.specs.Prelude.{names_of, value_in};
ghost use Rattle.mix_lines.specs.Number.{number_up_to};

use crate::arithmetic::{Operator, Reckoned, negated, outcome};
use crate::names::Scope;
use crate::text::{is_name, split_word, unblanked};
use mix_lines::{all_digits, long_number};

/// What the sum that begins a text comes to and the text after it, or how many bytes are left where
/// it cannot be read.
#[cycle(formula)]
pub(crate) fn sum<'a>(
    scope: &Scope,
    depth: u8,
    text: &'a [u8],
) -> Result<(Reckoned, &'a [u8]), usize>
    ensures { MatchResult result (λ r. sum_at (names_of scope.now) depth text.now ≡ Ok (r.0, r.1.now)) (λ left. sum_at (names_of scope.now) depth text.now ≡ Err left) }
{
    if depth == 0 {
        return Err(text.len());
    }
    let inner = depth - 1;
    let (mut value, mut rest) = match product(scope, inner, text) {
        Err(left) => return Err(left),
        Ok(first) => first,
    };
    let mut more = text.len();
    while more > 0 {
        match sum_operator(unblanked(rest)) {
            None => return Ok((value, rest)),
            Some((operator, after)) => match product(scope, inner, after) {
                Err(left) => return Err(left),
                Ok((next, after)) => {
                    value = outcome(operator, value, next);
                    rest = after;
                }
            },
        }
        more -= 1;
    }
    Ok((value, rest))
}

// The product that begins a text; sums in its brackets are at most so deep.
#[cycle(formula)]
fn product<'a>(scope: &Scope, depth: u8, text: &'a [u8]) -> Result<(Reckoned, &'a [u8]), usize>
    ensures { MatchResult result (λ r. product_by (names_of scope.now) (sum_at (names_of scope.now) depth) text.now ≡ Ok (r.0, r.1.now)) (λ left. product_by (names_of scope.now) (sum_at (names_of scope.now) depth) text.now ≡ Err left) }
{
    let (mut value, mut rest) = match signed_part(scope, depth, unblanked(text)) {
        Err(left) => return Err(left),
        Ok(first) => first,
    };
    let mut more = text.len();
    while more > 0 {
        match product_operator(unblanked(rest)) {
            None => return Ok((value, rest)),
            Some((operator, after)) => match signed_part(scope, depth, unblanked(after)) {
                Err(left) => return Err(left),
                Ok((next, after)) => {
                    value = outcome(operator, value, next);
                    rest = after;
                }
            },
        }
        more -= 1;
    }
    Ok((value, rest))
}

// A part, before which there may be a sign.
#[cycle(formula)]
#[tactic(auto, unfolding(crate::specs::Formula::signed_part))]
fn signed_part<'a>(scope: &Scope, depth: u8, text: &'a [u8]) -> Result<(Reckoned, &'a [u8]), usize>
    ensures { MatchResult result (λ r. signed_part (names_of scope.now) (sum_at (names_of scope.now) depth) text.now ≡ Ok (r.0, r.1.now)) (λ left. signed_part (names_of scope.now) (sum_at (names_of scope.now) depth) text.now ≡ Err left) }
{
    match text {
        [b'-', rest @ ..] => match plain_part(scope, depth, unblanked(rest)) {
            Err(left) => Err(left),
            Ok((value, rest)) => Ok((negated(value), rest)),
        },
        [b'+', rest @ ..] => plain_part(scope, depth, unblanked(rest)),
        [_, ..] => plain_part(scope, depth, text),
        [] => Err(0),
    }
}

// A part without a sign.
#[cycle(formula)]
#[tactic(auto, unfolding(crate::specs::Formula::plain_part, crate::specs::Formula::closed, crate::specs::Formula::word_at))]
fn plain_part<'a>(scope: &Scope, depth: u8, text: &'a [u8]) -> Result<(Reckoned, &'a [u8]), usize>
    ensures { MatchResult result (λ r. plain_part (names_of scope.now) (sum_at (names_of scope.now) depth) text.now ≡ Ok (r.0, r.1.now)) (λ left. plain_part (names_of scope.now) (sum_at (names_of scope.now) depth) text.now ≡ Err left) }
{
    match text {
        [b'(', rest @ ..] => match sum(scope, depth, rest) {
            Err(left) => Err(left),
            Ok((value, rest)) => match unblanked(rest) {
                [b')', rest @ ..] => Ok((value, rest)),
                rest => Err(rest.len()),
            },
        },
        [_, ..] => {
            let (word, rest) = split_word(text);
            if all_digits(word) {
                Ok((number(word), rest))
            } else if is_name(word) {
                Ok((name(scope, word), rest))
            } else {
                Err(text.len())
            }
        }
        [] => Err(0),
    }
}

fn number(word: &[u8]) -> Reckoned
    ensures { result ≡ number_value (number_up_to 18 word.now) }
{
    match long_number(word) {
        Some(number) => Reckoned::Known(number as i64),
        None => Reckoned::TooLarge,
    }
}

fn name(scope: &Scope, word: &[u8]) -> Reckoned
    ensures { result ≡ name_value_of (value_in (names_of scope.now) word.now) }
{
    match scope.value_of(word) {
        Some(value) => Reckoned::Known(value),
        None => Reckoned::Unknown,
    }
}

#[tactic(auto, unfolding(crate::specs::Formula::product_operator))]
fn product_operator(text: &[u8]) -> Option<(Operator, &[u8])>
    ensures { MatchOption result (product_operator text.now ≡ None) (λ r. product_operator text.now ≡ Some (r.0, r.1.now)) }
{
    match text {
        [b'*', rest @ ..] => Some((Operator::Multiply, rest)),
        [b'/', b'/', rest @ ..] => Some((Operator::Divide, rest)),
        _ => None,
    }
}

#[tactic(auto, unfolding(crate::specs::Formula::sum_operator))]
fn sum_operator(text: &[u8]) -> Option<(Operator, &[u8])>
    ensures { MatchOption result (sum_operator text.now ≡ None) (λ r. sum_operator text.now ≡ Some (r.0, r.1.now)) }
{
    match text {
        [b'+', rest @ ..] => Some((Operator::Add, rest)),
        [b'-', rest @ ..] => Some((Operator::Subtract, rest)),
        _ => None,
    }
}

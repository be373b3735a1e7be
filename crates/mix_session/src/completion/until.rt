//! What may come next in what a command waits for: conditions, with the word `or` between one and the next.

ghost use Rattle.std.specs.Prelude.{◌≡◌, ◌+◌, ℕ, List, MatchOption};
ghost use Rattle.mix_session.specs.Completion.{after_condition, after_conditions, after_operand, or_others};
ghost use Rattle.mix_session.specs.declared.completion.after.Next.{Next as ANext};

use crate::completion::after::Next;
use crate::keyword::{SetWord, UntilWord, named};
use mix_lines::Words;

/// What may come next where so many conditions may be waited for.
pub(super) fn after_conditions(most: usize, words: &mut Words) -> Next
    ensures { result ≡ after_conditions most words.old }
{
    let mut left = most;
    while left > 0 {
        left -= 1;
        match after_one(left, words) {
            Some(next) => return next,
            None => {}
        }
    }
    Next::Nothing
}

// What may come next in a condition, or after it, where so many others may follow; `None` if `or` follows, and the words after it are left.
fn after_one(others: usize, words: &mut Words) -> Option<Next>
    ensures { MatchOption result (after_conditions (others + 1) words.old ≡ after_conditions others words.new)
        (λ next. after_conditions (others + 1) words.old ≡ next) }
{
    match after_condition(words) {
        Some(next) => Some(next),
        None => or_others(others, words),
    }
}

// What may come next in a condition; `None` if it is whole, and the words after it are left.
fn after_condition(words: &mut Words) -> Option<Next>
    ensures { (whole : List (List ℕ) → ANext) → MatchOption result (after_condition whole words.old ≡ whole words.new)
        (λ next. after_condition whole words.old ≡ next) }
{
    let Some(word) = words.next() else {
        return Some(Next::Condition);
    };
    match named(word) {
        None => Some(Next::Nothing),
        Some(UntilWord::Set(SetWord::Cell)) | Some(UntilWord::Set(SetWord::Location)) => {
            after_operand(Next::Value, words)
        }
        Some(UntilWord::Unit) => after_operand(Next::Nothing, words),
        Some(UntilWord::Set(SetWord::Register(_)))
        | Some(UntilWord::Set(SetWord::Toggle))
        | Some(UntilWord::Set(SetWord::Indicator))
        | Some(UntilWord::Conflict) => None,
    }
}

// An operand, which may be this.
fn after_operand(operand: Next, words: &mut Words) -> Option<Next>
    ensures { (whole : List (List ℕ) → ANext) → MatchOption result (after_operand operand whole words.old ≡ whole words.new)
        (λ next. after_operand operand whole words.old ≡ next) }
{
    match words.next() {
        None => Some(operand),
        Some(_) => None,
    }
}

// After a whole condition the word `or`, where so many others may follow; `None` if it is there, and the words after it are left.
fn or_others(others: usize, words: &mut Words) -> Option<Next>
    ensures { (conditions : List (List ℕ) → ANext) → MatchOption result (or_others others conditions words.old ≡ conditions words.new)
        (λ next. or_others others conditions words.old ≡ next) }
{
    if others == 0 {
        return Some(Next::Nothing);
    }
    let Some(word) = words.next() else {
        return Some(Next::Or);
    };
    if word.eq_ignore_ascii_case(b"or") {
        None
    } else {
        Some(Next::Nothing)
    }
}

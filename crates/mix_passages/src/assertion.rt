//! An assertion: read from its words, and its truth in a state.
ghost use Rattle.std.specs.Prelude.{◌≡◌, ◌++◌, ◌∷◌, [], ℕ, pos, neg_ℤ, codes, IfOk, Some, None, if◌then◌else◌};
ghost use Rattle.std.specs.Option.{option_map};
ghost use Rattle.mix_lines.specs.Number.{decimal_number};
ghost use Rattle.mix_passages.specs.Assertion.{holds, is_related, number_on};
ghost use Rattle.mix_passages.specs.Reading.{after_assert, assertion_in, assertion_of, relation_in, side_in, three_words, whole_number};

use crate::asked::{Assertion, Relation, Side};
use crate::item::{is_assert, item_in, word_of};
use mix_lines::{Words, number};
use mix_machine::World;
use mix_session::Session;
use std::alloc::Global;
use undo_core::Memory;

// The number on a side, in a state.
fn number_on(world: &World, side: Side) -> i64
    ensures { result ≡ number_on world.now side }
{
    match side {
        Side::Number(number) => number,
        Side::Of(item) => i64::from(word_of(world, item).number()),
    }
}

// Whether two numbers are in a relation.
fn is_related(relation: Relation, left: i64, right: i64) -> bool
    ensures { result ≡ is_related relation left right }
{
    match relation {
        Relation::Less => left < right,
        Relation::LessOrEqual => left <= right,
        Relation::Equal => left == right,
        Relation::NotEqual => left != right,
        Relation::GreaterOrEqual => left >= right,
        Relation::Greater => left > right,
    }
}

/// Whether an assertion is true of a state.
pub(crate) fn holds(world: &World, assertion: &Assertion) -> bool
    ensures { result ≡ holds world.now assertion.now }
{
    let left = number_on(world, assertion.left);
    let right = number_on(world, assertion.right);
    is_related(assertion.relation, left, right)
}

fn positive(digits: &[u8]) -> Option<i64>
    ensures { result ≡ option_map pos (decimal_number digits.now) }
{
    match number(digits) {
        None => None,
        Some(n) => Some(n as i64),
    }
}

fn negative(digits: &[u8]) -> Option<i64>
    ensures { result ≡ option_map (λ n. neg_ℤ (pos n)) (decimal_number digits.now) }
{
    match number(digits) {
        None => None,
        Some(n) => Some(-(n as i64)),
    }
}

// A whole number in decimal digits, with a sign or without one.
fn whole_number(word: &[u8]) -> Option<i64>
    ensures { result ≡ whole_number word.now }
{
    match word.split_first() {
        None => None,
        Some((first, digits)) => {
            if *first == b'+' {
                positive(digits)
            } else if *first == b'-' {
                negative(digits)
            } else {
                positive(word)
            }
        }
    }
}

fn side_in(session: &Session, word: &[u8]) -> Option<Side>
    ensures { result ≡ side_in session.now word.now }
{
    match whole_number(word) {
        Some(number) => Some(Side::Number(number)),
        None => match item_in(session, word) {
            Some(item) => Some(Side::Of(item)),
            None => None,
        },
    }
}

fn relation_in(word: &[u8]) -> Option<Relation>
    ensures { result ≡ relation_in word.now }
{
    Relation::ALL.iter().copied().find(|relation| word.eq_ignore_ascii_case(
        relation.name().as_bytes(),
    ))
}

/// The assertion that the words left are: a value, a relation and a value.
pub(crate) fn assertion_in(
    alloc: Global,
    session: &Session,
    words: &mut Words,
) -> Result<Option<Assertion>, Memory>
    ensures { IfOk result (λ assertion. assertion ≡ assertion_in session.now words.old) }
{
    let (Some(left), Some(between), Some(right), None) = (
        words.next(),
        words.next(),
        words.next(),
        words.next(),
    ) else {
        return Ok(None);
    };
    let (Some(first), Some(relation), Some(second)) = (
        side_in(session, left),
        relation_in(between),
        side_in(session, right),
    ) else {
        return Ok(None);
    };
    let mut text = Vec::from_slice(alloc, left)?;
    text.extend_from_slice(b" ")?;
    text.extend_from_slice(between)?;
    text.extend_from_slice(b" ")?;
    text.extend_from_slice(right)?;
    Ok(Some(Assertion {
        left: first,
        relation,
        right: second,
        words: text,
    }))
}

/// Goes on to what follows `assert`, if it is one of the words.
pub(crate) fn after_assert(words: &mut Words) -> bool
    ensures { after_assert words.old ≡ (if result then Some words.new else None) }
{
    while let Some(word) = words.next() {
        if is_assert(word) {
            return true;
        }
    }
    false
}

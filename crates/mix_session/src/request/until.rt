//! What is waited for after `until`.

ghost use Rattle.std.specs.Prelude.{◌≡◌, ◌≤◌, ◌<◌, ◌+◌, [], List, ℕ, Result, Ok, Err, IfOk, IfErr, length, take, drop, if◌then◌else◌};
ghost use Rattle.mix_session.specs.Operand.{one_place};
ghost use Rattle.mix_session.specs.Setting.{condition_of, condition_in};
ghost use Rattle.mix_session.specs.Conditions.{most_conditions};
ghost use Rattle.mix_session.specs.Until.{operands_of, first_condition, after_first, with_others, with_read, others_in, conditions_in};
ghost use Rattle.mix_session.specs.declared.condition.Condition.{Condition as ACondition};
ghost use Rattle.mix_session.specs.declared.fault.Refusal.{Refusal as ARefusal};

use crate::condition::Condition;
use crate::conditions::Conditions;
use crate::fault::Refusal;
use crate::keyword::{SetWord, UntilWord, named};
use crate::request::operand::{no_word, number_in, place_named, unit_of};
use mix_lines::Words;
use mix_machine::{Part, Place, Word};
use mixal_text::Names;

/// The conditions that the words left name, with `or` between one and the next.
pub(crate) fn read_conditions<N: Names>(
    words: &mut Words,
    names: &N,
    here: Word,
) -> Result<Conditions, Refusal>
    ensures { result ≡ conditions_in (N.names names.now) here words.old }
{
    let mut conditions = Conditions::none();
    let mut is_in_range = true;
    for read in 0..Conditions::MOST {
        let next = read_first(words, names, here);
        match add(&mut conditions, is_in_range, next) {
            Ok(next) => is_in_range = next,
            Err(refusal) => return Err(refusal),
        }
        match read_or(words) {
            Ok(true) => {}
            Ok(false) => return all_read(conditions, is_in_range),
            Err(refusal) => return Err(refusal),
        }
    }
    Err(Refusal::BadArgument)
}

// What was read is one condition more; whether no number was out of range up to there.
#[tactic(auto, using(crate::proofs::ReadingLemmas::read_one, crate::proofs::ReadingLemmas::read_far))]
fn add(
    conditions: &mut Conditions,
    is_in_range: bool,
    read: Result<Condition, Refusal>,
) -> Result<bool, Refusal>
    requires { length conditions.old < most_conditions }
    ensures read { IfOk result (λ next. (others : Result (List ACondition) ARefusal)
        → with_read conditions.old is_in_range (with_others read others) ≡ with_read conditions.new next others) }
    ensures within { IfOk result (λ _. length conditions.new ≤ length conditions.old + 1) }
    ensures bad { IfErr result (λ e. (others : Result (List ACondition) ARefusal) → with_others read others ≡ Err e) }
{
    match read {
        Ok(condition) => {
            conditions.push(condition);
            Ok(is_in_range)
        }
        Err(Refusal::OutOfRange) => Ok(false),
        Err(refusal) => Err(refusal),
    }
}

// All that was read, if no number was out of range.
fn all_read(conditions: Conditions, is_in_range: bool) -> Result<Conditions, Refusal>
    ensures { result ≡ (if is_in_range then Ok conditions else Err Refusal.OutOfRange) }
{
    if is_in_range {
        Ok(conditions)
    } else {
        Err(Refusal::OutOfRange)
    }
}

// Whether `or` is the next word; otherwise none is left.
fn read_or(words: &mut Words) -> Result<bool, Refusal>
    ensures goes_on { IfOk result (λ is_or. (others : List (List ℕ) → Result (List ACondition) ARefusal)
        → others_in others words.old ≡ (if is_or then others words.new else Ok [])) }
    ensures bad { IfErr result (λ e. (others : List (List ℕ) → Result (List ACondition) ARefusal) → others_in others words.old ≡ Err e) }
{
    let Some(word) = words.next() else {
        return Ok(false);
    };
    if word.eq_ignore_ascii_case(b"or") {
        Ok(true)
    } else {
        Err(Refusal::BadArgument)
    }
}

/// The condition that the words left name.
pub(crate) fn read_condition<N: Names>(
    words: &mut Words,
    names: &N,
    here: Word,
) -> Result<Condition, Refusal>
    ensures { result ≡ condition_in (N.names names.now) here words.old }
{
    let condition = read_first(words, names, here);
    match no_word(words) {
        Ok(()) => condition,
        Err(refusal) => Err(refusal),
    }
}

// The condition that the next words name; the words after it are left.
#[tactic(auto, unfolding(crate::specs::Setting::condition_in))]
fn read_first<N: Names>(words: &mut Words, names: &N, here: Word) -> Result<Condition, Refusal>
    ensures condition { result ≡ first_condition (N.names names.now) here words.old }
    ensures left { words.new ≡ after_first words.old }
{
    let Some(word) = words.next() else {
        return Err(Refusal::BadArgument);
    };
    match named(word) {
        None => Err(Refusal::BadArgument),
        Some(keyword) => read_operand(keyword, words, names, here),
    }
}

// The condition of a keyword, by the word that follows it, if one does.
fn read_operand<N: Names>(
    keyword: UntilWord,
    words: &mut Words,
    names: &N,
    here: Word,
) -> Result<Condition, Refusal>
    ensures condition { result ≡ condition_of (N.names names.now) here keyword (take (operands_of keyword) words.old) }
    ensures left { words.new ≡ drop (operands_of keyword) words.old }
{
    match keyword {
        UntilWord::Set(SetWord::Register(register)) => {
            Ok(Condition::Alters(Part::Register(register)))
        }
        UntilWord::Set(SetWord::Toggle) => Ok(Condition::Alters(Part::Over)),
        UntilWord::Set(SetWord::Indicator) => Ok(Condition::Alters(Part::Cmp)),
        UntilWord::Set(SetWord::Cell) => {
            let place = next_place(words, names, here)?;
            Ok(Condition::Alters(Part::Cell(place)))
        }
        UntilWord::Set(SetWord::Location) => Ok(Condition::At(next_place(words, names, here)?)),
        UntilWord::Unit => match words.next() {
            None => Err(Refusal::BadArgument),
            Some(word) => {
                let unit = unit_of(number_in(word)?)?;
                Ok(Condition::Alters(Part::Unit(unit)))
            }
        },
        UntilWord::Conflict => Ok(Condition::Conflicts),
    }
}

// The cell that the next word names.
fn next_place<N: Names>(words: &mut Words, names: &N, here: Word) -> Result<Place, Refusal>
    ensures place { result ≡ one_place (N.names names.now) here (take 1 words.old) }
    ensures left { words.new ≡ drop 1 words.old }
{
    match words.next() {
        None => Err(Refusal::BadArgument),
        Some(word) => place_named(word, names, here),
    }
}

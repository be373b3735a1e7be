//! The words after a keyword: words that have to be there, numbers, cells, units, W-values.

ghost use Rattle.std.specs.Prelude.{◌≡◌, ◌≤◌, ◌∷◌, [], Ok, Err, MatchResult, IfOk};
ghost use Rattle.mix_session.specs.Operand.{no_word, one_word, two_words, keyword_in, first_keyword, number_in, word_in, expression_in, place_of, from_one, up_to, last_unit, one_unit, place_named, one_place};

use crate::fault::Refusal;
use crate::keyword::{Keyword, named};
use mix_lines::{Words, number};
use mix_machine::{Place, UnitNo, Word};
use mixal_text::{Names, w_value, whole_expression};

/// No word is left.
pub(crate) fn no_word(words: &mut Words) -> Result<(), Refusal>
    ensures { result ≡ no_word words.old }
{
    if words.is_end() {
        Ok(())
    } else {
        Err(Refusal::BadArgument)
    }
}

/// The next word that is left, which has to be there.
pub(crate) fn first_word<'a>(words: &mut Words<'a>) -> Result<&'a [u8], Refusal>
    ensures { MatchResult result (λ word. words.old ≡ word.now ∷ words.new) (λ e. (words.old ≡ []) × (e ≡ Refusal.BadArgument)) }
{
    words.next().ok_or(Refusal::BadArgument)
}

/// The only word that is left.
pub(crate) fn one_word<'a>(words: &mut Words<'a>) -> Result<&'a [u8], Refusal>
    ensures { MatchResult result (λ word. one_word words.old ≡ Ok word.now) (λ e. one_word words.old ≡ Err e) }
{
    let word = first_word(words)?;
    no_word(words)?;
    Ok(word)
}

/// The only two words that are left.
pub(crate) fn two_words<'a>(words: &mut Words<'a>) -> Result<(&'a [u8], &'a [u8]), Refusal>
    ensures { MatchResult result (λ pair. two_words words.old ≡ Ok (pair.0.now, pair.1.now)) (λ e. two_words words.old ≡ Err e) }
{
    let first = first_word(words)?;
    let second = one_word(words)?;
    Ok((first, second))
}

/// The keyword that the next word left names.
pub(crate) fn first_keyword<K: Keyword>(words: &mut Words) -> Result<K, Refusal>
    ensures { MatchResult result (λ k. first_keyword K.name_of K.all_of words.old ≡ Ok (k, words.new)) (λ e. first_keyword K.name_of K.all_of words.old ≡ Err e) }
{
    let word = first_word(words)?;
    Ok(keyword(word)?)
}

pub(crate) fn keyword<K: Keyword>(word: &[u8]) -> Result<K, Refusal>
    ensures { result ≡ keyword_in K.name_of K.all_of word.now }
{
    named(word).ok_or(Refusal::BadArgument)
}

pub(crate) fn number_in(word: &[u8]) -> Result<u64, Refusal>
    ensures { result ≡ number_in word.now }
{
    number(word).ok_or(Refusal::BadArgument)
}

pub(crate) fn from_one(n: u64) -> Result<u64, Refusal>
    ensures { result ≡ from_one n }
{
    if n == 0 {
        Err(Refusal::OutOfRange)
    } else {
        Ok(n)
    }
}

pub(crate) fn up_to(limit: u64, n: u64) -> Result<u64, Refusal>
    ensures value { result ≡ up_to limit n }
    ensures within { IfOk result (λ count. count ≤ limit) }
{
    if n > limit {
        Err(Refusal::OutOfRange)
    } else {
        Ok(n)
    }
}

/// A word, by a W-value.
pub(crate) fn word_in<N: Names>(text: &[u8], names: &N, here: Word) -> Result<Word, Refusal>
    ensures { result ≡ word_in (N.names names.now) here text.now }
{
    w_value(text, names, here).map_err(|_| Refusal::BadArgument)
}

/// A number, by an expression and nothing else.
pub(crate) fn expression_in<N: Names>(text: &[u8], names: &N, here: Word) -> Result<Word, Refusal>
    ensures { result ≡ expression_in (N.names names.now) here text.now }
{
    whole_expression(text, names, here).map_err(|_| Refusal::BadArgument)
}

/// The place that a word's number names.
pub(crate) fn place_of(word: Word) -> Result<Place, Refusal>
    ensures { result ≡ place_of word }
{
    u16::try_from(word.number())
        .ok()
        .and_then(Place::of)
        .ok_or(Refusal::OutOfRange)
}

/// The cell that a word names, by an expression.
pub(crate) fn place_named<N: Names>(word: &[u8], names: &N, here: Word) -> Result<Place, Refusal>
    ensures { result ≡ place_named (N.names names.now) here word.now }
{
    place_of(expression_in(word, names, here)?)
}

/// The cell that the only word left names.
pub(crate) fn one_place<N: Names>(
    words: &mut Words,
    names: &N,
    here: Word,
) -> Result<Place, Refusal>
    ensures { result ≡ one_place (N.names names.now) here words.old }
{
    place_named(one_word(words)?, names, here)
}

/// The unit that the only word left names.
pub(crate) fn one_unit(words: &mut Words) -> Result<UnitNo, Refusal>
    ensures { result ≡ one_unit words.old }
{
    let number = number_in(one_word(words)?)?;
    unit_of(number)
}

/// The unit of this number.
pub(crate) fn unit_of(number: u64) -> Result<UnitNo, Refusal>
    ensures { result ≡ up_to last_unit number }
{
    u8::try_from(number)
        .ok()
        .and_then(UnitNo::of)
        .ok_or(Refusal::OutOfRange)
}

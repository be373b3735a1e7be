//! What follows the first word of a person's line, as the words of the line of a script that it stands for.

ghost use Rattle.std.specs.Prelude.{◌≡◌, ◌++◌, ◌∷◌, [], OnOk, codes};
ghost use Rattle.mix_person.specs.Person.{after_of, changes_of, conditions, count_of, limit_of, most_until, one_of, plain_first, spaced, steps_of, until_of};

use crate::conditions::put_conditions;
use crate::names::plain;
use crate::shown::{put_printed, put_shown, put_topic};
use crate::word::{PersonWord, is_beginning};
use mix_lines::Words;
use mix_refused::Memory;
use mixal_text::Names;

/// A word is appended, after a blank.
pub(crate) fn put(text: &mut Vec<u8>, word: &[u8]) -> Result<(), Memory>
    ensures { OnOk result (text.new.items ≡ text.old.items ++ spaced (word.now ∷ [])) }
{
    text.extend_from_slice(b" ")?;
    text.extend_from_slice(word)?;
    Ok(())
}

// The words that are left.
fn put_all(text: &mut Vec<u8>, words: &mut Words) -> Result<(), Memory>
    ensures { OnOk result (text.new.items ≡ text.old.items ++ spaced words.old) }
{
    while let Some(word) = words.next() {
        put(text, word)?;
    }
    Ok(())
}

// The words that are left, of which the first may be a register.
fn put_plain(text: &mut Vec<u8>, words: &mut Words) -> Result<(), Memory>
    ensures { OnOk result (text.new.items ≡ text.old.items ++ spaced (plain_first words.old)) }
{
    match words.next() {
        None => Ok(()),
        Some(word) => {
            put(text, plain(word))?;
            put_all(text, words)
        }
    }
}

// A word, read as `until` where it begins that, and the words after it.
fn put_until<N: Names>(
    text: &mut Vec<u8>,
    names: &N,
    word: &[u8],
    words: &mut Words,
) -> Result<(), Memory>
    ensures { OnOk result (text.new.items ≡ text.old.items ++ spaced (until_of word.now ∷ conditions (N.names names.now) words.old)) }
{
    put(
        text,
        if is_beginning(word, b"until") {
            b"until"
        } else {
            word
        },
    )?;
    put_conditions(text, names, words)
}

// What is watched, from its `until` on.
fn put_watch(text: &mut Vec<u8>, watch: &[u8]) -> Result<(), Memory>
    ensures { OnOk result (text.new.items ≡ text.old.items ++ watch.now) }
{
    text.extend_from_slice(watch)?;
    Ok(())
}

// What is watched, or one change.
fn put_one(text: &mut Vec<u8>, watch: &[u8]) -> Result<(), Memory>
    ensures { OnOk result (text.new.items ≡ text.old.items ++ one_of watch.now) }
{
    match watch.split_first() {
        None => put(text, b"1"),
        Some(_) => put_watch(text, watch),
    }
}

fn put_changes<N: Names>(
    text: &mut Vec<u8>,
    names: &N,
    watch: &[u8],
    words: &mut Words,
) -> Result<(), Memory>
    ensures { OnOk result (text.new.items ≡ text.old.items ++ changes_of (N.names names.now) watch.now words.old) }
{
    match words.next() {
        None => put_one(text, watch),
        Some(word) => put_until(text, names, word, words),
    }
}

fn put_limit<N: Names>(
    text: &mut Vec<u8>,
    names: &N,
    watch: &[u8],
    words: &mut Words,
) -> Result<(), Memory>
    ensures { OnOk result (text.new.items ≡ text.old.items ++ limit_of (N.names names.now) watch.now words.old) }
{
    match words.next() {
        None => put_watch(text, watch),
        Some(word) => put_until(text, names, word, words),
    }
}

// As many steps as one command may do, until a condition is met, or one of several.
fn put_most_until<N: Names>(text: &mut Vec<u8>, names: &N, words: &mut Words) -> Result<(), Memory>
    ensures { OnOk result (text.new.items ≡ text.old.items ++ most_until (N.names names.now) words.old) }
{
    put(text, b"1000000")?;
    put(text, b"until")?;
    put_conditions(text, names, words)
}

fn put_steps<N: Names>(
    text: &mut Vec<u8>,
    names: &N,
    watch: &[u8],
    words: &mut Words,
) -> Result<(), Memory>
    ensures { OnOk result (text.new.items ≡ text.old.items ++ steps_of (N.names names.now) watch.now words.old) }
{
    let Some(word) = words.next() else {
        put(text, b"1000000")?;
        return put_watch(text, watch);
    };
    if is_beginning(word, b"until") {
        put_most_until(text, names, words)
    } else {
        put(text, word)?;
        put_limit(text, names, watch, words)
    }
}

/// A word, and the words after it.
pub(crate) fn put_with_all(text: &mut Vec<u8>, word: &[u8], words: &mut Words) -> Result<(), Memory>
    ensures { OnOk result (text.new.items ≡ text.old.items ++ spaced (word.now ∷ words.old)) }
{
    put(text, word)?;
    put_all(text, words)
}

/// Two words, and the words after them.
pub(crate) fn put_two(
    text: &mut Vec<u8>,
    word: &[u8],
    other: &[u8],
    words: &mut Words,
) -> Result<(), Memory>
    ensures { OnOk result (text.new.items ≡ text.old.items ++ spaced (word.now ∷ other.now ∷ words.old)) }
{
    put(text, word)?;
    put_with_all(text, other, words)
}

// As many steps as one command may do, until a location.
fn put_until_loc(text: &mut Vec<u8>, words: &mut Words) -> Result<(), Memory>
    ensures { OnOk result (text.new.items ≡ text.old.items ++ spaced (codes "1000000" ∷ codes "until" ∷ codes "loc" ∷ words.old)) }
{
    put(text, b"1000000")?;
    put_two(text, b"until", b"loc", words)
}

// One change, where nothing is said.
fn put_count(text: &mut Vec<u8>, words: &mut Words) -> Result<(), Memory>
    ensures { OnOk result (text.new.items ≡ text.old.items ++ count_of words.old) }
{
    match words.next() {
        None => put_one(text, b""),
        Some(word) => put_with_all(text, word, words),
    }
}

/// The words that follow the command, each after a blank.
pub(crate) fn put_after<N: Names>(
    text: &mut Vec<u8>,
    names: &N,
    watch: &[u8],
    word: PersonWord,
    words: &mut Words,
) -> Result<(), Memory>
    ensures { OnOk result (text.new.items ≡ text.old.items ++ after_of (N.names names.now) watch.now word words.old) }
{
    match word {
        PersonWord::Run | PersonWord::Continue => put_steps(text, names, watch, words),
        PersonWord::Until | PersonWord::Watch => put_most_until(text, names, words),
        PersonWord::Back | PersonWord::Forth => put_changes(text, names, watch, words),
        PersonWord::Set => put_plain(text, words),
        PersonWord::Show => put_shown(text, names, words),
        PersonWord::Print | PersonWord::Display => put_printed(text, names, words),
        PersonWord::Where => put_topic(text, b"code", words),
        PersonWord::Examine => put_topic(text, b"values", words),
        PersonWord::Advance => put_until_loc(text, words),
        PersonWord::ReverseStep => put_count(text, words),
        _ => put_all(text, words),
    }
}

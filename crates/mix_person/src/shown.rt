//! What follows a person's `show`, `print`, `x` and `where`, as the words of a line of a script after `show`.

ghost use Rattle.std.specs.Prelude.{◌≡◌, ◌++◌, ◌∷◌, [], OnOk, codes};
ghost use Rattle.mix_person.specs.Person.{is_one_of, is_part, last_of, part_of, printed, printed_as, range_of, shown, shown_alone, shown_as, spaced, words_printed, writes_of};

use crate::follows::{put, put_two, put_with_all};
use crate::names::{is_register, is_symbol, plain};
use mix_lines::Words;
use mix_refused::Memory;
use mixal_text::Names;

fn put_last(text: &mut Vec<u8>, word: &[u8], words: &mut Words) -> Result<(), Memory>
    ensures { OnOk result (text.new.items ≡ text.old.items ++ spaced (last_of word.now words.old)) }
{
    match words.next() {
        None => put(text, word),
        Some(other) => put_with_all(text, other, words),
    }
}

fn put_value(text: &mut Vec<u8>, word: &[u8], other: &[u8], words: &mut Words) -> Result<(), Memory>
    ensures { OnOk result (text.new.items ≡ text.old.items ++ spaced (codes "value" ∷ word.now ∷ other.now ∷ words.old)) }
{
    put(text, b"value")?;
    put_two(text, word, other, words)
}

// From a cell to a cell: one alone is the first and the last.
fn put_range_from(text: &mut Vec<u8>, word: &[u8], words: &mut Words) -> Result<(), Memory>
    ensures { OnOk result (text.new.items ≡ text.old.items ++ spaced (range_of (word.now ∷ words.old))) }
{
    put(text, word)?;
    put_last(text, word, words)
}

fn put_range(text: &mut Vec<u8>, words: &mut Words) -> Result<(), Memory>
    ensures { OnOk result (text.new.items ≡ text.old.items ++ spaced (range_of words.old)) }
{
    match words.next() {
        None => Ok(()),
        Some(word) => put_range_from(text, word, words),
    }
}

/// A topic, and the cells that it shows.
pub(crate) fn put_topic(text: &mut Vec<u8>, topic: &[u8], words: &mut Words) -> Result<(), Memory>
    ensures { OnOk result (text.new.items ≡ text.old.items ++ spaced (topic.now ∷ range_of words.old)) }
{
    put(text, topic)?;
    put_range(text, words)
}

fn put_topic_from(
    text: &mut Vec<u8>,
    topic: &[u8],
    first: &[u8],
    words: &mut Words,
) -> Result<(), Memory>
    ensures { OnOk result (text.new.items ≡ text.old.items ++ spaced (topic.now ∷ range_of (first.now ∷ words.old))) }
{
    put(text, topic)?;
    put_range_from(text, first, words)
}

fn is_flag(word: &[u8]) -> bool
    ensures { result ≡ is_one_of (codes "over" ∷ codes "cmp" ∷ codes "loc" ∷ codes "clock" ∷ []) word.now }
{
    word.eq_ignore_ascii_case(b"over")
        || word.eq_ignore_ascii_case(b"cmp")
        || word.eq_ignore_ascii_case(b"loc")
        || word.eq_ignore_ascii_case(b"clock")
}

fn is_part(word: &[u8]) -> bool
    ensures { result ≡ is_part word.now }
{
    is_register(plain(word)) || is_flag(word)
}

// A part of the machine, unless it is a symbol; else a word by a W-value.
fn put_part<N: Names>(text: &mut Vec<u8>, names: &N, word: &[u8]) -> Result<(), Memory>
    ensures { OnOk result (text.new.items ≡ text.old.items ++ spaced (part_of (N.names names.now) word.now)) }
{
    if is_part(word) && !is_symbol(names, word) {
        put(text, plain(word))
    } else {
        put(text, b"value")?;
        put(text, word)
    }
}

fn has_range(word: &[u8]) -> bool
    ensures { result ≡ is_one_of (codes "cells" ∷ codes "values" ∷ codes "code" ∷ []) word.now }
{
    word.eq_ignore_ascii_case(b"cells")
        || word.eq_ignore_ascii_case(b"values")
        || word.eq_ignore_ascii_case(b"code")
}

// Words of which there are two or more.
fn put_words_printed(
    text: &mut Vec<u8>,
    word: &[u8],
    other: &[u8],
    words: &mut Words,
) -> Result<(), Memory>
    ensures { OnOk result (text.new.items ≡ text.old.items ++ spaced (words_printed word.now other.now words.old)) }
{
    if word.eq_ignore_ascii_case(b"cell") {
        put_topic_from(text, b"values", other, words)
    } else {
        put_value(text, word, other, words)
    }
}

fn put_printed_as<N: Names>(
    text: &mut Vec<u8>,
    names: &N,
    word: &[u8],
    words: &mut Words,
) -> Result<(), Memory>
    ensures { OnOk result (text.new.items ≡ text.old.items ++ spaced (printed_as (N.names names.now) word.now words.old)) }
{
    match words.next() {
        None => put_part(text, names, word),
        Some(other) => put_words_printed(text, word, other, words),
    }
}

/// What follows `print`.
pub(crate) fn put_printed<N: Names>(
    text: &mut Vec<u8>,
    names: &N,
    words: &mut Words,
) -> Result<(), Memory>
    ensures { OnOk result (text.new.items ≡ text.old.items ++ spaced (printed (N.names names.now) words.old)) }
{
    match words.next() {
        None => put(text, b"values"),
        Some(word) => put_printed_as(text, names, word, words),
    }
}

fn put_shown_alone<N: Names>(text: &mut Vec<u8>, names: &N, word: &[u8]) -> Result<(), Memory>
    ensures { OnOk result (text.new.items ≡ text.old.items ++ spaced (shown_alone (N.names names.now) word.now)) }
{
    if is_register(plain(word)) {
        put_part(text, names, word)
    } else if word.eq_ignore_ascii_case(b"last") {
        put(text, word)?;
        put(text, b"1")
    } else {
        put(text, word)
    }
}

// What alters a part: a symbol is its cell.
fn put_writes<N: Names>(
    text: &mut Vec<u8>,
    names: &N,
    word: &[u8],
    other: &[u8],
    words: &mut Words,
) -> Result<(), Memory>
    ensures { OnOk result (text.new.items ≡ text.old.items ++ spaced (writes_of (N.names names.now) word.now other.now words.old)) }
{
    put(text, word)?;
    if is_symbol(names, other) {
        put_two(text, b"cell", other, words)
    } else {
        put_with_all(text, plain(other), words)
    }
}

// Words of which there are two or more.
fn put_words_shown<N: Names>(
    text: &mut Vec<u8>,
    names: &N,
    word: &[u8],
    other: &[u8],
    words: &mut Words,
) -> Result<(), Memory>
    ensures { OnOk result (text.new.items ≡ text.old.items ++ spaced (shown_as (N.names names.now) word.now (other.now ∷ words.old))) }
{
    if word.eq_ignore_ascii_case(b"cell") {
        put_topic_from(text, b"values", other, words)
    } else if has_range(word) {
        put_topic_from(text, word, other, words)
    } else if word.eq_ignore_ascii_case(b"writes") {
        put_writes(text, names, word, other, words)
    } else {
        put_two(text, word, other, words)
    }
}

fn put_shown_as<N: Names>(
    text: &mut Vec<u8>,
    names: &N,
    word: &[u8],
    words: &mut Words,
) -> Result<(), Memory>
    ensures { OnOk result (text.new.items ≡ text.old.items ++ spaced (shown_as (N.names names.now) word.now words.old)) }
{
    match words.next() {
        None => put_shown_alone(text, names, word),
        Some(other) => put_words_shown(text, names, word, other, words),
    }
}

/// What follows `show`.
pub(crate) fn put_shown<N: Names>(
    text: &mut Vec<u8>,
    names: &N,
    words: &mut Words,
) -> Result<(), Memory>
    ensures { OnOk result (text.new.items ≡ text.old.items ++ spaced (shown (N.names names.now) words.old)) }
{
    match words.next() {
        None => Ok(()),
        Some(word) => put_shown_as(text, names, word, words),
    }
}

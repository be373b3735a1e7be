//! The conditions after `until` and `watch`, as the words of a line of a script: a symbol is its cell.

ghost use Rattle.std.specs.Prelude.{◌≡◌, ◌++◌, OnOk, codes};
ghost use Rattle.std.specs.Str.{str_eq_ignore_ascii_case};
ghost use Rattle.mix_person.specs.Person.{condition_begun, conditions, spaced, words_in};

use crate::follows::put;
use crate::names::{is_symbol, plain};
use mix_lines::Words;
use mix_refused::Memory;
use mixal_text::Names;

// The first word of a condition: a symbol is its cell.
fn put_begun<N: Names>(text: &mut Vec<u8>, names: &N, word: &[u8]) -> Result<(), Memory>
    ensures { OnOk result (text.new.items ≡ text.old.items ++ spaced (condition_begun (N.names names.now) word.now)) }
{
    if is_symbol(names, word) {
        put(text, b"cell")?;
        put(text, word)
    } else {
        put(text, plain(word))
    }
}

// A word of conditions: any that does not begin one is as it is.
fn put_in<N: Names>(
    text: &mut Vec<u8>,
    names: &N,
    is_first: bool,
    word: &[u8],
) -> Result<(), Memory>
    ensures { OnOk result (text.new.items ≡ text.old.items ++ spaced (words_in (N.names names.now) is_first word.now)) }
{
    if is_first {
        put_begun(text, names, word)
    } else {
        put(text, word)
    }
}

// Whether a word is `or`, in capitals or small letters.
fn is_or(word: &[u8]) -> bool
    ensures { result ≡ str_eq_ignore_ascii_case word.now (codes "or") }
{
    word.eq_ignore_ascii_case(b"or")
}

/// The words that are left, conditions with `or` between them.
pub(crate) fn put_conditions<N: Names>(
    text: &mut Vec<u8>,
    names: &N,
    words: &mut Words,
) -> Result<(), Memory>
    ensures { OnOk result (text.new.items ≡ text.old.items ++ spaced (conditions (N.names names.now) words.old)) }
{
    let mut is_first = true;
    while let Some(word) = words.next() {
        put_in(text, names, is_first, word)?;
        is_first = is_or(word);
    }
    Ok(())
}

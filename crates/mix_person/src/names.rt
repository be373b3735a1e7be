//! Whether a word is a register, or a symbol of the program.

ghost use Rattle.std.specs.Prelude.{◌≡◌, ◌∷◌, [], codes, is_some, option_and_then};
ghost use Rattle.mixal_text.specs.Symbol.{symbol_of};
ghost use Rattle.mix_person.specs.Person.{is_one_of, is_register, is_symbol, is_written, plain};

use mix_word::Reg;
use mixal_text::{Names, Symbol};

/// Whether a word is the name of a register.
pub(crate) fn is_register(word: &[u8]) -> bool
    ensures { result ≡ is_register word.now }
{
    Reg::ALL
        .iter()
        .any(|r| word.eq_ignore_ascii_case(r.name().as_bytes()))
}

// Whether a word is a register as the book writes it, with an r before its name.
fn is_written(word: &[u8]) -> bool
    ensures { result ≡ is_written word.now }
{
    match word.split_first() {
        None => false,
        Some((first, name)) => (*first == b'r' || *first == b'R') && is_register(name),
    }
}

/// The name of a register without the r that the book puts before it.
pub(crate) fn plain(word: &[u8]) -> &[u8]
    ensures { result.now ≡ plain word.now }
{
    if is_written(word) { &word[1..] } else { word }
}

fn is_condition(word: &[u8]) -> bool
    ensures { result ≡ is_one_of (codes "over" ∷ codes "cmp" ∷ codes "cell" ∷ codes "unit" ∷ codes "loc" ∷ codes "conflict" ∷ []) word.now }
{
    word.eq_ignore_ascii_case(b"over")
        || word.eq_ignore_ascii_case(b"cmp")
        || word.eq_ignore_ascii_case(b"cell")
        || word.eq_ignore_ascii_case(b"unit")
        || word.eq_ignore_ascii_case(b"loc")
        || word.eq_ignore_ascii_case(b"conflict")
}

fn is_defined<N: Names>(names: &N, word: &[u8]) -> bool
    ensures { result ≡ is_some (option_and_then (N.names names.now).value (symbol_of word.now)) }
{
    match Symbol::of(word) {
        None => false,
        Some(symbol) => names.value(&symbol).is_some(),
    }
}

/// Whether a word is a symbol of the program, and not the first word of another condition, nor a register with its r.
pub(crate) fn is_symbol<N: Names>(names: &N, word: &[u8]) -> bool
    ensures { result ≡ is_symbol (N.names names.now) word.now }
{
    is_defined(names, word) && !(is_written(word) || is_condition(word))
}

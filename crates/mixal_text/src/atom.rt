//! Atomic expressions (1.3.2): numbers, symbols, and the asterisk.
ghost use Rattle.std.specs.Prelude.{◌≡◌, ◌∷◌, ◌+◌, drop, length, option_copied, position};
ghost use Rattle.std.specs.List.{slice_split};
ghost use Rattle.mixal_text.specs.Prelude.{pieces_of, length_with_one};
ghost use Rattle.mixal_text.specs.Atom.{is_other, atom_in, atom_value};

use crate::cut::place_or_end;
use crate::fault::TextFault;
use crate::local::{Direction, Local};
use crate::names::Names;
use crate::symbol::Symbol;
use mix_lines::{all_digits, number};
use mix_word::{Sign, Word};

/// The first number that no word holds.
const WORD_LIMIT: u64 = 1_073_741_824;

/// The atom that begins a text, which is empty where it is missing, and what follows it.
#[tactic(auto, unfolding(crate::specs::Atom::atom_in))]
pub(crate) fn split_atom(text: &[u8]) -> (&[u8], &[u8])
    ensures atom { result.0.now ≡ atom_in text.now }
    ensures rest { result.1.now ≡ drop (length (atom_in text.now)) text.now }
{
    match text {
        [b'*', ..] => text.split_at(1),
        _ => text.split_at(place_or_end(text, end_of_run(text))),
    }
}

/// The run of letters and digits that begins a text, which may be empty, and what follows the byte after it, if there is one.
#[tactic(auto, using(crate::proofs::PartLemmas::pieces))]
pub fn split_run(text: &[u8]) -> (&[u8], Option<&[u8]>)
    ensures is { slice_split is_other text.now ≡ result.0.now ∷ pieces_of is_other (option_copied result.1) }
    ensures whole { length result.0.now + length_with_one (option_copied result.1) ≡ length text.now }
{
    match end_of_run(text) {
        Some(end) => (&text[..end], Some(&text[end + 1..])),
        None => (text, None),
    }
}

fn end_of_run(text: &[u8]) -> Option<usize>
    ensures { result ≡ position is_other text.now }
{
    text.iter().position(|byte| !byte.is_ascii_alphanumeric())
}

/// The value of an atom, where the asterisk stands for `here`. A missing atom is A5, a number of over ten digits or
/// one that no word holds A6, a symbol of over ten characters or dH A3, dB with no earlier dH A14, and a symbol that is
/// not defined or dF is A7.
#[tactic(auto, unfolding(crate::specs::Atom::atom_value))]
pub(crate) fn atom_value<N: Names>(atom: &[u8], names: &N, here: Word) -> Result<Word, TextFault>
    ensures { result ≡ atom_value (N.names names.now) here atom.now }
{
    match atom {
        [] => Err(TextFault::BadExpression),
        [b'*', ..] => Ok(here),
        _ if all_digits(atom) => match number(atom) {
            Some(n) if n < WORD_LIMIT => Ok(Word::of(Sign::Plus, n as u32)),
            _ => Err(TextFault::NumberTooLarge),
        },
        _ => match Local::of(atom) {
            Some(local) => match local.direction {
                Direction::Here => Err(TextFault::BadSymbol),
                Direction::Backward => names.back(local.digit).ok_or(TextFault::NoSuchLocalSymbol),
                Direction::Forward => Err(TextFault::UndefinedSymbol),
            },
            None => match Symbol::of(atom) {
                Some(symbol) => names.value(&symbol).ok_or(TextFault::UndefinedSymbol),
                None => Err(TextFault::BadSymbol),
            },
        },
    }
}

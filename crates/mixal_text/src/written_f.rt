//! An F that an ADDRESS gives in numbers, and that a step refuses whatever the machine holds (1.3.1, 1.3.2).
ghost use Rattle.std.specs.Prelude.{◌≡◌, ◌≤◌, length};
ghost use Rattle.std.specs.List.{list_any};
ghost use Rattle.mixal_text.specs.WrittenF.{after_a_part, is_asterisk, no_names, op_refuses, written_f};

use crate::addresses::f_at;
use crate::cut::{equals_in, split_at_bracket, split_at_delimiter};
use crate::names::Names;
use crate::op::Op;
use crate::symbol::Symbol;
use mix_word::{Decoded, Field, UNITS, Uses, Word, decode};

/// No symbol has a value.
pub(crate) struct NoNames;

impl Names for NoNames {
    ghost names = { λ none. no_names };

    fn value(&self, _symbol: &Symbol) -> Option<Word> {
        None
    }

    fn back(&self, _digit: u8) -> Option<Word> {
        None
    }
}

/// Whether an instruction has an F in numbers that its step refuses.
pub(crate) fn op_refuses(op: Op, address: &[u8]) -> bool
    ensures { result ≡ op_refuses op address.now }
{
    match op {
        Op::Machine { code, .. } => match written_f(address) {
            Some(f) => match decode(code, f) {
                Decoded::Named(operation) => match operation.uses() {
                    Uses::Operand => Field::of(f).is_none(),
                    Uses::Unit(_) => UNITS <= f,
                    Uses::Nothing | Uses::FAlone | Uses::Address | Uses::Count | Uses::Cells =>
                        false,
                },
                Decoded::Floating | Decoded::Unknown => true,
            },
            None => false,
        },
        Op::Equ | Op::Orig | Op::Con | Op::Alf(_) | Op::End => false,
    }
}

/// The F of an ADDRESS, if it is given in numbers.
#[tactic(auto, unfolding(crate::specs::WrittenF::written_f))]
pub(crate) fn written_f(address: &[u8]) -> Option<u8>
    ensures { result ≡ written_f address.now }
{
    let brackets = split_at_bracket(after_a_part(address)).1;
    if has_asterisk(brackets) {
        return None;
    }
    match f_at(0, brackets, &NoNames, Word::ZERO) {
        Ok(f) => f,
        Err(_) => None,
    }
}

/// Whether an asterisk stands in a text.
pub(crate) fn has_asterisk(text: &[u8]) -> bool
    ensures { result ≡ list_any is_asterisk text.now }
{
    text.contains(&b'*')
}

#[tactic(auto, using(crate::proofs::PartLemmas::cuts))]
/// What follows the A-part of an ADDRESS.
pub(crate) fn after_a_part(address: &[u8]) -> &[u8]
    ensures is { result.now ≡ after_a_part address.now }
    ensures within { length result.now ≤ length address.now }
{
    match address {
        [b'=', rest @ ..] => match equals_in(rest) {
            Some(end) => &rest[end + 1..],
            None => &[],
        },
        _ => split_at_delimiter(address).1,
    }
}

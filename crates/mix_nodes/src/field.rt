//! Fields and heads as they are typed: E, E(L:R), =E=, I1.
ghost use Rattle.std.specs.Prelude.{◌≡◌, ◌≤◌, ℕ, Bool, IfSome, length, position, option_copied};
ghost use Rattle.std.specs.List.{before_first};
ghost use Rattle.mix_word.specs.Word.{natural_of};
ghost use Rattle.mixal_text.specs.Part.{from_first, is_close, is_open};
ghost use Rattle.mixal_text.specs.Address.{is_equals};
ghost use Rattle.mix_nodes.specs.Read.{before_last, cell_named, field_in_brackets, field_named, field_of_code, held_named, link_named, literal_named, pointer_named};

use crate::rows::POINTERS;
use crate::shape::{FieldAt, HeadLink};
use crate::words::expression_in;
use mix_word::{Field, Reg, Word};
use mixal_text::Names;

fn open_in(text: &[u8]) -> Option<usize>
    ensures { result ≡ position is_open text.now }
{
    text.iter().position(|byte| *byte == b'(')
}

// A text cut before its first opening bracket.
#[tactic(auto, using(crate::proofs::ReadLemmas::cuts))]
fn split_at_bracket(text: &[u8]) -> (&[u8], &[u8])
    ensures before { result.0.now ≡ before_first is_open text.now }
    ensures from { result.1.now ≡ from_first is_open text.now }
{
    match open_in(text) {
        Some(start) => text.split_at(start),
        None => (text, &[]),
    }
}

fn before_close(text: &[u8]) -> Option<&[u8]>
    ensures { option_copied result ≡ before_last is_close text.now }
{
    match text {
        [inner @ .., b')'] => Some(inner),
        _ => None,
    }
}

fn before_equals(text: &[u8]) -> Option<&[u8]>
    ensures { option_copied result ≡ before_last is_equals text.now }
{
    match text {
        [inner @ .., b'='] => Some(inner),
        _ => None,
    }
}

// The field of a code.
fn field_of_code(code: Option<u32>) -> Option<Field>
    ensures { result ≡ field_of_code code }
{
    match code {
        Some(code) if code < 64 => Field::of(code as u8),
        _ => None,
    }
}

// The field that brackets give, or the whole word where there are none.
fn field_in_brackets<N: Names>(text: &[u8], names: &N, here: Word) -> Option<Field>
    ensures { result ≡ field_in_brackets (N.names names.now) here text.now }
{
    match text {
        [] => Some(Field::whole()),
        [_, rest @ ..] => {
            let inner = before_close(rest)?;
            let code = expression_in(inner, names, here)?;
            field_of_code(code.natural())
        }
    }
}

/// The field that a text names: E, or E(L:R).
#[tactic(auto, unfolding(crate::specs::Read::field_named))]
pub(crate) fn field_named<N: Names>(text: &[u8], names: &N, here: Word) -> Option<FieldAt>
    ensures { result ≡ field_named (N.names names.now) here text.now }
{
    let (number, brackets) = split_at_bracket(text);
    let after = expression_in(number, names, here)?;
    let field = field_in_brackets(brackets, names, here)?;
    Some(FieldAt { after, field })
}

// A link itself, by what follows the first equals sign.
fn literal_named<N: Names>(rest: &[u8], names: &N, here: Word) -> Option<HeadLink>
    ensures { result ≡ literal_named (N.names names.now) here rest.now }
{
    let inner = before_equals(rest)?;
    let value = expression_in(inner, names, here)?;
    Some(HeadLink::Literal(value))
}

fn cell_named<N: Names>(text: &[u8], names: &N, here: Word) -> Option<HeadLink>
    ensures { result ≡ cell_named (N.names names.now) here text.now }
{
    let field = field_named(text, names, here)?;
    Some(HeadLink::Cell(field))
}

fn pointer_named(text: &[u8]) -> Option<Reg>
    ensures { result ≡ pointer_named text.now }
{
    POINTERS
        .iter()
        .copied()
        .find(|r| text.eq_ignore_ascii_case(r.name().as_bytes()))
}

fn held_named<N: Names>(text: &[u8], names: &N, here: Word) -> Option<HeadLink>
    ensures { result ≡ held_named (N.names names.now) here text.now }
{
    match cell_named(text, names, here) {
        None => pointer_named(text).map(HeadLink::Register),
        link => link,
    }
}

/// The link of a head: =E=, or a field or an index register that has one.
pub(crate) fn link_named<N: Names>(text: &[u8], names: &N, here: Word) -> Option<HeadLink>
    ensures { result ≡ link_named (N.names names.now) here text.now }
{
    match text {
        [b'=', rest @ ..] => literal_named(rest, names, here),
        _ => held_named(text, names, here),
    }
}

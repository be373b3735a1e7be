//! The ADDRESS of a symbolic operation (1.3.2): A-part, index and F.
ghost use Rattle.std.specs.Prelude.{◌≡◌, ◌<◌, ◌≤◌, ◌+◌, ◌^◌, IfErr, IfOk, IfSome, MatchResult, Ok, Err, length};
ghost use Rattle.mixal_text.specs.Misread.{IsWithin};
ghost use Rattle.mixal_text.specs.Part.{brackets_at, up_to};
ghost use Rattle.mixal_text.specs.Address.{IsFuture, IsMachine, a_part_of, address_of, f_of, index_at, literal_operand_of, operand_at, plain_operand_of, value_of_a_part, value_of_operand};

use crate::atom::split_atom;
use crate::cut::{after_close, equals_in, split_at_bracket, split_at_close, split_at_delimiter};
use crate::expressions::{expression_at, whole_expression};
use crate::fault::TextFault;
use crate::misread::{Misread, Span, or_at};
use crate::names::Names;
use crate::op::Op;
use crate::part::{closed_at, left_at, left_over, number_up_to};
use crate::references::reference;
use crate::symbol::Symbol;
use mix_word::Word;

/// The A-part of an address (1.3.2): a value; a future reference to a symbol that is not defined yet, or to dF by its
/// digit d; or a literal, as the W-value between its equals signs, which is a slice of the text.
#[derive(Drop)]
pub enum APart<'a> {
    Value(Word),
    Name(Symbol),
    Ahead(u8),
    Literal(&'a [u8]),
}

/// What an ADDRESS says (1.3.2): the A-part, the index, 0 to 6, and F, 0 to 63.
#[derive(Drop)]
pub struct Operand<'a> {
    pub a: APart<'a>,
    pub index: u8,
    pub f: u8,
}

/// The operand of a symbolic operation (1.3.2), which `op` has to be: A-part, index after a comma, and F in brackets, each
/// of which may be left out for +0, 0 and the normal F. The asterisk stands for `here`. The first fault from the left is
/// the answer: those of an expression, A10 for an index over 6 or an F over 63, and A5 where something is missing or left over.
/// The fault is at an atom, at all of an expression up to the operation that cannot be done, at the index or the F, or at what is
/// left over; where something is missing, its bytes are none.
#[tactic(auto, unfolding(crate::specs::Address::address_of))]
pub fn address<'a, N: Names>(
    text: &'a [u8],
    op: Op,
    names: &N,
    here: Word,
) -> Result<Operand<'a>, Misread>
    requires { IsMachine op }
    ensures operand { MatchResult result
        (λ operand. address_of (N.names names.now) here (f_of op) text.now ≡ Ok (value_of_operand operand))
        (λ misread. address_of (N.names names.now) here (f_of op) text.now ≡ Err misread) }
    ensures index { IfOk result (λ operand. operand.index ≤ 6) }
    ensures future { IfOk result (λ operand. IsFuture (N.names names.now) (value_of_a_part operand.a)) }
    ensures f { f_of op < 64 → IfOk result (λ operand. operand.f < 64) }
    ensures within { IfErr result (λ misread. IsWithin 0 (length text.now) misread.at) }
{
    let normal_f = normal_f(op);
    match text {
        [b'=', text @ ..] => literal_operand(text, normal_f, names, here),
        _ => plain_operand(text, normal_f, names, here),
    }
}

fn normal_f(op: Op) -> u8
    requires { IsMachine op }
    ensures { result ≡ f_of op }
{
    match op {
        Op::Machine { f, .. } => f,
        Op::Equ | Op::Orig | Op::Con | Op::Alf(_) | Op::End => unreachable!(),
    }
}

#[tactic(auto, using(crate::proofs::PartLemmas::cuts), unfolding(crate::specs::Address::literal_operand_of))]
fn literal_operand<'a, N: Names>(
    text: &'a [u8],
    normal_f: u8,
    names: &N,
    here: Word,
) -> Result<Operand<'a>, Misread>
    requires { length text.now + 1 < 2 ^ 64 }
    ensures operand { MatchResult result
        (λ operand. literal_operand_of (N.names names.now) here normal_f text.now ≡ Ok (value_of_operand operand))
        (λ misread. literal_operand_of (N.names names.now) here normal_f text.now ≡ Err misread) }
    ensures index { IfOk result (λ operand. operand.index ≤ 6) }
    ensures future { IfOk result (λ operand. IsFuture (N.names names.now) (value_of_a_part operand.a)) }
    ensures f { normal_f < 64 → IfOk result (λ operand. operand.f < 64) }
    ensures within { IfErr result (λ misread. IsWithin 0 (length text.now + 1) misread.at) }
{
    match equals_in(text) {
        Some(end) => {
            let literal = &text[..end];
            let a = APart::Literal(literal);
            operand_at(
                a,
                literal.len() + 2,
                &text[end + 1..],
                normal_f,
                names,
                here,
            )
        }
        None => Err(Misread {
            fault: TextFault::BadExpression,
            at: Span {
                from: 0,
                to: text.len() + 1,
            },
        }),
    }
}

#[tactic(auto, unfolding(crate::specs::Address::plain_operand_of))]
fn plain_operand<'a, N: Names>(
    text: &'a [u8],
    normal_f: u8,
    names: &N,
    here: Word,
) -> Result<Operand<'a>, Misread>
    ensures operand { MatchResult result
        (λ operand. plain_operand_of (N.names names.now) here normal_f text.now ≡ Ok (value_of_operand operand))
        (λ misread. plain_operand_of (N.names names.now) here normal_f text.now ≡ Err misread) }
    ensures index { IfOk result (λ operand. operand.index ≤ 6) }
    ensures future { IfOk result (λ operand. IsFuture (N.names names.now) (value_of_a_part operand.a)) }
    ensures f { normal_f < 64 → IfOk result (λ operand. operand.f < 64) }
    ensures within { IfErr result (λ misread. IsWithin 0 (length text.now) misread.at) }
{
    let (text, rest) = split_at_delimiter(text);
    let a = a_part(text, names, here)?;
    operand_at(a, text.len(), rest, normal_f, names, here)
}

// An operand by its A-part, and by what follows that from a place on.
#[tactic(auto, unfolding(crate::specs::Address::operand_at))]
fn operand_at<'a, N: Names>(
    a: APart<'a>,
    place: usize,
    rest: &[u8],
    normal_f: u8,
    names: &N,
    here: Word,
) -> Result<Operand<'a>, Misread>
    requires future { IsFuture (N.names names.now) (value_of_a_part a) }
    requires fits { place + length rest.now < 2 ^ 64 }
    ensures operand { MatchResult result
        (λ operand. operand_at (N.names names.now) here normal_f (value_of_a_part a.entry) place rest.now ≡ Ok (value_of_operand operand))
        (λ misread. operand_at (N.names names.now) here normal_f (value_of_a_part a.entry) place rest.now ≡ Err misread) }
    ensures index { IfOk result (λ operand. operand.index ≤ 6) }
    ensures future { IfOk result (λ operand. IsFuture (N.names names.now) (value_of_a_part operand.a)) }
    ensures f { normal_f < 64 → IfOk result (λ operand. operand.f < 64) }
    ensures within { IfErr result (λ misread. IsWithin place (place + length rest.now) misread.at) }
{
    let (text, brackets) = split_at_bracket(rest);
    let index = index_at(place, text, names, here)?;
    let f = f_at(place + text.len(), brackets, names, here)?.unwrap_or(normal_f);
    Ok(Operand { a, index, f })
}

#[tactic(auto, using(crate::proofs::PartLemmas::cuts), unfolding(crate::specs::Address::index_at))]
fn index_at<N: Names>(place: usize, text: &[u8], names: &N, here: Word) -> Result<u8, Misread>
    requires { place + length text.now < 2 ^ 64 }
    ensures value { result ≡ index_at (N.names names.now) here place text.now }
    ensures bound { IfOk result (λ index. index ≤ 6) }
    ensures within { IfErr result (λ misread. IsWithin place (place + length text.now) misread.at) }
{
    match text {
        [] => Ok(0),
        [b',', text @ ..] => {
            let from = place + 1;
            let (value, end) = expression_at(from, text, names, here)?;
            let index = or_at(number_up_to(6, value), from, end)?;
            left_at(end, &text[end - from..])?;
            Ok(index)
        }
        _ => Err(left_over(place, text)),
    }
}

/// The F in brackets with which a text ends that stands at a place, or none.
#[tactic(auto, unfolding(crate::specs::Part::brackets_at))]
pub(crate) fn f_at<N: Names>(
    place: usize,
    text: &[u8],
    names: &N,
    here: Word,
) -> Result<Option<u8>, Misread>
    requires { place + length text.now < 2 ^ 64 }
    ensures value { result ≡ brackets_at (up_to 63) (N.names names.now) here place text.now }
    ensures bound { IfOk result (λ f. IfSome f (λ n. n < 64)) }
    ensures within { IfErr result (λ misread. IsWithin place (place + length text.now) misread.at) }
{
    match text {
        [] => Ok(None),
        [_, text @ ..] => {
            let from = place + 1;
            let value = closed_at(from, text, names, here)?;
            let to = from + split_at_close(text).0.len();
            let f = or_at(number_up_to(63, value), from, to)?;
            left_at(to + 1, after_close(text))?;
            Ok(Some(f))
        }
    }
}

#[tactic(auto, unfolding(crate::specs::Address::a_part_of))]
fn a_part<'a, N: Names>(text: &[u8], names: &N, here: Word) -> Result<APart<'a>, Misread>
    ensures is { MatchResult result
        (λ a. a_part_of (N.names names.now) here text.now ≡ Ok (value_of_a_part a))
        (λ misread. a_part_of (N.names names.now) here text.now ≡ Err misread) }
    ensures future { IfOk result (λ a. IsFuture (N.names names.now) (value_of_a_part a)) }
    ensures within { IfErr result (λ misread. IsWithin 0 (length text.now) misread.at) }
{
    if text.is_empty() {
        return Ok(APart::Value(Word::ZERO));
    }
    let (atom, rest) = split_atom(text);
    match reference(atom, rest, names) {
        Some(reference) => {
            left_at(atom.len(), rest)?;
            Ok(reference)
        }
        None => Ok(APart::Value(whole_expression(text, names, here)?)),
    }
}

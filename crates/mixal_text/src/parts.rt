//! Where in a line its parts stand, and which bytes of a part are at fault (1.3.2).
ghost use Rattle.std.specs.Prelude.{◌≡◌, ◌≤◌, ◌-◌, length};
ghost use Rattle.std.specs.List.{before_first};
ghost use Rattle.mixal_text.specs.Prelude.{IsWithin};
ghost use Rattle.mixal_text.specs.Alf.{is_quote};
ghost use Rattle.mixal_text.specs.Parts.{f_span, span_in, address_span, operation_span, part_misread, part_span, joined};

use crate::alf::{alf_start, quote_in};
use crate::bad::bad_span;
use crate::cut::{open_in, split_at_close};
use crate::fault::TextFault;
use crate::line::{address_after, first_word, read_op};
use crate::misread::{Misread, Span};
use crate::op::Mnemonic;
use crate::words::{skip_blanks, split_word};
use crate::written_f::after_a_part;

/// A part of a line (1.3.2): LOC, OP, ADDRESS, its A-part, its F without brackets, or OP and ADDRESS.
#[derive(Clone, Copy)]
pub enum Part {
    Label,
    Operation,
    Address,
    APart,
    FPart,
    Statement,
}

/// Where a part stands in a line without its line end (1.3.2). The span of a part that is left out is empty and says where it
/// would stand; that of ALF's ADDRESS are the characters that it takes.
#[tactic(auto, unfolding(crate::specs::Parts::part_span))]
pub fn part_span(line: &[u8], part: Part) -> Span
    ensures is { result ≡ part_span line.now part }
    ensures order { result.from ≤ result.to }
    ensures within { result.to ≤ length line.now }
{
    match part {
        Part::Label => span_in(line, line, split_word(line).0),
        Part::Operation => operation_span(line),
        Part::Address => address_span(line),
        Part::APart => {
            let Span { from, to } = address_span(line);
            Span {
                from,
                to: to - after_a_part(&line[from..to]).len(),
            }
        }
        Part::FPart => f_span(line, address_span(line)),
        Part::Statement => joined(operation_span(line), address_span(line)),
    }
}

/// A fault of a part of a line, at the bytes at fault: a character that is none of MIX, or else the whole part.
pub(crate) fn part_misread(line: &[u8], part: Part, fault: TextFault) -> Misread
    ensures is { result ≡ part_misread line.now part fault }
    ensures within { IsWithin 0 (length line.now) result.at }
{
    let span = part_span(line, part);
    let at = match fault {
        TextFault::BadByte => bad_span(line, span),
        _ => span,
    };
    Misread { fault, at }
}

// Where a part of a text stands, by what is left of the text from it on.
fn span_in(text: &[u8], rest: &[u8], piece: &[u8]) -> Span
    requires rest { length rest.now ≤ length text.now }
    requires piece { length piece.now ≤ length rest.now }
    ensures is { result ≡ span_in text.now rest.now piece.now }
    ensures order { result.from ≤ result.to }
    ensures within { result.to ≤ length text.now }
{
    let from = text.len() - rest.len();
    Span {
        from,
        to: from + piece.len(),
    }
}

fn operation_span(line: &[u8]) -> Span
    ensures is { result ≡ operation_span line.now }
    ensures order { result.from ≤ result.to }
    ensures within { result.to ≤ length line.now }
{
    let rest = skip_blanks(split_word(line).1);
    span_in(line, rest, split_word(rest).0)
}

#[tactic(auto, unfolding(crate::specs::Parts::address_span, crate::specs::Parts::address_span_by))]
fn address_span(line: &[u8]) -> Span
    ensures is { result ≡ address_span line.now }
    ensures after { (operation_span line.now).from ≤ result.from }
    ensures order { result.from ≤ result.to }
    ensures within { result.to ≤ length line.now }
{
    let (name, rest) = split_word(skip_blanks(split_word(line).1));
    let from = skip_blanks(rest);
    match read_op(name) {
        Ok(Mnemonic::Machine(operation)) => span_in(line, from, address_after(operation, rest)),
        Ok(Mnemonic::Alf) => match from {
            [b'"', text @ ..] => span_in(line, text, before_quote(text)),
            _ => {
                let text = alf_start(rest);
                span_in(line, text, &text[..text.len().min(5)])
            }
        },
        _ => span_in(line, from, first_word(rest)),
    }
}

/// What stands before the next quotation mark, or all where there is none.
#[tactic(auto, using(crate::proofs::PartLemmas::cuts))]
pub(crate) fn before_quote(text: &[u8]) -> &[u8]
    ensures is { result.now ≡ before_first is_quote text.now }
    ensures within { length result.now ≤ length text.now }
{
    match quote_in(text) {
        Some(end) => &text[..end],
        None => text,
    }
}

#[tactic(auto, using(crate::proofs::PartLemmas::cuts))]
fn f_span(line: &[u8], at: Span) -> Span
    requires order { at.from ≤ at.to }
    requires within { at.to ≤ length line.now }
    ensures is { result ≡ f_span line.now at }
    ensures order { result.from ≤ result.to }
    ensures within { result.to ≤ length line.now }
{
    let rest = after_a_part(&line[at.from..at.to]);
    match open_in(rest) {
        Some(start) => {
            let inside = &rest[start + 1..];
            let from = at.to - inside.len();
            Span {
                from,
                to: from + split_at_close(inside).0.len(),
            }
        }
        None => Span {
            from: at.to,
            to: at.to,
        },
    }
}

// From one part to another, if that is not empty.
fn joined(first: Span, second: Span) -> Span
    requires { first.from ≤ first.to }
    ensures is { result ≡ joined first second }
    ensures order { first.from ≤ second.from → result.from ≤ result.to }
{
    if second.from < second.to {
        Span {
            from: first.from,
            to: second.to,
        }
    } else {
        first
    }
}

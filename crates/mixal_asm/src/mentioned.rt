//! All that the lines of a source mention (1.3.2): each name where it is defined, and where it is used.
ghost use Rattle.std.specs.Prelude.{◌≡◌, ◌≤◌, ◌<◌, ◌+◌, ◌^◌, ◌-◌, ℕ, List, [], ◌∷◌, ◌++◌, length, slice_index, IfOk, OnOk};
ghost use Rattle.std.specs.List.{slice_split};
ghost use Rattle.mix_lines.specs.Lines.{lines};
ghost use Rattle.mixal_text.specs.Prelude.{is_other};
ghost use Rattle.mixal_asm.specs.Diagnose.{label_of, up_to_end};
ghost use Rattle.mixal_asm.specs.Mentions.{line_mentions, mention_if, mentions_after, mentions_of, name_defined, name_used, next_locals, uses_from};

use crate::mentions::{Role, label_of, next_line};
use crate::source::MAX_SOURCE_BYTES;
use mix_lines::is_comment;
use mix_refused::Memory;
use mixal_text::{
    Direction, Label, Local, Mnemonic, Part, Span, Symbol, line_op, part_span, split_run,
};
use std::alloc::Global;

/// What a line names (1.3.2): an ordinary symbol, or a dH, by its digit d, 0 to 9, and its number
/// among the dH of that digit, from 1. A dB with no dH before it has the number 0, and a dF with
/// none after it has one that no dH has.
#[derive(Drop)]
pub enum Name {
    Symbol(Symbol),
    Local(u8, u32),
}

/// Where a source mentions a name (1.3.2): what its line does with it, the number of the line, from
/// 1, and its bytes in the line.
#[derive(Drop)]
pub struct Mention {
    pub name: Name,
    pub role: Role,
    pub line: u32,
    pub at: Span,
}

/// All mentions of names in the lines of a source up to END (1.3.2), in the order of the text: the
/// LOC of a line, and what its ADDRESS uses. A dB means the last dH before its line, and a dF the
/// next one after it. The names in LOC and ADDRESS of a line that is refused are mentions as well.
/// A source of over 1,048,576 bytes is not looked at, and has none.
#[tactic(auto, unfolding(crate::specs::Mentions::mentions_of))]
pub fn mentions_of(alloc: Global, text: &[u8]) -> Result<Vec<Mention>, Memory>
    ensures mentions { IfOk result (λ list. list.items ≡ mentions_of text.now) }
{
    let mut list = Vec::new(alloc);
    if text.len() <= MAX_SOURCE_BYTES {
        add_mentions(&mut list, text)?;
    }
    Ok(list)
}

fn add_mentions(list: &mut Vec<Mention>, text: &[u8]) -> Result<(), Memory>
    requires { length text.now ≤ 1048576 }
    ensures { OnOk result (list.new.items ≡ list.old.items ++ mentions_after [] (up_to_end (lines text.now))) }
{
    let mut number = 1;
    let mut next = [1; 10];
    let mut rest = text;
    while let Some((line, more)) = next_line(rest) {
        let before = next;
        count(&mut next, line);
        add_line(list, &before, &next, number, line)?;
        number += 1;
        rest = more;
    }
    Ok(())
}

// The numbers of the next dH, after one line more.
fn count(next: &mut [u32; 10], line: &[u8])
    requires { (d : ℕ) → slice_index next.old d < 2 ^ 32 - 1 }
    ensures { (before : List (List ℕ)) → next.old ≡ next_locals before → next.new ≡ next_locals (before ++ line.now ∷ []) }
{
    match label_of(line) {
        Some(Label::Local(d)) if d < 10 => next[usize::from(d)] += 1,
        _ => {}
    }
}

// The mentions of a line, by the numbers of the next dH before it and after it.
fn add_line(
    list: &mut Vec<Mention>,
    before: &[u32],
    after: &[u32],
    number: u32,
    line: &[u8],
) -> Result<(), Memory>
    ensures { OnOk result (list.new.items ≡ list.old.items ++ line_mentions before.now after.now number line.now) }
{
    let defined = name_defined(before, label_of(line));
    let at = part_span(line, Part::Label);
    add_if(list, defined, Role::Definition, number, at)?;
    if !is_comment(line) && !matches!(line_op(line), Ok(Mnemonic::Alf)) {
        let at = part_span(line, Part::Address);
        add_uses(list, before, after, number, at.from, &line[at.from..at.to])?;
    }
    Ok(())
}

// The uses in a text that stands at a place of its line.
fn add_uses(
    list: &mut Vec<Mention>,
    before: &[u32],
    after: &[u32],
    number: u32,
    start: usize,
    text: &[u8],
) -> Result<(), Memory>
    requires { start + length text.now < 2 ^ 63 }
    ensures { OnOk result (list.new.items ≡ list.old.items ++ uses_from before.now after.now number start (slice_split is_other text.now)) }
{
    let mut from = start;
    let mut rest = Some(text);
    while let Some(text) = rest {
        let (run, more) = split_run(text);
        let to = from + run.len();
        let used = name_used(before, after, run);
        add_if(list, used, Role::Use, number, Span { from, to })?;
        from = to + 1;
        rest = more;
    }
    Ok(())
}

fn add_if(
    list: &mut Vec<Mention>,
    name: Option<Name>,
    role: Role,
    line: u32,
    at: Span,
) -> Result<(), Memory>
    ensures { OnOk result (list.new.items ≡ list.old.items ++ mention_if name role line at) }
{
    match name {
        Some(name) => {
            list.push(Mention {
                name,
                role,
                line,
                at,
            })?;
            Ok(())
        }
        None => Ok(()),
    }
}

fn name_defined(before: &[u32], loc: Option<Label>) -> Option<Name>
    ensures { result ≡ name_defined before.now loc }
{
    match loc {
        Some(Label::Name(symbol)) => Some(Name::Symbol(symbol)),
        Some(Label::Local(d)) => Some(Name::Local(d, number_of(before, d))),
        None => None,
    }
}

fn name_used(before: &[u32], after: &[u32], text: &[u8]) -> Option<Name>
    ensures { result ≡ name_used before.now after.now text.now }
{
    match Local::of(text) {
        Some(Local { digit, direction }) => match direction {
            Direction::Here => None,
            Direction::Backward => {
                Some(Name::Local(digit, number_of(before, digit).saturating_sub(1)))
            }
            Direction::Forward => Some(Name::Local(digit, number_of(after, digit))),
        },
        None => Symbol::of(text).map(Name::Symbol),
    }
}

fn number_of(next: &[u32], d: u8) -> u32
    ensures { result ≡ slice_index next.now d }
{
    match next.get(usize::from(d)) {
        Some(number) => *number,
        None => 0,
    }
}

//! The symbols that the lines of a source define and use, each with its first line (1.3.2).
ghost use Rattle.std.specs.Prelude.{◌≡◌, ◌<◌, ◌≤◌, ◌+◌, ◌++◌, ◌∷◌, [], ℕ, List, length, MatchOption, IfSome, IfOk, OnOk};
ghost use Rattle.std.specs.Map.{lookup};
ghost use Rattle.std.specs.Str.{bytes_eq};
ghost use Rattle.mix_lines.specs.Lines.{lines};
ghost use Rattle.mixal_asm.specs.Diagnose.{first_mention, is_end, label_of, mentions_from, symbol_in, up_to_end, with_number};
ghost use Rattle.mixal_asm.specs.Source.{symbol_of_loc};

use crate::index::{note_line, symbol_of_loc};
use crate::source::MAX_SOURCE_BYTES;
use indexmap::IndexMap;
use mix_lines::{is_comment, split_line};
use mix_refused::Memory;
use mixal_text::{Label, Symbol, line_is_end, line_loc, symbol_used};
use std::alloc::Global;

/// What a line does with a name (1.3.2): its LOC defines it, or its ADDRESS uses it.
#[derive(Clone, Copy)]
pub enum Role {
    Definition,
    Use,
}

/// The next line of a text, and the text after it, which is empty after END.
pub(crate) fn next_line(text: &[u8]) -> Option<(&[u8], &[u8])>
    ensures line { MatchOption result
        (up_to_end (lines text.now) ≡ [])
        (λ next. up_to_end (lines text.now) ≡ next.0.now ∷ up_to_end (lines next.1.now)) }
    ensures shorter { IfSome result (λ next. length next.1.now < length text.now) }
{
    if text.is_empty() {
        return None;
    }
    let (line, rest) = split_line(text);
    if is_end(line) {
        Some((line, &[]))
    } else {
        Some((line, rest))
    }
}

/// Whether a line is END.
pub(crate) fn is_end(line: &[u8]) -> bool
    ensures { result ≡ is_end line.now }
{
    !is_comment(line) && line_is_end(line)
}

/// The symbols that the lines of a source up to END have as their LOC, or as the whole A-part of an
/// instruction (1.3.2), each with the number of the first line that does, whatever else that line
/// is. A source of over 1,048,576 bytes is not looked at.
#[tactic(auto, unfolding(crate::specs::Diagnose::first_mention))]
pub fn first_mentions(
    alloc: Global,
    role: Role,
    text: &[u8],
) -> Result<IndexMap<Symbol, u32>, Memory>
    ensures lines { (symbol : List ℕ) → IfOk result (λ found. lookup (bytes_eq symbol) found.entries ≡ first_mention text.now role symbol) }
{
    if text.len() > MAX_SOURCE_BYTES {
        return Ok(IndexMap::new(alloc));
    }
    mentions(alloc, role, text)
}

/// The symbols that the lines of a text mention in this role, each with the number of its first line.
pub(crate) fn mentions(
    alloc: Global,
    role: Role,
    text: &[u8],
) -> Result<IndexMap<Symbol, u32>, Memory>
    requires { length text.now ≤ 1048576 }
    ensures { (symbol : List ℕ) → IfOk result (λ found. lookup (bytes_eq symbol) found.entries ≡ lookup (bytes_eq symbol) (mentions_from role 1 (up_to_end (lines text.now)))) }
{
    let mut found = IndexMap::new(alloc);
    let mut number = 1;
    let mut rest = text;
    while let Some((line, after)) = next_line(rest) {
        note_mention(&mut found, role, number, line)?;
        number += 1;
        rest = after;
    }
    Ok(found)
}

// The symbol that a line mentions, unless one before has.
fn note_mention(
    found: &mut IndexMap<Symbol, u32>,
    role: Role,
    number: u32,
    line: &[u8],
) -> Result<(), Memory>
    ensures { (other : List ℕ) → OnOk result (lookup (bytes_eq other) found.new.entries ≡ lookup (bytes_eq other) (found.old.entries ++ with_number number (symbol_in role line.now))) }
{
    match symbol_in(role, line) {
        Some(symbol) => note_line(found, symbol, number),
        None => Ok(()),
    }
}

fn symbol_in(role: Role, line: &[u8]) -> Option<Symbol>
    ensures { result ≡ symbol_in role line.now }
{
    match role {
        Role::Definition => symbol_of_loc(label_of(line)),
        Role::Use => symbol_used(line),
    }
}

/// The LOC of a line, whatever the rest of it is.
pub(crate) fn label_of(line: &[u8]) -> Option<Label>
    ensures { result ≡ label_of line.now }
{
    match line_loc(line) {
        Ok(loc) => loc,
        Err(_) => None,
    }
}

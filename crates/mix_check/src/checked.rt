//! A source on which there is something to say: the line of each diagnostic, and where its symbols are defined.

use crate::near::is_near;
use indexmap::IndexMap;
use mix_lines::split_line;
use mix_refused::Memory;
use mixal_asm::{Diagnostic, MAX_SOURCE_BYTES, Role, first_mentions};
use mixal_text::{Span, Symbol};
use std::alloc::Global;

/// A source. It finds the lines of diagnostics that come in the order of their lines in one walk.
#[derive(Drop)]
pub struct Checked<'s> {
    text: &'s [u8],
    definitions: IndexMap<Symbol, u32>,
    passed: u32,
    rest: &'s [u8],
}

impl<'s> Checked<'s> {
    /// Reads where the symbols of a source are defined.
    pub fn of(alloc: Global, text: &'s [u8]) -> Result<Checked<'s>, Memory> {
        let definitions = first_mentions(alloc, Role::Definition, text)?;
        Ok(Checked {
            text,
            definitions,
            passed: 0,
            rest: text,
        })
    }

    pub(crate) fn text(&self) -> &'s [u8] {
        self.text
    }

    /// The first symbol that it defines and that is near to one, by its name.
    pub(crate) fn near_symbol(&self, symbol: &Symbol) -> Option<&[u8]> {
        let mut names = self.definitions.keys().map(|other| other.name());
        names.find(|name| is_near(symbol.name(), name))
    }

    /// The first line that defines a symbol.
    pub(crate) fn line_of_symbol(&self, symbol: &Symbol) -> Option<u32> {
        self.definitions.get(symbol).copied()
    }

    /// The line of a diagnostic, and the bytes of it that the diagnostic is about, if it is about some. No line is shown that is longer than a source may be.
    pub(crate) fn shown(&mut self, diagnostic: &Diagnostic) -> Option<(&'s [u8], Span)> {
        let span = diagnostic.at?;
        let line = self.line(diagnostic.line)?;
        if line.len() > MAX_SOURCE_BYTES {
            None
        } else {
            Some((line, span))
        }
    }

    // The line of this number, counted from 1. The walk goes on from the last one, or begins anew if that is behind this one.
    fn line(&mut self, number: u32) -> Option<&'s [u8]> {
        let passed = number.saturating_sub(1);
        if passed < self.passed {
            self.passed = 0;
            self.rest = self.text;
        }
        for _ in self.passed..passed {
            if self.rest.is_empty() {
                break;
            }
            self.rest = split_line(self.rest).1;
        }
        self.passed = passed;
        if self.rest.is_empty() {
            None
        } else {
            Some(split_line(self.rest).0)
        }
    }
}

/// The bytes before those that a diagnostic is about, or none.
pub(crate) fn front_of<'s>(place: Option<(&'s [u8], Span)>) -> &'s [u8] {
    match place {
        Some((line, span)) => before(line, span.from),
        None => &[],
    }
}

/// The bytes that a diagnostic is about, or none.
pub(crate) fn piece_of<'s>(place: Option<(&'s [u8], Span)>) -> &'s [u8] {
    match place {
        Some((line, span)) => bytes_at(line, span),
        None => &[],
    }
}

/// The bytes of a span, as far as the line has them. It takes no memory.
pub fn bytes_at(line: &[u8], span: Span) -> &[u8] {
    let rest = &line[span.from.min(line.len())..];
    before(rest, span.to.saturating_sub(span.from))
}

/// The first bytes of a line, so many of them.
pub(crate) fn before(line: &[u8], count: usize) -> &[u8] {
    &line[..count.min(line.len())]
}

//! Where bytes of lines of MIXAL stand in a text, as the protocol has it.

use crate::place::{Encoding, Place};
use mix_lines::split_line;
use mix_refused::Memory;
use mixal_asm::Mention;
use mixal_text::Span;
use serde_json::{Value, json};
use std::alloc::Global;

/// A text in which lines are looked for. Those that come in their order are found in one walk.
#[derive(Drop)]
pub(crate) struct Finder<'t> {
    alloc: Global,
    encoding: Encoding,
    text: &'t [u8],
    // How many lines are passed, how many lines of the protocol they are, and what follows them.
    passed: u32,
    line: u64,
    rest: &'t [u8],
}

impl<'t> Finder<'t> {
    pub(crate) fn of(alloc: Global, encoding: Encoding, text: &'t [u8]) -> Finder<'t> {
        Finder {
            alloc,
            encoding,
            text,
            passed: 0,
            line: 0,
            rest: text,
        }
    }

    /// What follows so many lines.
    fn rest_from(&mut self, line: u32) -> &'t [u8] {
        if line < self.passed {
            self.passed = 0;
            self.line = 0;
            self.rest = self.text;
        }
        for number in self.passed..line {
            if self.rest.is_empty() {
                break;
            }
            let (text, after) = split_line(self.rest);
            let returns = text.iter().filter(|byte| **byte == b'\r').count();
            self.line = self.line.saturating_add(returns as u64).saturating_add(1);
            self.rest = after;
            self.passed = number + 1;
        }
        self.rest
    }

    /// How many bytes stand before a line, counted from 0.
    pub(crate) fn start(&mut self, line: u32) -> usize {
        let rest = self.rest_from(line);
        self.text.len().saturating_sub(rest.len())
    }

    /// A line, counted from 0; one that there is not is empty.
    pub(crate) fn line(&mut self, line: u32) -> &'t [u8] {
        let rest = self.rest_from(line);
        if rest.is_empty() {
            rest
        } else {
            split_line(rest).0
        }
    }

    /// The place of a byte of a line; lines and bytes are counted from 0. A byte that there is not
    /// is behind its line, and one within a character behind that.
    pub(crate) fn place(&mut self, line: u32, byte: usize) -> Place {
        let text = self.line(line);
        let mut place = Place {
            line: self.line,
            character: 0,
        };
        for byte in &text[..byte.min(text.len())] {
            if *byte == b'\r' {
                place.line = place.line.saturating_add(1);
                place.character = 0;
            } else {
                let units = self.encoding.units(*byte);
                place.character = place.character.saturating_add(units);
            }
        }
        place
    }

    /// The range of some bytes of a line.
    pub(crate) fn range(&mut self, line: u32, at: Span) -> Result<Value, Memory> {
        let from = self.place(line, at.from);
        let to = self.place(line, at.to);
        let range = json!(in self.alloc; {
            "start": {"line": from.line, "character": from.character},
            "end": {"line": to.line, "character": to.character}
        })?;
        Ok(range)
    }

    /// The range of a mention.
    pub(crate) fn mentioned(&mut self, mention: &Mention) -> Result<Value, Memory> {
        self.range(mention.line.saturating_sub(1), mention.at)
    }

    /// A text in the place of some bytes of a line.
    pub(crate) fn edit(&mut self, line: u32, at: Span, new: &str) -> Result<Value, Memory> {
        let range = self.range(line, at)?;
        let edit = json!(in self.alloc; {"range": range, "newText": new})?;
        Ok(edit)
    }
}

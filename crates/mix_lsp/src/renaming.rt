//! A new name for all mentions of one.

use crate::look::Open;
use crate::names::{copied, is_name, mention_at};
use crate::place::Spot;
use mix_refused::{Memory, Refused};
use mixal_asm::{Mention, Name, assemble};
use mixal_text::{Direction, Local, Span, Symbol};
use serde_json::Value;
use std::alloc::Global;

impl<'t> Open<'t> {
    /// The edits that give the name at a place a new one; null where none stands there, and nothing
    /// where the new one is none, or is mentioned already.
    pub(crate) fn renamed(&self, at: Spot, new: Option<&str>) -> Result<Option<Value>, Memory> {
        let mentions = self.mentions()?;
        let Some(name) = mention_at(&mentions, at).map(|mention| copied(&mention.name)) else {
            return Ok(Some(Value::Null));
        };
        let Some(new) = new else {
            return Ok(None);
        };
        let Some(new) = self.new_text(&mentions, &name, new)? else {
            return Ok(None);
        };
        let mut finder = self.finder();
        let mut edits = Vec::new(self.alloc);
        let mut text = Vec::new(self.alloc);
        let mut behind = 0;
        for mention in &mentions {
            if is_name(&name, &mention.name) {
                let line = mention.line.saturating_sub(1);
                let at = name_span(mention);
                let start = finder.start(line);
                let from = start.saturating_add(at.from);
                text.extend_from_slice(self.text.get(behind..from).unwrap_or(&[]))?;
                text.extend_from_slice(new.as_bytes())?;
                behind = start.saturating_add(at.to);
                edits.push(finder.edit(line, at, new.as_str())?)?;
            }
        }
        text.extend_from_slice(self.text.get(behind..).unwrap_or(&[]))?;
        if keeps_words(self.alloc, self.text, text.as_slice())? {
            Ok(Some(self.workspace_edit(edits)?))
        } else {
            Ok(None)
        }
    }

    // What takes the place of a name, if it is a name of the same kind that is not mentioned yet.
    fn new_text(
        &self,
        mentions: &[Mention],
        name: &Name,
        new: &str,
    ) -> Result<Option<String>, Memory> {
        let taken = match name {
            Name::Symbol(_) => match Symbol::of(new.as_bytes()) {
                Some(symbol) => {
                    let new = Name::Symbol(symbol);
                    mentions.iter().any(|mention| is_name(&new, &mention.name))
                }
                None => true,
            },
            Name::Local(..) => match Local::of(new.as_bytes()) {
                Some(
                    Local {
                        digit,
                        direction: Direction::Here,
                    },
                ) => mentions.iter().any(
                    |mention| matches!(mention.name, Name::Local(other, _) if other == digit),
                ),
                _ => true,
            },
        };
        if taken {
            return Ok(None);
        }
        // Of dH only the digit.
        let text = match name {
            Name::Symbol(_) => String::from_str(self.alloc, new)?,
            Name::Local(..) => String::from_utf8_lossy(
                self.alloc,
                new.as_bytes().get(..1).unwrap_or(&[]),
            )?,
        };
        Ok(Some(text))
    }
}

// Of dH, dB and dF only the digit is changed.
fn name_span(mention: &Mention) -> Span {
    match mention.name {
        Name::Symbol(_) => mention.at,
        Name::Local(..) => Span {
            from: mention.at.from,
            to: mention.at.to.saturating_sub(1),
        },
    }
}

// Whether a renamed text assembles to the same words and the same start, if the text does.
fn keeps_words(alloc: Global, text: &[u8], renamed: &[u8]) -> Result<bool, Memory> {
    match assemble(alloc, text) {
        Err(Refused::Memory) => Err(Memory),
        Err(Refused::Fault(_)) => Ok(true),
        Ok(old) => match assemble(alloc, renamed) {
            Err(Refused::Memory) => Err(Memory),
            Err(Refused::Fault(_)) => Ok(false),
            Ok(new) => Ok(old.words() == new.words() && old.start() == new.start()),
        },
    }
}

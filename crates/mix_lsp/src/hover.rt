//! Hover text of a place.

use crate::look::Open;
use crate::mnemonic::described;
use crate::names::{definition_in, mention_at};
use crate::place::Spot;
use mix_lines::is_comment;
use mix_refused::{Memory, Refused};
use mix_word::{Number, Word};
use mixal_asm::{Mention, Name, assemble};
use mixal_text::{Part, line_op, part_span};
use serde_json::{Value, json};

impl<'t> Open<'t> {
    /// What an operation does, or what a name is worth and where it is defined; or null.
    pub(crate) fn hover(&self, at: Spot) -> Result<Value, Memory> {
        let line = self.line_at(at.line);
        let span = part_span(line, Part::Operation);
        let is_op = span.from as u64 <= at.byte && at.byte <= span.to as u64 && !is_comment(line);
        if is_op && let Ok(mnemonic) = line_op(line) {
            return self.shown_text(described(self.alloc, mnemonic)?);
        }
        let mentions = self.mentions()?;
        match mention_at(&mentions, at) {
            Some(mention) => self.shown_text(self.name_described(&mentions, &mention.name)?),
            None => Ok(Value::Null),
        }
    }

    /// A line, counted from 0; one that there is not is empty.
    pub(crate) fn line_at(&self, line: u64) -> &'t [u8] {
        match u32::try_from(line) {
            Ok(line) => self.finder().line(line),
            Err(_) => &[],
        }
    }

    fn shown_text(&self, text: String) -> Result<Value, Memory> {
        let hover = json!(in self.alloc; {"contents": {"kind": "plaintext", "value": text}})?;
        Ok(hover)
    }

    // What a name is worth, if that is known, and the first line that defines it.
    fn name_described(&self, mentions: &[Mention], name: &Name) -> Result<String, Memory> {
        let value = match self.value_of(name)? {
            Some(word) => {
                let number = Number(word);
                format!(in self.alloc; "{word} = {number}\n")?
            }
            None => String::new(self.alloc),
        };
        let text = match definition_in(mentions, name) {
            Some(mention) => {
                let number = mention.line;
                let bytes = self.line_at(u64::from(number.saturating_sub(1)));
                let line = String::from_utf8_lossy(self.alloc, bytes)?;
                format!(in self.alloc; "{value}line {number}: {line}")?
            }
            None => format!(in self.alloc; "{value}no line defines it")?,
        };
        Ok(text)
    }

    fn value_of(&self, name: &Name) -> Result<Option<Word>, Memory> {
        match name {
            Name::Symbol(symbol) => match assemble(self.alloc, self.text) {
                Ok(program) => Ok(program.symbol(symbol)),
                Err(Refused::Fault(_)) => Ok(None),
                Err(Refused::Memory) => Err(Memory),
            },
            Name::Local(..) => Ok(None),
        }
    }
}

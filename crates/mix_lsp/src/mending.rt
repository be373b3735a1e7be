//! What mends a line, by what is found in it.

use crate::names::{defines, definition_in, name_text};
use mix_check::{bytes_at, is_near, near_to};
use mix_lines::next_word;
use mixal_asm::{AsmKind, Finding, Mention, Name, Warning};
use mixal_text::{Part, Slip, Span, Survey, Symbol, TextFault, part_span};
use std::alloc::{AllocError, Global};

/// What mends a line: what it is called, the bytes of the line that are replaced, and what stands
/// there then.
#[derive(Drop)]
pub(crate) struct Mending {
    pub title: String,
    pub at: Span,
    pub text: String,
}

/// Some bytes of a line in which something is found, and the names of its text.
#[derive(Clone, Copy)]
pub(crate) struct Found<'t> {
    pub alloc: Global,
    pub mentions: &'t [Mention],
    pub line: &'t [u8],
    pub at: Span,
}

impl<'t> Found<'t> {
    /// What mends the line, by what is found there.
    pub(crate) fn mending(&self, finding: &Finding) -> Result<Option<Mending>, AllocError> {
        match finding {
            Finding::Fault(AsmKind::Text(misread) | AsmKind::Inserted { misread, .. }) => {
                match misread.fault {
                    TextFault::NoSuchOperation => self.of_operation(),
                    TextFault::UndefinedSymbol => match Symbol::of(bytes_at(self.line, self.at)) {
                        Some(symbol) => self.of_symbol(&symbol),
                        None => Ok(None),
                    },
                    _ => Ok(None),
                }
            }
            Finding::Warning(Warning::UndefinedSymbol(symbol)) => self.of_symbol(symbol),
            Finding::Warning(Warning::Slip(Slip::OperationAsLabel)) => Ok(Some(Mending {
                title: String::from_str(self.alloc, "Begin the line with a blank")?,
                at: Span { from: 0, to: 0 },
                text: String::from_str(self.alloc, " ")?,
            })),
            Finding::Warning(Warning::Slip(Slip::AlfCut)) => self.of_characters(),
            _ => Ok(None),
        }
    }

    // The first symbol that the text defines and that is near to one that it defines nowhere.
    fn of_symbol(&self, symbol: &Symbol) -> Result<Option<Mending>, AllocError> {
        let name = Name::Symbol(symbol.copied());
        if definition_in(self.mentions, &name).is_some() {
            return Ok(None);
        }
        let meant = self.mentions.iter().find(|mention| match &mention.name {
            Name::Symbol(other) => defines(mention) && is_near(symbol.name(), other.name()),
            Name::Local(..) => false,
        });
        match meant {
            Some(mention) => {
                let name = name_text(self.alloc, &mention.name)?;
                Ok(Some(self.instead(name.as_str())?))
            }
            None => Ok(None),
        }
    }

    // The only word behind ALF, between quotation marks.
    fn of_characters(&self) -> Result<Option<Mending>, AllocError> {
        let end = part_span(self.line, Part::Operation).to;
        let Some((word, more)) = next_word(&self.line[end..]) else {
            return Ok(None);
        };
        if next_word(more).is_some() || word.len() > 5 || word.contains(&b'"') {
            return Ok(None);
        }
        let word = String::from_utf8_lossy(self.alloc, word)?;
        Ok(Some(Mending {
            title: String::from_str(self.alloc, "Put the text between quotation marks")?,
            at: Span {
                from: end,
                to: self.line.len(),
            },
            text: format!(in self.alloc; "  \"{word}\"")?,
        }))
    }

    // An operation that is near to what stands in the place of OP, or else to LOC.
    fn of_operation(&self) -> Result<Option<Mending>, AllocError> {
        if let Some(name) = near_to(self.alloc, bytes_at(self.line, self.at))? {
            return Ok(Some(self.instead(name)?));
        }
        let at = part_span(self.line, Part::Label);
        if Survey::of(self.line).has(Slip::OperationAsLabel) {
            return Ok(None);
        }
        match near_to(self.alloc, bytes_at(self.line, at))? {
            Some(name) => Ok(Some(Mending {
                title: format!(in self.alloc; "Write {name} behind a blank")?,
                at,
                text: format!(in self.alloc; " {name}")?,
            })),
            None => Ok(None),
        }
    }

    fn instead(&self, name: &str) -> Result<Mending, AllocError> {
        Ok(Mending {
            title: format!(in self.alloc; "Write {name}")?,
            at: self.at,
            text: String::from_str(self.alloc, name)?,
        })
    }
}

//! Where a text mentions a name.

use crate::finder::Finder;
use crate::look::Open;
use crate::place::Spot;
use crate::tokens::literal_length;
use mix_check::bytes_at;
use mix_lines::is_comment;
use mix_refused::Memory;
use mixal_asm::{Mention, Name, Role, mentions_of};
use mixal_text::{Part, line_is_end, part_span};
use serde_json::{Value, json};
use std::alloc::{AllocError, Global};

impl<'t> Open<'t> {
    /// All mentions of names, each by the name that the assembler takes it for: a dB in a literal is
    /// the last dH before END, where the word of the literal is put.
    pub(crate) fn mentions(&self) -> Result<Vec<Mention>, Memory> {
        let mentions = mentions_of(self.alloc, self.text)?;
        let mut finder = self.finder();
        let last = last_locals(&mut finder, &mentions);
        let mut list = Vec::new(self.alloc);
        for mention in mentions {
            let Mention {
                name,
                role,
                line,
                at,
            } = mention;
            let name = match name {
                Name::Local(digit, number) => {
                    let text = finder.line(line.saturating_sub(1));
                    let is_last = matches!(bytes_at(text, at), [_, b'B' | b'b'])
                        && at.from < literal_end(text);
                    match last.get(usize::from(digit)) {
                        Some(last) if is_last => Name::Local(digit, *last),
                        _ => Name::Local(digit, number),
                    }
                }
                Name::Symbol(symbol) => Name::Symbol(symbol),
            };
            list.push(Mention {
                name,
                role,
                line,
                at,
            })?;
        }
        Ok(list)
    }

    // The mentions of the name at a place.
    pub(crate) fn alike(&self, at: Spot) -> Result<Vec<Mention>, Memory> {
        let mut mentions = self.mentions()?;
        match mention_at(&mentions, at).map(|mention| copied(&mention.name)) {
            Some(name) => mentions.retain(|mention| is_name(&name, &mention.name)),
            None => mentions.clear(),
        }
        Ok(mentions)
    }

    pub(crate) fn definitions(&self, at: Spot) -> Result<Value, Memory> {
        let mut mentions = self.alike(at)?;
        mentions.retain(|mention| defines(mention));
        self.locations(&mentions)
    }

    pub(crate) fn references(&self, at: Spot, with_definitions: bool) -> Result<Value, Memory> {
        let mut mentions = self.alike(at)?;
        mentions.retain(|mention| with_definitions || !defines(mention));
        self.locations(&mentions)
    }

    fn locations(&self, mentions: &[Mention]) -> Result<Value, Memory> {
        let mut finder = self.finder();
        let mut list = Vec::new(self.alloc);
        for mention in mentions {
            list.push(self.location(&mut finder, mention)?)?;
        }
        Ok(Value::Array(list))
    }

    fn location(&self, finder: &mut Finder<'_>, mention: &Mention) -> Result<Value, Memory> {
        let range = finder.mentioned(mention)?;
        let location = json!(in self.alloc; {"uri": self.uri, "range": range})?;
        Ok(location)
    }

    pub(crate) fn highlights(&self, at: Spot) -> Result<Value, Memory> {
        let mut finder = self.finder();
        let mut list = Vec::new(self.alloc);
        for mention in &self.alike(at)? {
            let range = finder.mentioned(mention)?;
            let kind: u64 = if defines(mention) { 3 } else { 2 };
            list.push(json!(in self.alloc; {"range": range, "kind": kind})?)?;
        }
        Ok(Value::Array(list))
    }

    /// The names that it defines.
    pub(crate) fn symbols(&self) -> Result<Value, Memory> {
        let mut finder = self.finder();
        let mut list = Vec::new(self.alloc);
        for mention in &self.mentions()? {
            if defines(mention) {
                let name = name_text(self.alloc, &mention.name)?;
                let location = self.location(&mut finder, mention)?;
                let symbol = json!(in self.alloc; {
                    "name": name,
                    "kind": 13u64,
                    "location": location
                })?;
                list.push(symbol)?;
            }
        }
        Ok(Value::Array(list))
    }

    pub(crate) fn range_or_null(&self, at: Spot) -> Result<Value, Memory> {
        match mention_at(&self.mentions()?, at) {
            Some(mention) => self.finder().mentioned(mention),
            None => Ok(Value::Null),
        }
    }
}

// The numbers of the last dH before END, by their digits.
fn last_locals(finder: &mut Finder<'_>, mentions: &[Mention]) -> [u32; 10] {
    let mut last = [0; 10];
    for mention in mentions {
        if let (Role::Definition, Name::Local(digit, number)) = (mention.role, &mention.name) {
            let line = finder.line(mention.line.saturating_sub(1));
            if *digit < 10 && (is_comment(line) || !line_is_end(line)) {
                last[usize::from(*digit)] = *number;
            }
        }
    }
    last
}

// Where the literal ends with which ADDRESS begins.
fn literal_end(line: &[u8]) -> usize {
    let at = part_span(line, Part::Address);
    at.from
        .saturating_add(literal_length(&line[at.from..at.to]))
}

pub(crate) fn mention_at(mentions: &[Mention], at: Spot) -> Option<&Mention> {
    mentions.iter().find(|mention| {
        u64::from(mention.line.saturating_sub(1)) == at.line
            && mention.at.from as u64 <= at.byte
            && at.byte <= mention.at.to as u64
    })
}

/// The first definition of a name.
pub(crate) fn definition_in<'m>(mentions: &'m [Mention], name: &Name) -> Option<&'m Mention> {
    mentions
        .iter()
        .find(|mention| defines(mention) && is_name(name, &mention.name))
}

pub(crate) fn defines(mention: &Mention) -> bool {
    matches!(mention.role, Role::Definition)
}

pub(crate) fn is_name(name: &Name, other: &Name) -> bool {
    match (name, other) {
        (Name::Symbol(a), Name::Symbol(b)) => a.name() == b.name(),
        (Name::Local(d, n), Name::Local(e, m)) => d == e && n == m,
        _ => false,
    }
}

pub(crate) fn copied(name: &Name) -> Name {
    match name {
        Name::Symbol(symbol) => Name::Symbol(symbol.copied()),
        Name::Local(digit, number) => Name::Local(*digit, *number),
    }
}

/// The name, a local symbol as the dH that defines it.
pub(crate) fn name_text(alloc: Global, name: &Name) -> Result<String, AllocError> {
    match name {
        Name::Symbol(symbol) => String::from_utf8_lossy(alloc, symbol.name()),
        Name::Local(digit, _) => format!(in alloc; "{digit}H"),
    }
}

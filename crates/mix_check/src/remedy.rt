//! What mends a line at fault, or one that is hardly meant (1.3.2).

use crate::checked::{Checked, before, bytes_at};
use crate::dialect::comment_mark;
use crate::foreign::replacement;
use crate::near::near_to;
use mix_lines::{is_blank, number};
use mix_refused::Memory;
use mixal_asm::{AsmKind, Diagnostic, Finding, Warning};
use mixal_text::{
    Label, Mnemonic, Part, Slip, Span, Survey, Symbol, TextFault, line_loc, line_op, part_span,
};
use std::alloc::{AllocError, Global};

/// What mends a diagnostic: what is said of it beside the text, and what is written.
#[derive(Drop)]
pub struct Remedy {
    pub help: Option<String>,
    pub fix: Option<Fix>,
}

/// New text in the place of some bytes of a line, and what that is called. Lines are counted from 1.
#[derive(Drop)]
pub struct Fix {
    pub title: String,
    pub line: u32,
    pub at: Span,
    pub text: String,
}

// Where a remedy is looked for: the bytes of a line that a diagnostic is about.
#[derive(Clone, Copy)]
struct Found<'s> {
    alloc: Global,
    number: u32,
    line: &'s [u8],
    at: Span,
}

impl<'s> Checked<'s> {
    /// What mends a diagnostic, if that is known (1.3.2). Only out of memory refuses it.
    pub fn mending(
        &mut self,
        alloc: Global,
        diagnostic: &Diagnostic,
    ) -> Result<Option<Remedy>, Memory> {
        if let Finding::Fault(AsmKind::NoEnd) = &diagnostic.finding {
            return Ok(self.end(alloc, diagnostic.line)?);
        }
        let Some((line, at)) = self.shown(diagnostic) else {
            return Ok(None);
        };
        let found = Found {
            alloc,
            number: diagnostic.line,
            line,
            at,
        };
        let remedy = match &diagnostic.finding {
            Finding::Fault(AsmKind::Text(misread) | AsmKind::Inserted { misread, .. }) => {
                match misread.fault {
                    TextFault::BadByte => found.byte()?,
                    TextFault::NoSuchOperation => found.operation()?,
                    TextFault::BadSymbol => found.label()?,
                    TextFault::UndefinedSymbol => match Symbol::of(found.piece()) {
                        Some(symbol) => self.symbol_meant(found, &symbol)?,
                        None => None,
                    },
                    TextFault::BadExpression => found.expression()?,
                    TextFault::BadAlf => found.characters()?,
                    _ => None,
                }
            }
            Finding::Fault(_) => None,
            Finding::Warning(Warning::UndefinedSymbol(symbol)) => {
                self.symbol_meant(found, symbol)?
            }
            Finding::Warning(Warning::Slip(slip)) => found.slip(*slip)?,
            Finding::Warning(Warning::BehindEnd) => None,
        };
        Ok(remedy)
    }

    // The first symbol that the source defines and that is near to one that it defines nowhere.
    fn symbol_meant(
        &self,
        found: Found<'_>,
        symbol: &Symbol,
    ) -> Result<Option<Remedy>, AllocError> {
        if self.line_of_symbol(symbol).is_some() {
            return Ok(None);
        }
        match self.near_symbol(symbol) {
            Some(name) => {
                let name = String::from_utf8_lossy(found.alloc, name)?;
                found.meant(name.as_str())
            }
            None => Ok(None),
        }
    }

    // An END behind the last line: at the label of the first instruction, or at 0 where no ORIG stands before that.
    fn end(&self, alloc: Global, number: u32) -> Result<Option<Remedy>, AllocError> {
        let mut start = Some(String::from_str(alloc, "0")?);
        for line in self.text().split(|byte| *byte == b'\n') {
            match (line_op(line), line_loc(line)) {
                _ if line.starts_with(b"*") => {}
                (Ok(Mnemonic::Orig), _) => start = None,
                (Ok(Mnemonic::Machine(_)), loc) => {
                    if let Ok(Some(Label::Name(symbol))) = loc {
                        start = Some(String::from_utf8_lossy(alloc, symbol.name())?);
                    }
                    break;
                }
                _ => {}
            }
        }
        let Some(start) = start else {
            return Ok(None);
        };
        let (line, from, front) = match self.text().rsplit(|byte| *byte == b'\n').next() {
            Some(last) if !last.is_empty() => (number.saturating_sub(1), last.len(), "\n"),
            _ => (number, 0, ""),
        };
        let fix = Fix {
            title: format!(in alloc; "Write END  {start}")?,
            line,
            at: Span { from, to: from },
            text: format!(in alloc; "{front}        END  {start}\n")?,
        };
        Ok(Some(Remedy {
            help: None,
            fix: Some(fix),
        }))
    }
}

impl<'s> Found<'s> {
    fn piece(&self) -> &'s [u8] {
        bytes_at(self.line, self.at)
    }

    // A text in the place of some bytes, of which the text of the diagnostic says all.
    fn write(
        &self,
        title: &str,
        from: usize,
        to: usize,
        text: &str,
    ) -> Result<Option<Remedy>, AllocError> {
        let fix = Fix {
            title: String::from_str(self.alloc, title)?,
            line: self.number,
            at: Span { from, to },
            text: String::from_str(self.alloc, text)?,
        };
        Ok(Some(Remedy {
            help: None,
            fix: Some(fix),
        }))
    }

    // The same with a sentence of its own.
    fn advise(&self, help: String, fix: Option<Remedy>) -> Option<Remedy> {
        Some(Remedy {
            help: Some(help),
            fix: fix.and_then(|remedy| remedy.fix),
        })
    }

    // Another name for the bytes that the diagnostic is about.
    fn meant(&self, name: &str) -> Result<Option<Remedy>, AllocError> {
        let title = format!(in self.alloc; "Write {name}")?;
        let fix = self.write(title.as_str(), self.at.from, self.at.to, name)?;
        Ok(self.advise(format!(in self.alloc; "perhaps {name} is meant")?, fix))
    }

    fn byte(&self) -> Result<Option<Remedy>, AllocError> {
        match replacement(self.piece()) {
            Some("") => self.write("Leave it out", self.at.from, self.at.to, ""),
            Some(" ") => self.write("Write a blank", self.at.from, self.at.to, " "),
            Some(text) => {
                let title = format!(in self.alloc; "Write {text}")?;
                self.write(title.as_str(), self.at.from, self.at.to, text)
            }
            None => Ok(None),
        }
    }

    // A comment of another language, an operation whose name is near, a label that is not in column 1, or a LOC that is near to an
    // operation.
    fn operation(&self) -> Result<Option<Remedy>, AllocError> {
        let loc = part_span(self.line, Part::Label);
        let label = bytes_at(self.line, loc);
        let mark = comment_mark(self.piece());
        if mark > 0 {
            let to = self.at.from.saturating_add(mark);
            return if label.is_empty() {
                self.write("Write * in column 1", 0, to, "*")
            } else {
                Ok(None)
            };
        }
        if let Some(name) = near_to(self.alloc, self.piece())? {
            return self.meant(name);
        }
        let moved = &self.line[self.at.from.min(self.line.len())..];
        if label.is_empty() && line_loc(moved).is_ok() && line_op(moved).is_ok() {
            let help = String::from_str(self.alloc, "a label begins in column 1")?;
            let fix = self.write("Begin the label in column 1", 0, self.at.from, "")?;
            return Ok(self.advise(help, fix));
        }
        if Survey::of(self.line).has(Slip::OperationAsLabel) {
            return Ok(None);
        }
        match near_to(self.alloc, label)? {
            Some(name) => {
                let label = String::from_utf8_lossy(self.alloc, label)?;
                let help = format!(in self.alloc;
                    "{label} is read as a label: perhaps {name} behind a blank is meant"
                )?;
                let title = format!(in self.alloc; "Write {name} behind a blank")?;
                let text = format!(in self.alloc; " {name}")?;
                let fix = self.write(title.as_str(), loc.from, loc.to, text.as_str())?;
                Ok(self.advise(help, fix))
            }
            None => Ok(None),
        }
    }

    // A comment of another language, or a colon behind a label.
    fn label(&self) -> Result<Option<Remedy>, AllocError> {
        let mark = comment_mark(self.piece());
        match self.piece() {
            _ if mark > 0 => {
                let to = self.at.from.saturating_add(mark);
                self.write("Write * in column 1", self.at.from, to, "*")
            }
            [label @ .., b':'] if matches!(line_loc(label), Ok(Some(_))) => {
                self.write(
                    "Leave out the colon",
                    self.at.to.saturating_sub(1),
                    self.at.to,
                    "",
                )
            }
            _ => Ok(None),
        }
    }

    // The sign that ends a literal or a field, or a blank behind a comma.
    fn expression(&self) -> Result<Option<Remedy>, AllocError> {
        let address = part_span(self.line, Part::Address);
        let text = bytes_at(self.line, address);
        let front = before(self.line, self.at.from);
        let signs = text.iter().filter(|byte| **byte == b'=').count();
        if text.starts_with(b"=") && signs == 1 {
            return self.write("Write =", address.to, address.to, "=");
        }
        if !self.piece().is_empty() {
            return Ok(None);
        }
        let after = &self.line[address.to.min(self.line.len())..];
        let blanks = after.iter().take_while(|byte| is_blank(**byte)).count();
        if front.ends_with(b",") && blanks < after.len() {
            let text = "a blank ends the address: none may come after a comma";
            let help = String::from_str(self.alloc, text)?;
            let to = address.to.saturating_add(blanks);
            let fix = self.write("Leave out the blank", address.to, to, "")?;
            return Ok(self.advise(help, fix));
        }
        let opened = text.contains(&b'(') && !text.contains(&b')');
        if opened
            && front
                .last()
                .is_some_and(|byte| byte.is_ascii_alphanumeric() || *byte == b'*')
        {
            return self.write("Write )", self.at.from, self.at.from, ")");
        }
        Ok(None)
    }

    // The quotation mark that ends the characters of an ALF, or an ALF for each five of them.
    fn characters(&self) -> Result<Option<Remedy>, AllocError> {
        let op = part_span(self.line, Part::Operation);
        let rest = &self.line[self.at.to.min(self.line.len())..];
        let is_whole = self.piece().is_ascii();
        if !rest.starts_with(b"\"") {
            return if is_whole && self.piece().len() <= 5 && rest.is_empty() {
                self.write("Write \"", self.at.to, self.at.to, "\"")
            } else {
                Ok(None)
            };
        }
        if !is_whole {
            return Ok(None);
        }
        // As many lines as it takes, with OP and ADDRESS where they were.
        let mut text = String::new(self.alloc);
        for (index, five) in self.piece().chunks(5).enumerate() {
            if index > 0 {
                text.push_str("\"\n")?;
                for _ in 0..op.from {
                    text.push(' ')?;
                }
                text.push_str("ALF")?;
                for _ in op.to..self.at.from.saturating_sub(1) {
                    text.push(' ')?;
                }
                text.push('"')?;
            }
            text.push_str(padded(self.alloc, five)?.as_str())?;
        }
        self.write(
            "Write an ALF for each five characters",
            self.at.from,
            self.at.to,
            text.as_str(),
        )
    }

    fn slip(&self, slip: Slip) -> Result<Option<Remedy>, AllocError> {
        match slip {
            Slip::OperationAsLabel => self.write("Begin the line with a blank", 0, 0, " "),
            Slip::AlfCut => self.quoted(),
            Slip::AlfShort if self.piece().is_ascii() => {
                let text = padded(self.alloc, self.piece())?;
                self.write("Write the blanks", self.at.from, self.at.to, text.as_str())
            }
            Slip::BlankInAddress => {
                let to = self.at.to.saturating_add(1);
                self.write("Leave out the blank", self.at.to, to, "")
            }
            Slip::WrongUnit => match number(self.piece()) {
                Some(unit) => {
                    let name = unit_name(unit);
                    let help = format!(in self.alloc; "unit {unit} is {name}")?;
                    Ok(self.advise(help, None))
                }
                None => Ok(None),
            },
            _ => Ok(None),
        }
    }

    // The only word behind ALF, between quotation marks.
    fn quoted(&self) -> Result<Option<Remedy>, AllocError> {
        let end = part_span(self.line, Part::Operation)
            .to
            .min(self.line.len());
        let word = self.line[end..].trim_ascii();
        let is_word = !word.iter().any(|byte| is_blank(*byte) || *byte == b'"');
        if !is_word || word.len() > 5 {
            return Ok(None);
        }
        let word = String::from_utf8_lossy(self.alloc, word)?;
        let text = format!(in self.alloc; "  \"{word}\"")?;
        self.write(
            "Put the text between quotation marks",
            end,
            self.line.len(),
            text.as_str(),
        )
    }
}

// Up to five characters, with blanks behind them.
fn padded(alloc: Global, characters: &[u8]) -> Result<String, AllocError> {
    let mut text = String::from_utf8_lossy(alloc, characters)?;
    for _ in characters.len()..5 {
        text.push(' ')?;
    }
    Ok(text)
}

/// What a unit is, by its number (1.3.1). It takes no memory.
pub fn unit_name(unit: u64) -> &'static str {
    match unit {
        0..=7 => "a tape",
        8..=15 => "a disk",
        16 => "the card reader",
        17 => "the card punch",
        18 => "the printer",
        19 => "the typewriter",
        20 => "the paper tape",
        _ => "none",
    }
}

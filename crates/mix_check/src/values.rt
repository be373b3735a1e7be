//! What a diagnostic is, as values: its columns, its severity, its number or name, and its text.

use crate::checked::{Checked, before, piece_of};
use crate::help::help_of;
use crate::mark::column_after;
use mix_refused::Memory;
use mixal_asm::{AsmKind, Diagnostic, Finding};
use mixal_text::{Span, Symbol, TextFault};
use std::alloc::{AllocError, Global};

impl<'s> Checked<'s> {
    /// The column of the first byte that a diagnostic is about, and that of what follows the last one, counted in characters from 1;
    /// none where it is about no part of a line, as A13.
    pub fn columns(&mut self, diagnostic: &Diagnostic) -> Option<(u64, u64)> {
        columns_of(self.shown(diagnostic))
    }

    /// The text of a diagnostic, with what helps to mend it, as characters.
    pub fn meaning(&mut self, alloc: Global, diagnostic: &Diagnostic) -> Result<String, Memory> {
        let place = self.shown(diagnostic);
        let help = help_of(alloc, self, diagnostic, place)?;
        Ok(meaning_with(alloc, &diagnostic.finding, help.as_slice())?)
    }

    /// What may be meant, where its text does not say so, as characters.
    pub fn remedy(
        &mut self,
        alloc: Global,
        diagnostic: &Diagnostic,
    ) -> Result<Option<String>, Memory> {
        Ok(
            self.mending(alloc, diagnostic)?
                .and_then(|remedy| remedy.help),
        )
    }

    /// The line that defines the symbol which a fault is about, where that is another line.
    pub fn related(&mut self, diagnostic: &Diagnostic) -> Option<u32> {
        let Finding::Fault(kind) = &diagnostic.finding else {
            return None;
        };
        let is_about_symbol = match *kind {
            AsmKind::DefinedTwice => true,
            AsmKind::Text(misread) => matches!(misread.fault, TextFault::UndefinedSymbol),
            _ => false,
        };
        let symbol = Symbol::of(piece_of(self.shown(diagnostic)))?;
        let line = self.line_of_symbol(&symbol)?;
        (is_about_symbol && line != diagnostic.line).then_some(line)
    }
}

/// The columns of what is shown of a line.
pub(crate) fn columns_of(place: Option<(&[u8], Span)>) -> Option<(u64, u64)> {
    match place {
        Some((line, span)) => Some((
            column_after(before(line, span.from)),
            column_after(before(line, span.to)),
        )),
        None => None,
    }
}

/// `error` for a fault, `warning` for a warning.
pub fn severity(finding: &Finding) -> &'static str {
    match finding {
        Finding::Fault(_) => "error",
        Finding::Warning(_) => "warning",
    }
}

/// The number of a fault with its letter, as `A7`, or the name of a warning, as `undefined-symbol`.
pub fn code(alloc: Global, finding: &Finding) -> Result<String, AllocError> {
    match finding {
        Finding::Fault(kind) => format!(in alloc; "A{}", kind.number()),
        Finding::Warning(warning) => String::from_str(alloc, warning.name()),
    }
}

/// The text of a finding with what helps to mend it, as characters.
pub(crate) fn meaning_with(
    alloc: Global,
    finding: &Finding,
    help: &[u8],
) -> Result<String, AllocError> {
    match finding {
        Finding::Fault(kind) => joined(alloc, kind.text().as_bytes(), help),
        Finding::Warning(warning) => joined(alloc, warning.subject(), warning.text().as_bytes()),
    }
}

// Two parts of a text as characters.
fn joined(alloc: Global, first: &[u8], second: &[u8]) -> Result<String, AllocError> {
    let mut bytes = Vec::new(alloc);
    bytes.extend_from_slice(first)?;
    bytes.extend_from_slice(second)?;
    String::from_utf8_lossy(alloc, bytes.as_slice())
}

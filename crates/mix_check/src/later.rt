//! What is said of a symbol that a line cannot use yet, or cannot define once more: where it is defined.

use crate::checked::Checked;
use mixal_text::{Local, Symbol};
use std::alloc::{AllocError, Global};

/// What holds of each symbol that no line before defines.
pub(crate) fn late_rule() -> &'static str {
    ": a symbol that no line before defines can only be the whole A-part of an instruction"
}

/// What is said at a line of a word that no line before defines.
pub(crate) fn late_help(
    alloc: Global,
    source: &Checked<'_>,
    line: u32,
    word: &[u8],
) -> Result<Vec<u8>, AllocError> {
    let mut help = Vec::new(alloc);
    if let Some(symbol) = Symbol::of(word) {
        match source.line_of_symbol(&symbol) {
            None => {
                help.extend_from_slice(b": ")?;
                help.extend_from_slice(symbol.name())?;
                help.extend_from_slice(b" is defined nowhere")?;
                return Ok(help);
            }
            Some(first) if line < first => {
                help.extend_from_slice(b": ")?;
                help.extend_from_slice(symbol.name())?;
                let later = format!(in alloc;
                    " is defined later, at line {first}; before that it can only be the whole A-part of an instruction"
                )?;
                help.extend_from_slice(later.as_bytes())?;
                return Ok(help);
            }
            Some(first) if line == first => {
                help.extend_from_slice(b": ")?;
                help.extend_from_slice(symbol.name())?;
                help.extend_from_slice(b" is defined by this line, and has no value before it")?;
                return Ok(help);
            }
            Some(_) => {}
        }
    } else if let Some(Local { digit, .. }) = Local::of(word) {
        let local = format!(in alloc; ": {digit}F can only be the whole A-part of an instruction")?;
        return Vec::from_slice(alloc, local.as_bytes());
    }
    help.extend_from_slice(late_rule().as_bytes())?;
    Ok(help)
}

/// What is said of a LOC that a line before defines.
pub(crate) fn twice_help(
    alloc: Global,
    source: &Checked<'_>,
    loc: &[u8],
) -> Result<Vec<u8>, AllocError> {
    let mut help = Vec::new(alloc);
    if let Some(symbol) = Symbol::of(loc) {
        help.extend_from_slice(b": ")?;
        help.extend_from_slice(symbol.name())?;
        if let Some(line) = source.line_of_symbol(&symbol) {
            let text = format!(in alloc; " is defined at line {line}")?;
            help.extend_from_slice(text.as_bytes())?;
        }
    }
    Ok(help)
}

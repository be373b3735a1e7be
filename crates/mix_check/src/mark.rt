//! How a line of a source is shown: the column of a byte, the line without control bytes, and a mark under some of its bytes.

use crate::checked::{before, bytes_at};
use mix_shown::add_shown;
use mixal_text::Span;
use std::alloc::AllocError;

/// The column of what follows some bytes of a line, counted in characters from 1.
pub(crate) fn column_after(bytes: &[u8]) -> u64 {
    (bytes.iter().filter(|byte| is_new(**byte)).count() as u64).saturating_add(1)
}

// No byte that continues a character of several bytes in UTF-8.
fn is_new(byte: u8) -> bool {
    byte < 128 || byte >= 192
}

/// Appends a line, and below it a mark under some of its bytes. Control characters are shown as question marks.
pub(crate) fn add_marked(text: &mut Vec<u8>, line: &[u8], span: Span) -> Result<(), AllocError> {
    add_shown(text, line)?;
    text.push(b'\n')?;
    for byte in before(line, span.from) {
        if is_new(*byte) {
            text.push(if *byte == b'\t' { b'\t' } else { b' ' })?;
        }
    }
    text.push(b'^')?;
    let marked = bytes_at(line, span);
    for byte in &marked[marked.len().min(1)..] {
        if is_new(*byte) {
            text.push(b'^')?;
        }
    }
    text.push(b'\n')?;
    Ok(())
}

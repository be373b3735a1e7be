//! What is missing where an expression goes on, or has to be closed (1.3.2).

use mixal_text::{Part, part_span};

/// What is missing, by what stands before its place in the line.
pub(crate) fn missing_text(front: &[u8]) -> &'static str {
    let from = part_span(front, Part::Address).from.min(front.len());
    if is_due(&front[from..]) {
        ": a number, a symbol or * is missing"
    } else {
        ": a closing bracket is missing"
    }
}

// Whether an atom is due after some bytes of an ADDRESS.
fn is_due(bytes: &[u8]) -> bool {
    let mut due = true;
    for byte in bytes {
        due = if byte.is_ascii_alphabetic() || byte.is_ascii_digit() {
            false
        } else {
            *byte != b'*' || !due
        };
    }
    due
}

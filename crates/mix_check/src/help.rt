//! What is said after the text of a fault: what it is about, and what is allowed.

use crate::checked::{Checked, front_of, piece_of};
use crate::dialect::{operation_note, remark_note, symbol_note};
use crate::foreign::{foreign_text, unseen_text};
use crate::later::{late_help, late_rule, twice_help};
use crate::missing::missing_text;
use mix_shown::add_shown;
use mixal_asm::{AsmKind, Diagnostic, Finding};
use mixal_text::{Span, TextFault};
use std::alloc::{AllocError, Global};

/// What is said after the text of a fault of a source, by what is shown of its line. A warning says all by itself.
pub(crate) fn help_of(
    alloc: Global,
    source: &Checked<'_>,
    diagnostic: &Diagnostic,
    place: Option<(&[u8], Span)>,
) -> Result<Vec<u8>, AllocError> {
    let piece = piece_of(place);
    let Finding::Fault(kind) = &diagnostic.finding else {
        return Ok(Vec::new(alloc));
    };
    match *kind {
        AsmKind::Text(misread) | AsmKind::Inserted { misread, .. } => match misread.fault {
            TextFault::UndefinedSymbol => {
                let mut help = late_help(alloc, source, diagnostic.line, piece)?;
                help.extend_from_slice(remark_note(front_of(place)).as_bytes())?;
                Ok(help)
            }
            TextFault::BadExpression => expression_help(alloc, front_of(place), piece),
            TextFault::BadByte => byte_help(alloc, piece),
            fault => text_help(alloc, fault, piece),
        },
        AsmKind::DefinedTwice => twice_help(alloc, source, piece),
        AsmKind::AddressTooLarge => Vec::from_slice(alloc, b": it is -4095 to 4095"),
        AsmKind::NoEnd => Vec::from_slice(alloc, b": the last line of a program is END"),
        AsmKind::SourceTooLong => {
            Vec::from_slice(alloc, b": at most 20000 lines and 1048576 bytes")
        }
        AsmKind::LocationOutOfRange | AsmKind::StartOutOfRange => Ok(Vec::new(alloc)),
    }
}

// Of no expression how a remark begins, if it may be one, and else what is left over or missing.
fn expression_help(alloc: Global, front: &[u8], piece: &[u8]) -> Result<Vec<u8>, AllocError> {
    let note = remark_note(front);
    if !note.is_empty() {
        Vec::from_slice(alloc, note.as_bytes())
    } else if piece.is_empty() {
        Vec::from_slice(alloc, missing_text(front).as_bytes())
    } else {
        let mut help = Vec::new(alloc);
        add_piece(&mut help, piece)?;
        Ok(help)
    }
}

// Of a byte that is no character of MIX what it is, or else the byte.
fn byte_help(alloc: Global, piece: &[u8]) -> Result<Vec<u8>, AllocError> {
    let known = foreign_text(piece);
    if !known.is_empty() {
        return Vec::from_slice(alloc, known.as_bytes());
    }
    let unseen = unseen_text(alloc, piece)?;
    let mut help = Vec::from_slice(alloc, unseen.as_bytes())?;
    if help.is_empty() {
        add_piece(&mut help, piece)?;
    }
    Ok(help)
}

fn text_help(alloc: Global, fault: TextFault, piece: &[u8]) -> Result<Vec<u8>, AllocError> {
    let mut help = Vec::new(alloc);
    let note = match fault {
        TextFault::NoSuchOperation => operation_note(piece),
        TextFault::BadSymbol => symbol_note(piece),
        _ => "",
    };
    match fault {
        TextFault::NoSuchOperation
        | TextFault::BadSymbol
        | TextFault::NumberTooLarge
        | TextFault::NoSuchLocalSymbol => add_piece(&mut help, piece)?,
        _ => {}
    }
    let rule = if note.is_empty() {
        text_rule(fault)
    } else {
        note
    };
    help.extend_from_slice(rule.as_bytes())?;
    Ok(help)
}

// Appends the bytes that are marked, without control characters.
fn add_piece(help: &mut Vec<u8>, piece: &[u8]) -> Result<(), AllocError> {
    if piece.is_empty() {
        return help.extend_from_slice(b": nothing is written here");
    }
    help.extend_from_slice(b": ")?;
    add_shown(help, piece)
}

// What is allowed where a fault is, if its text does not say so.
fn text_rule(fault: TextFault) -> &'static str {
    match fault {
        TextFault::BadSymbol => {
            ": a symbol has at most 10 letters and digits, one of them a letter"
        }
        TextFault::NumberTooLarge => ": a number has at most 10 digits, and is at most 1073741823",
        TextFault::ExpressionOverflow => ": a value is at most 1073741823, and no divisor is 0",
        TextFault::PartOutOfRange => {
            ": an index is 0 to 6, an F 0 to 63, and a field L:R has L at most R, and R at most 5"
        }
        TextFault::BadAlf => ": at most five characters, between two quotation marks",
        TextFault::NoSuchLocalSymbol => {
            ": for a dB the LOC of a line before is dH, and for a dF that of a line after it"
        }
        TextFault::UndefinedSymbol => late_rule(),
        TextFault::BadByte | TextFault::NoSuchOperation | TextFault::BadExpression => "",
    }
}

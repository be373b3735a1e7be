//! A line in columns.
ghost use Rattle.std.specs.Prelude.{◌≤◌, length};

use mix_lines::is_blank;
use mixal_text::{Line, Op, Part, Slip, Survey, part_span, read_line};
use std::alloc::{AllocError, Global};

// Columns, counted from 0: OP is behind a blank at least, and ADDRESS five columns behind OP.
const OP_COLUMN: usize = 8;

const OP_LENGTH: usize = 5;

const REMARK_COLUMN: usize = 26;

/// A line without its line end, in columns. A remark and a line at fault stay as they are, and so does one of which a part
/// may be meant to go on behind a blank, or that has a line end within it.
pub(crate) fn laid(alloc: Global, text: &[u8]) -> Result<Vec<u8>, AllocError> {
    if let Ok(Line::Code { op, address, .. }) = read_line(text) {
        let line = placed(alloc, op, address, text)?;
        let has_line_end = text.iter().any(|byte| *byte == b'\n' || *byte == b'\r');
        if !has_line_end && !reads_on(text) && !reads_on(line.as_slice()) {
            return Ok(line);
        }
    }
    Vec::from_slice(alloc, text)
}

// Whether the remark reads as if it belonged to ADDRESS, as one reads that counts blanks.
fn reads_on(text: &[u8]) -> bool {
    Survey::of(text).has(Slip::BlankInAddress)
}

fn placed(alloc: Global, op: Op, address: &[u8], text: &[u8]) -> Result<Vec<u8>, AllocError> {
    let loc = part_span(text, Part::Label);
    let name = part_span(text, Part::Operation);
    let loc = &text[loc.from..loc.to];
    let after_op = &text[name.to..];
    let column = (loc.len() + 1).max(OP_COLUMN);
    let mut line = Vec::from_slice(alloc, loc)?;
    add_part(&mut line, column, &text[name.from..name.to])?;
    let body = after_blanks(after_op);
    match operand_length(op, address, body) {
        // The places of the characters of ALF without quotation marks count.
        None => line.extend_from_slice(after_op)?,
        Some(length) => {
            let (operand, rest) = body.split_at(length.min(body.len()));
            add_part(&mut line, column.saturating_add(OP_LENGTH), operand)?;
            add_part(&mut line, REMARK_COLUMN, before_blanks(after_blanks(rest)))?;
        }
    }
    Ok(line)
}

// How many bytes behind OP are its operand: a quotation, or ADDRESS.
fn operand_length(op: Op, address: &[u8], body: &[u8]) -> Option<usize> {
    match (op, body) {
        (Op::Alf(_), [b'"', rest @ ..]) => {
            let end = rest.iter().position(|byte| *byte == b'"')?;
            Some(end.saturating_add(2))
        }
        (Op::Alf(_), _) => None,
        _ => Some(address.len()),
    }
}

// A part at a column, or one blank behind what stands before it. A part that is left out adds nothing.
fn add_part(line: &mut Vec<u8>, column: usize, part: &[u8]) -> Result<(), AllocError> {
    if part.is_empty() {
        return Ok(());
    }
    for _ in 0..column.saturating_sub(line.len()).max(1) {
        line.push(b' ')?;
    }
    line.extend_from_slice(part)
}

/// What follows the blanks with which a text begins. It takes no memory.
pub fn after_blanks(text: &[u8]) -> &[u8]
    ensures { length result.now ≤ length text.now }
{
    match text.iter().position(|byte| !is_blank(*byte)) {
        Some(start) => &text[start..],
        None => &[],
    }
}

fn before_blanks(text: &[u8]) -> &[u8] {
    match text.iter().rposition(|byte| !is_blank(*byte)) {
        Some(last) => &text[..last + 1],
        None => &[],
    }
}

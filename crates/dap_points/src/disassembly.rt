//! The memory as instructions.

use dap_asked::{
    CELL_BYTES, Fault, Name, byte_reference, integer_asked, line_for, line_of_cell, reference_of,
    source, start_of,
};
use mix_machine::Place;
use mix_refused::{Memory, Refused};
use mix_session::Session;
use mix_word::Instruction;
use rpc_message::{Fields, Request};
use serde_json::{Value, json};
use std::alloc::Global;

// The most instructions of one answer.
const MAX_INSTRUCTIONS: u64 = 8_000;

/// Cells as instructions, from one on that is counted from a reference; cells beyond the memory are told as invalid.
pub fn disassemble(
    alloc: Global,
    session: &Session,
    name: Name<'_>,
    first: u64,
    request: &Request,
) -> Result<Value, Refused<Fault>> {
    let start = start_of(request)?;
    let Some(count) = request.number("instructionCount") else {
        return Err(Refused::Fault(Fault::BadArgument));
    };
    let offset = integer_asked(request, "instructionOffset");
    let Some(from) = ((start / CELL_BYTES) as i64).checked_add(offset) else {
        return Err(Refused::Fault(Fault::BadArgument));
    };
    let mut list = Vec::new(alloc);
    for i in 0..count.min(MAX_INSTRUCTIONS) as u16 {
        let at = from.saturating_add(i64::from(i));
        list.push(match cell_numbered(at) {
            Some(cell) => instruction(alloc, session, name, first, cell)?,
            None => no_cell(alloc, at)?,
        })?;
    }
    Ok(json!(in alloc; {"instructions": list})?)
}

// The cell of a whole number, if there is one.
fn cell_numbered(at: i64) -> Option<Place> {
    Place::of(u16::try_from(at).ok()?)
}

// With the line that put the word of the cell there, and its source.
fn instruction(
    alloc: Global,
    session: &Session,
    name: Name<'_>,
    first: u64,
    cell: Place,
) -> Result<Value, Memory> {
    let word = session.world().cell(cell);
    let mut fields = Fields::new(alloc);
    fields.text("address", reference_of(alloc, cell.number())?.as_str())?;
    let text = format!(in alloc; "{word}")?;
    fields.text("instructionBytes", text.as_str())?;
    let shown = Instruction(word);
    let text = format!(in alloc; "{shown}")?;
    fields.text("instruction", text.as_str())?;
    if let Some(line) = line_of_cell(session.program(), cell) {
        fields.number("line", line_for(first, line))?;
        fields.put("location", source(alloc, name)?)?;
    }
    Ok(fields.done())
}

fn no_cell(alloc: Global, at: i64) -> Result<Value, Memory> {
    let address = far_reference(alloc, at.saturating_mul(6))?;
    Ok(json!(in alloc; {
        "address": address,
        "instruction": "no cell",
        "presentationHint": "invalid"
    })?)
}

// The reference of a byte that may lie before the memory.
fn far_reference(alloc: Global, byte: i64) -> Result<String, Memory> {
    let reference = byte_reference(alloc, byte.unsigned_abs())?;
    if !byte.is_negative() {
        return Ok(reference);
    }
    let text = format!(in alloc; "-{reference}")?;
    Ok(text)
}

//! `mix/program`: what was assembled.

use dap_asked::{line_of, place_at};
use mix_refused::Memory;
use mix_word::{CELLS, Number};
use mixal_asm::{Program, Source};
use rpc_message::Fields;
use serde_json::{Value, json};
use std::alloc::Global;

/// The cells that words were assembled for, in rising order, with their lines; the symbols; where the program begins.
pub fn program_view(alloc: Global, program: &Program) -> Result<Value, Memory> {
    let rows = rows(alloc, program)?;
    let symbols = symbols(alloc, program)?;
    let start = u64::from(program.start().number());
    Ok(json!(in alloc; {"rows": rows, "symbols": symbols, "start": start})?)
}

fn rows(alloc: Global, program: &Program) -> Result<Vec<Value>, Memory> {
    let mut list = Vec::new(alloc);
    for cell in 0..CELLS {
        if let Some(source) = program.source_at(place_at(cell)) {
            list.push(row(alloc, cell, source)?)?;
        }
    }
    Ok(list)
}

// A cell with the line that put the last word there; no inserted line has a number.
fn row(alloc: Global, cell: u16, source: &Source) -> Result<Value, Memory> {
    let mut row = Fields::new(alloc);
    row.number("cell", u64::from(cell))?;
    if let Some(line) = line_of(source) {
        row.number("line", line)?;
    }
    row.flag("instruction", source.is_instruction())?;
    Ok(row.done())
}

fn symbols(alloc: Global, program: &Program) -> Result<Vec<Value>, Memory> {
    let mut list = Vec::new(alloc);
    for (symbol, value) in program.symbols() {
        let name = String::from_utf8_lossy(alloc, symbol.name())?;
        let bytes = format!(in alloc; "{value}")?;
        let number = Number(value);
        let number = format!(in alloc; "{number}")?;
        list.push(json!(in alloc; {"name": name, "value": bytes, "number": number})?)?;
    }
    Ok(list)
}

//! The lines of the source on which breakpoints stay.

use crate::points::line::cell_of_line;
use crate::points::source::is_source;
use dap_asked::{Fault, line_for, source_line};
use mix_refused::{Memory, Refused};
use mixal_asm::Program;
use rpc_message::Request;
use serde_json::{Value, json};
use std::alloc::Global;

/// The lines of a range on which a breakpoint stays, as the client counts them; none of another source.
pub fn breakpoint_locations(
    alloc: Global,
    program: &Program,
    name: &str,
    first: u64,
    request: &Request,
) -> Result<Value, Refused<Fault>> {
    let Some(line) = request.number("line") else {
        return Err(Refused::Fault(Fault::BadArgument));
    };
    let mut list = Vec::new(alloc);
    if is_source(name, request) {
        let from = source_line(first, line);
        let end = source_line(first, request.number("endLine").unwrap_or(line));
        add_between(alloc, program, first, from, end, &mut list)?;
    }
    Ok(json!(in alloc; {"breakpoints": list})?)
}

// After the last word of the program no line is looked at, however long the range is.
fn add_between(
    alloc: Global,
    program: &Program,
    first: u64,
    from: u64,
    end: u64,
    list: &mut Vec<Value>,
) -> Result<(), Memory> {
    for line in from..=end {
        let Some((_, other)) = cell_of_line(program, line) else {
            return Ok(());
        };
        if other == line {
            list.push(json!(in alloc; {"line": line_for(first, line)})?)?;
        }
    }
    Ok(())
}

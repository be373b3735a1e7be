//! What is looked at: the one thread, its one frame, and the scopes.

ghost use Rattle.std.specs.Prelude.{◌≡◌};
ghost use Rattle.serde_json.specs.Data.{null};
ghost use Rattle.serde_json.specs.View.{view};

use crate::layout::reference_of;
use crate::scope::{ALL_UNITS, FLAGS, MEMORY, REGISTERS};
use crate::value::{cell_at, cell_name};
use mix_machine::{MixFault, Place, World};
use mix_refused::Memory;
use mix_session::Session;
use mix_word::Instruction;
use mixal_asm::{Program, Source};
use rpc_message::{Fields, Request};
use serde_json::{Value, json};
use std::alloc::Global;
use std::path::Path;

/// The number of the only thread.
pub const THREAD: u64 = 1;

/// The only thread.
pub fn threads(alloc: Global) -> Result<Value, Memory> {
    Ok(json!(in alloc; {"threads": [{"id": THREAD, "name": "MIX"}]})?)
}

/// No body.
pub fn nothing() -> Value
    ensures { view result ≡ null }
{
    Value::Null
}

/// A fault of the machine, by its number and its text.
pub fn put_exception(alloc: Global, body: &mut Fields, fault: MixFault) -> Result<(), Memory> {
    let number = fault.number();
    let id = format!(in alloc; "M{number}")?;
    body.text("exceptionId", id.as_str())?;
    body.text("description", fault.text())
}

/// The fault that has ended some steps, if one has.
pub fn put_fault(alloc: Global, body: &mut Fields, fault: Option<MixFault>) -> Result<(), Memory> {
    match fault {
        None => Ok(()),
        Some(fault) => {
            let mut exception = Fields::new(alloc);
            put_exception(alloc, &mut exception, fault)?;
            body.put("fault", exception.done())
        }
    }
}

/// The only frame: the instruction at the location, with the line of the source that put the word there.
pub fn stack_trace(
    alloc: Global,
    session: &Session,
    name: Name<'_>,
    first: u64,
    request: &Request,
) -> Result<Value, Memory> {
    let mut frames = Vec::new(alloc);
    if request.number("startFrame").unwrap_or(0) == 0 {
        frames.push(frame(alloc, session.program(), session.world(), name, first)?)?;
    }
    Ok(json!(in alloc; {"stackFrames": frames, "totalFrames": 1u64})?)
}

// Its line as the client counts it, and the source that it is of; the line 0 where there is none.
fn frame(
    alloc: Global,
    program: &Program,
    world: &World,
    source_name: Name<'_>,
    first: u64,
) -> Result<Value, Memory> {
    let mut frame = Fields::new(alloc);
    frame.number("id", 1)?;
    let cell = cell_name(alloc, world.loc())?;
    let name = match cell_at(world) {
        Some(place) => {
            let instruction = Instruction(world.cell(place));
            format!(in alloc; "{cell} {instruction}")?
        }
        None => cell,
    };
    frame.text("name", name.as_str())?;
    let reference = reference_of(alloc, world.loc())?;
    frame.text("instructionPointerReference", reference.as_str())?;
    match cell_at(world).and_then(|cell| line_of_cell(program, cell)) {
        Some(line) => {
            frame.put("source", source(alloc, source_name)?)?;
            frame.number("line", line_for(first, line))?;
        }
        None => frame.number("line", 0)?,
    }
    frame.number("column", first)?;
    Ok(frame.done())
}

/// A line as the client counts it, from 0 or from 1 on.
pub fn line_for(first: u64, line: u64) -> u64 {
    line.saturating_sub(1u64.saturating_sub(first))
}

/// A line that the client counts as the source counts it, from 1 on.
pub fn source_line(first: u64, line: u64) -> u64 {
    line.saturating_add(1u64.saturating_sub(first))
}

/// The line of the source that put the word of a cell there.
pub fn line_of_cell(program: &Program, cell: Place) -> Option<u64> {
    line_of(program.source_at(cell)?)
}

/// The number of a line of the source; none of an inserted line.
pub fn line_of(source: &Source) -> Option<u64> {
    match source {
        Source::Line(line, _) => Some(u64::from(*line)),
        Source::Literal(_) | Source::Name(_) => None,
    }
}

/// The source, by its name.
pub fn source(alloc: Global, name: Name<'_>) -> Result<Value, Memory> {
    Ok(json!(in alloc; {"name": name.short, "path": name.whole})?)
}

/// The name of the source as the launch gave it, and that of its file.
#[derive(Clone, Copy)]
pub struct Name<'a> {
    pub short: &'a str,
    pub whole: &'a str,
}

impl<'a> Name<'a> {
    pub fn of(whole: &'a str) -> Name<'a> {
        let short = Path::new(whole).file_name().unwrap_or(whole);
        Name { short, whole }
    }
}

/// The scopes: registers, flags, units, memory.
pub fn scopes(alloc: Global) -> Result<Value, Memory> {
    Ok(json!(in alloc; {"scopes": [
        {
            "name": "Registers",
            "variablesReference": REGISTERS,
            "expensive": false,
            "presentationHint": "registers"
        },
        {"name": "Flags", "variablesReference": FLAGS, "expensive": false},
        {"name": "Units", "variablesReference": ALL_UNITS, "expensive": true},
        {"name": "Memory", "variablesReference": MEMORY, "expensive": true}
    ]})?)
}

//! Breakpoints by their kinds: where each that is asked for stands, and how it is told.

use crate::points::breakpoint::{Breakpoint, Flaw, breakpoint_at};
use crate::points::line::cell_of_line;
use dap_asked::{
    cell_of_reference, entries_of, integer_in, line_for, number_in, part_named, reference_of,
    source_line, text_in,
};
use mix_machine::Place;
use mix_refused::Memory;
use mix_session::{Condition, Session};
use rpc_message::{Fields, Request};
use serde_json::{Value, json};
use std::alloc::Global;

/// Breakpoints of one kind.
pub(crate) trait PointKind {
    /// What stands of one.
    type Point: Drop;

    /// Adds what stands of the one that an entry asks for, and gives how it is told.
    fn add(
        &self,
        alloc: Global,
        entry: &Value,
        points: &mut Vec<Self::Point>,
    ) -> Result<Value, Memory>;
}

/// What stands of all that a request asks for in the list of a name, and its answer.
pub(crate) fn set_all<K: PointKind>(
    alloc: Global,
    kind: &K,
    request: &Request,
    name: &str,
) -> Result<(Vec<K::Point>, Value), Memory> {
    let mut points = Vec::new(alloc);
    let mut told = Vec::new(alloc);
    let entries = entries_of(request, name);
    for entry in entries {
        told.push(kind.add(alloc, entry, &mut points)?)?;
    }
    Ok((points, json!(in alloc; {"breakpoints": told})?))
}

/// Those of lines of the program, which the client counts from this first one on.
#[derive(Clone, Copy)]
pub(crate) struct Lines<'a> {
    pub session: &'a Session,
    pub first: u64,
}

impl PointKind for Lines<'_> {
    type Point = Breakpoint;

    fn add(
        &self,
        alloc: Global,
        entry: &Value,
        points: &mut Vec<Breakpoint>,
    ) -> Result<Value, Memory> {
        match line_asked(self.session, self.first, entry) {
            Ok((breakpoint, line)) => {
                let cell = breakpoint.cell;
                points.push(breakpoint)?;
                let mut fields = verified_at(alloc, cell)?;
                fields.number("line", line_for(self.first, line))?;
                Ok(fields.done())
            }
            Err(flaw) => unverified(alloc, flaw.text()),
        }
    }
}

// One of a line, with the line of the word at its cell.
fn line_asked(session: &Session, first: u64, entry: &Value) -> Result<(Breakpoint, u64), Flaw> {
    let number = source_line(first, number_in("line", entry).unwrap_or(0));
    let (cell, line) = cell_of_line(session.program(), number).ok_or(Flaw::NoWord)?;
    let breakpoint = breakpoint_at(session, entry, cell)?;
    Ok((breakpoint, line))
}

/// Those of instructions.
#[derive(Clone, Copy)]
pub(crate) struct Instructions<'a> {
    pub session: &'a Session,
}

impl PointKind for Instructions<'_> {
    type Point = Breakpoint;

    fn add(
        &self,
        alloc: Global,
        entry: &Value,
        points: &mut Vec<Breakpoint>,
    ) -> Result<Value, Memory> {
        match instruction_asked(self.session, entry) {
            Ok((breakpoint, cell)) => {
                points.push(breakpoint)?;
                Ok(verified_at(alloc, cell)?.done())
            }
            Err(flaw) => unverified(alloc, flaw.text()),
        }
    }
}

// One of an instruction, with its cell.
fn instruction_asked(session: &Session, entry: &Value) -> Result<(Breakpoint, Place), Flaw> {
    let cell = instruction_cell(entry).ok_or(Flaw::NoCell)?;
    let breakpoint = breakpoint_at(session, entry, cell)?;
    Ok((breakpoint, cell))
}

fn instruction_cell(entry: &Value) -> Option<Place> {
    let reference = text_in("instructionReference", entry)?;
    cell_of_reference(reference, integer_in("offset", entry).unwrap_or(0))
}

/// Data breakpoints.
#[derive(Clone, Copy)]
pub(crate) struct Parts<'a> {
    pub session: &'a Session,
}

impl PointKind for Parts<'_> {
    type Point = Condition;

    fn add(
        &self,
        alloc: Global,
        entry: &Value,
        points: &mut Vec<Condition>,
    ) -> Result<Value, Memory> {
        match part_named(self.session, text_in("dataId", entry).unwrap_or("")) {
            Some(part) => {
                points.push(Condition::Alters(part))?;
                Ok(verified(alloc)?.done())
            }
            None => unverified(alloc, "no such part of the machine"),
        }
    }
}

/// Those of which none stands, for this reason.
#[derive(Clone, Copy)]
struct Unset {
    why: &'static str,
}

impl PointKind for Unset {
    type Point = Breakpoint;

    fn add(
        &self,
        alloc: Global,
        _entry: &Value,
        _points: &mut Vec<Breakpoint>,
    ) -> Result<Value, Memory> {
        unverified(alloc, self.why)
    }
}

/// The answer to a request for breakpoints in the list of a name of which none stands, for this reason.
pub fn never(
    alloc: Global,
    why: &'static str,
    request: &Request,
    name: &str,
) -> Result<Value, Memory> {
    let (_, told) = set_all(alloc, &Unset { why }, request, name)?;
    Ok(told)
}

/// That one stands.
pub(super) fn verified(alloc: Global) -> Result<Fields, Memory> {
    let mut fields = Fields::new(alloc);
    fields.flag("verified", true)?;
    Ok(fields)
}

fn verified_at(alloc: Global, place: Place) -> Result<Fields, Memory> {
    let mut fields = verified(alloc)?;
    let reference = reference_of(alloc, place.number())?;
    fields.text("instructionReference", reference.as_str())?;
    Ok(fields)
}

/// Why one does not stand.
pub(super) fn unverified(alloc: Global, why: &str) -> Result<Value, Memory> {
    Ok(json!(in alloc; {"verified": false, "message": why})?)
}

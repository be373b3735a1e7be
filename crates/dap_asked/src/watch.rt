//! What data breakpoints watch.

ghost use Rattle.std.specs.Prelude.{◌≡◌};
ghost use Rattle.dap_asked.specs.Watch.{part_named};

use crate::fault::Fault;
use crate::scope::{Scope, part_of, scope_of};
use mix_machine::Part;
use mix_refused::{Memory, Refused};
use mix_session::{Condition, Session};
use rpc_message::Request;
use serde_json::{Value, json};
use std::alloc::Global;

/// The part of the machine that a name stands for, as after `until` in a command.
pub fn part_named(session: &Session, name: &str) -> Option<Part>
    ensures { result ≡ part_named session.now name.now }
{
    match session.condition(name.as_bytes()) {
        Ok(Condition::Alters(part)) => Some(part),
        Ok(Condition::At(_)) | Ok(Condition::Conflicts) | Err(_) => None,
    }
}

/// What a data breakpoint on a variable would watch; without a scope, on what the name stands for after `until`.
pub fn data_breakpoint_info(
    alloc: Global,
    session: &Session,
    request: &Request,
) -> Result<Value, Refused<Fault>> {
    let Some(name) = request.text("name") else {
        return Err(Refused::Fault(Fault::BadArgument));
    };
    let scope = request.number("variablesReference").and_then(scope_of);
    if watched(session, scope, name).is_none() {
        let why = "no part of the machine";
        return Ok(json!(in alloc; {"dataId": null, "description": why})?);
    }
    let id = watch_name(alloc, scope, name)?;
    Ok(json!(in alloc; {
        "dataId": id.as_str(),
        "description": id.as_str(),
        "accessTypes": ["write"],
        "canPersist": true
    })?)
}

// The part that is watched: a variable of a scope, or without one what the name stands for.
fn watched(session: &Session, scope: Option<Scope>, name: &str) -> Option<Part> {
    match scope {
        Some(scope) => unless_time(part_of(scope, name)?),
        None => part_named(session, name),
    }
}

// Each step alters the location and the clock, so these are not watched.
fn unless_time(part: Part) -> Option<Part> {
    match part {
        Part::Loc | Part::Clock => None,
        Part::Register(_) | Part::Over | Part::Cmp | Part::Cell(_) | Part::Unit(_) => Some(part),
    }
}

// The name of what is watched, as after `until` in a command.
fn watch_name(alloc: Global, scope: Option<Scope>, name: &str) -> Result<String, Memory> {
    let id = match scope {
        Some(Scope::Page(_)) => format!(in alloc; "cell {name}")?,
        Some(Scope::Units) => format!(in alloc; "unit {name}")?,
        _ => String::from_str(alloc, name)?,
    };
    Ok(id)
}

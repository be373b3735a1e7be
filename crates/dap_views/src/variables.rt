//! The variables of a scope.

mod pages;
mod units;

use dap_asked::{Fault, Scope, held, register_value, scope_of};
use mix_machine::{Reg, World};
use mix_refused::{Memory, Refused};
use mix_session::Altered;
use pages::{cells, pages};
use rpc_message::{Fields, Request};
use serde_json::{Value, json};
use std::alloc::Global;
use units::{entries, units};
pub use units::{row_text, unit_at};

/// The variables of a scope, from `start` on and at most `count` where these are given.
pub fn variables_view(
    alloc: Global,
    world: &World,
    request: &Request,
) -> Result<Value, Refused<Fault>> {
    let Some(reference) = request.number("variablesReference") else {
        return Err(Refused::Fault(Fault::NoSuchThing));
    };
    let Some(scope) = scope_of(reference) else {
        return Err(Refused::Fault(Fault::NoSuchThing));
    };
    let list = asked_of(variables_in(alloc, world, scope)?, request);
    Ok(json!(in alloc; {"variables": list})?)
}

fn variables_in(alloc: Global, world: &World, scope: Scope) -> Result<Vec<Value>, Memory> {
    match scope {
        Scope::Registers => registers(alloc, world),
        Scope::Flags => flags(alloc, world),
        Scope::Units => units(alloc, world),
        Scope::Memory => pages(alloc),
        Scope::Unit(number) => entries(alloc, world.unit(number)),
        Scope::Page(page) => cells(alloc, world, page),
    }
}

// What is asked of a list: the variables from `start` on, and at most `count` where that is given.
fn asked_of(list: Vec<Value>, request: &Request) -> Vec<Value> {
    let mut list = list;
    for _ in 0..request.number("start").unwrap_or(0) {
        if list.is_empty() {
            return list;
        }
        list.remove(0);
    }
    match request.number("count") {
        Some(count) if count > 0 => list.truncate(count as usize),
        _ => {}
    }
    list
}

fn variable(alloc: Global, name: &str, value: &str, inside: u64) -> Result<Fields, Memory> {
    let mut variable = Fields::new(alloc);
    variable.text("name", name)?;
    variable.text("value", value)?;
    variable.number("variablesReference", inside)?;
    Ok(variable)
}

fn registers(alloc: Global, world: &World) -> Result<Vec<Value>, Memory> {
    let mut list = Vec::new(alloc);
    for register in Reg::ALL.iter() {
        let value = register_value(alloc, world, *register)?;
        list.push(variable(alloc, register.name(), value.as_str(), 0)?.done())?;
    }
    Ok(list)
}

fn flags(alloc: Global, world: &World) -> Result<Vec<Value>, Memory> {
    let mut list = Vec::new(alloc);
    list.push(named(alloc, world, "over", Altered::Over)?)?;
    list.push(named(alloc, world, "cmp", Altered::Cmp)?)?;
    list.push(named(alloc, world, "loc", Altered::Loc)?)?;
    list.push(named(alloc, world, "clock", Altered::Clock)?)?;
    Ok(list)
}

// A part of the machine, by its name, with what it holds.
fn named(alloc: Global, world: &World, name: &str, part: Altered) -> Result<Value, Memory> {
    let value = held(alloc, world, part)?;
    Ok(variable(alloc, name, value.as_str(), 0)?.done())
}

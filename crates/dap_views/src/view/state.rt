//! `mix/state`: the machine as it is.

use crate::view::asked::{AskedCells, cells, ranges_asked};
use crate::view::decoded::field_asked;
use crate::view::{part_name, put_digits, put_register};
use dap_asked::{Fault, held};
use mix_machine::{Change, Reg, World};
use mix_refused::{Memory, Refused};
use mix_session::{Altered, Session, alterations};
use rpc_message::{Fields, Request};
use serde_json::Value;
use std::alloc::Global;

/// How far the changes have come, the registers, the flags, the clock, the cells that are asked for, and what the last change altered.
pub fn state_view(
    alloc: Global,
    session: &Session,
    request: &Request,
) -> Result<Value, Refused<Fault>> {
    let ranges = ranges_asked(alloc, request)?;
    let field = field_asked(request)?;
    let cells = AskedCells {
        world: session.world(),
        field,
        instructions: request.flag("instructions"),
        nonzero: request.flag("nonzero"),
        ranges: ranges.as_slice(),
    };
    Ok(machine(alloc, session, &cells)?)
}

fn machine(alloc: Global, session: &Session, asked: &AskedCells<'_>) -> Result<Value, Memory> {
    let world = session.world();
    let mut body = Fields::new(alloc);
    body.number("done", session.changes().len() as u64)?;
    body.number("ahead", session.ahead() as u64)?;
    put_flags(alloc, &mut body, world)?;
    body.list("registers", registers(alloc, world)?)?;
    body.list("cells", cells(alloc, asked)?)?;
    put_last(alloc, &mut body, session)?;
    Ok(body.done())
}

fn put_flags(alloc: Global, body: &mut Fields, world: &World) -> Result<(), Memory> {
    body.number("location", u64::from(world.loc()))?;
    put_digits(alloc, body, "clock", u128::from(world.clock()))?;
    body.flag("over", world.over())?;
    let indicator = held(alloc, world, Altered::Cmp)?;
    body.text("cmp", indicator.as_str())
}

fn registers(alloc: Global, world: &World) -> Result<Vec<Value>, Memory> {
    let mut list = Vec::new(alloc);
    for register in Reg::ALL.iter() {
        let mut fields = Fields::new(alloc);
        fields.text("name", register.name())?;
        put_register(alloc, &mut fields, *register, world.register(*register))?;
        list.push(fields.done())?;
    }
    Ok(list)
}

// What the last change that is done altered, and whether it was a HLT.
fn put_last(alloc: Global, body: &mut Fields, session: &Session) -> Result<(), Memory> {
    let done = session.changes().len();
    let Some(change) = session.change_at(done) else {
        body.flag("halted", false)?;
        return body.list("altered", Vec::new(alloc));
    };
    let before = session.world_at(alloc, done.saturating_sub(1))?;
    put_change(alloc, body, session.world(), change, &before)
}

fn put_change(
    alloc: Global,
    body: &mut Fields,
    world: &World,
    change: Change,
    before: &World,
) -> Result<(), Memory> {
    let halted = matches!(change, Change::Step) && before.next_is_halt();
    body.flag("halted", halted)?;
    let parts = alterations(alloc, before, world)?;
    let mut names = Vec::new(alloc);
    for part in parts.iter() {
        names.push(Value::String(part_name(alloc, *part)?))?;
    }
    body.list("altered", names)
}

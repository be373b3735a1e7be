//! `mix/change`: a change by its number.

ghost use Rattle.std.specs.Prelude.{◌≡◌, ◌-◌, Some};
ghost use Rattle.mix_session.specs.Prelude.{world_at, change_numbered};

mod items;

use crate::view::change::items::items;
use crate::view::decoded::field_asked;
use crate::view::done::{change_kind, put_done};
use crate::view::put_digits;
use dap_asked::Fault;
use mix_machine::{Change, Conflict, World};
use mix_refused::{Memory, Refused};
use mix_session::{Session, change_text, conflict_text};
use mix_word::Field;
use rpc_message::{Fields, Request};
use serde_json::Value;
use std::alloc::Global;

/// Two states of the machine, one change apart, and the field of a word whose numbers are asked for.
#[derive(Clone, Copy)]
pub(crate) struct Worlds<'a> {
    pub(crate) before: &'a World,
    pub(crate) after: &'a World,
    pub(crate) field: Option<Field>,
}

/// What a change did and where, how long it took, and what it altered: of a step but for the location and the clock.
pub fn change_view(
    alloc: Global,
    session: &Session,
    request: &Request,
) -> Result<Value, Refused<Fault>> {
    let Some(number) = request.number("number") else {
        return Err(Refused::Fault(Fault::BadArgument));
    };
    let Some(change) = session.change_at(number as usize) else {
        return Err(Refused::Fault(Fault::NoSuchThing));
    };
    let field = field_asked(request)?;
    let conflicts = request.flag("conflict");
    Ok(change_shown(alloc, session, number, change, field, conflicts)?)
}

// From the state before it to the one after it.
fn change_shown(
    alloc: Global,
    session: &Session,
    number: u64,
    change: Change,
    field: Option<Field>,
    conflicts: bool,
) -> Result<Value, Memory>
    requires { change_numbered session.now.timeline number ≡ Some change }
{
    let at = number as usize;
    let before = session.world_at(alloc, at.saturating_sub(1))?;
    let after = session.world_at(alloc, at)?;
    let worlds = Worlds {
        before: &before,
        after: &after,
        field,
    };
    change_with(alloc, session, number, change, &worlds, conflicts)
}

// The change of this number, between the state before it and the one after it.
fn change_with(
    alloc: Global,
    session: &Session,
    number: u64,
    change: Change,
    worlds: &Worlds<'_>,
    conflicts: bool,
) -> Result<Value, Memory>
    requires change { change_numbered session.now.timeline number ≡ Some change }
    requires before { worlds.now.before.now ≡ world_at session.now.timeline (number - 1) }
    requires after { worlds.now.after.now ≡ world_at session.now.timeline number }
{
    let conflict = if conflicts {
        session.conflict_after(alloc, (number as usize).saturating_sub(1))?
    } else {
        None
    };
    let mut body = change_between(alloc, number, change, worlds)?;
    if let Some(conflict) = conflict {
        body.put("conflict", conflict_shown(alloc, conflict)?)?;
    }
    Ok(body.done())
}

fn conflict_shown(alloc: Global, conflict: Conflict) -> Result<Value, Memory> {
    let mut body = Fields::new(alloc);
    body.number("cell", u64::from(conflict.cell.number()))?;
    body.number("unit", u64::from(conflict.unit.number()))?;
    put_digits(
        alloc,
        &mut body,
        "until",
        u128::from(conflict.transfer.until),
    )?;
    body.text("text", conflict_text(alloc, conflict)?.as_str())?;
    Ok(body.done())
}

/// A change from one state to another. (It borrows the two states: where values are owned that take long to drop, each `?` is dear to prove.)
pub(crate) fn change_between(
    alloc: Global,
    number: u64,
    change: Change,
    worlds: &Worlds<'_>,
) -> Result<Fields, Memory> {
    let mut body = Fields::new(alloc);
    body.number("number", number)?;
    body.number("location", u64::from(worlds.before.loc()))?;
    body.text("text", change_text(alloc, &change, worlds.before)?.as_str())?;
    let time = worlds.after.clock().saturating_sub(worlds.before.clock());
    put_digits(alloc, &mut body, "time", u128::from(time))?;
    body.list("items", items(alloc, change, worlds)?)?;
    body.text("kind", change_kind(change))?;
    body.number("locationAfter", u64::from(worlds.after.loc()))?;
    put_done(alloc, &mut body, change, worlds.before)?;
    Ok(body)
}

//! `mix/writes`: the changes that altered a part of the machine, and what it held before and after each.

use crate::view::{put_digits, put_register, word_shown};
use dap_asked::{Fault, part_named};
use mix_machine::{Cmp, Mark, Part, Word};
use mix_refused::{Memory, Refused};
use mix_session::{Session, Write};
use rpc_message::{Fields, Request};
use serde_json::Value;
use std::alloc::Global;

/// The most writes that are told at once.
const MAX_WRITES: u64 = 1_000;

/// The last changes that altered a part, and what it held before and after each.
pub fn writes_view(
    alloc: Global,
    session: &Session,
    request: &Request,
) -> Result<Value, Refused<Fault>> {
    let Some(name) = request.text("part") else {
        return Err(Refused::Fault(Fault::BadArgument));
    };
    let Some(part) = part_named(session, name) else {
        return Err(Refused::Fault(Fault::NoSuchThing));
    };
    let most = request.number("count").unwrap_or(MAX_WRITES);
    if most > MAX_WRITES {
        return Err(Refused::Fault(Fault::BadArgument));
    }
    let done = session.changes().len() as u64;
    let until = request.number("until").unwrap_or(done);
    let total = request.flag("total");
    Ok(writes_shown(alloc, session, part, until as usize, most as usize, total)?)
}

// The last of the changes that altered a part, and how many there are, if that is asked for.
fn writes_shown(
    alloc: Global,
    session: &Session,
    part: Part,
    until: usize,
    most: usize,
    total: bool,
) -> Result<Value, Memory> {
    let written = part;
    let writes = session.writes(alloc, part, until, most)?;
    let mut body = Fields::new(alloc);
    body.list("writes", all_shown(alloc, &written, &writes)?)?;
    if total {
        let writes = session.writes(alloc, written, until, until)?;
        body.number("total", writes.len() as u64)?;
    }
    Ok(body.done())
}

fn all_shown(alloc: Global, part: &Part, writes: &[Write]) -> Result<Vec<Value>, Memory> {
    let mut list = Vec::new(alloc);
    for write in writes {
        let mut fields = Fields::new(alloc);
        fields.number("number", write.number as u64)?;
        put_mark(alloc, &mut fields, part, "before", write.before)?;
        put_mark(alloc, &mut fields, part, "after", write.after)?;
        list.push(fields.done())?;
    }
    Ok(list)
}

// What a part held, by its mark.
fn put_mark(
    alloc: Global,
    fields: &mut Fields,
    part: &Part,
    name: &str,
    mark: Mark,
) -> Result<(), Memory> {
    match mark {
        Mark::Word(word) => fields.put(name, held_shown(alloc, part, word)?),
        Mark::Toggle(is_on) => fields.flag(name, is_on),
        Mark::Indicator(indicator) => fields.text(name, indicator_name(indicator)),
        Mark::Location(location) => fields.number(name, u64::from(location)),
        Mark::Time(time) => put_digits(alloc, fields, name, u128::from(time)),
    }
}

fn indicator_name(indicator: Cmp) -> &'static str {
    match indicator {
        Cmp::Less => "L",
        Cmp::Equal => "E",
        Cmp::Greater => "G",
    }
}

// The word that a part held: of a register as many bytes as it has.
fn held_shown(alloc: Global, part: &Part, word: Word) -> Result<Value, Memory> {
    match part {
        Part::Register(register) => {
            let mut fields = Fields::new(alloc);
            put_register(alloc, &mut fields, *register, word)?;
            Ok(fields.done())
        }
        _ => word_shown(alloc, word),
    }
}

//! `mix/units`: the units, and what they hold.

mod held;

use crate::variables::unit_at;
use crate::view::{put_digits, word_shown};
use dap_asked::Fault;
use held::put_held;
use mix_machine::{UnitKind, UnitNo, World};
use mix_refused::{Memory, Refused};
use mix_session::was_used;
use rpc_message::{Fields, Request};
use serde_json::{Value, json};
use std::alloc::Global;

/// The units that were used or hold something, or the one that is asked for, with a block of it where that is asked for.
pub fn units_view(
    alloc: Global,
    world: &World,
    request: &Request,
) -> Result<Value, Refused<Fault>> {
    let mut list = Vec::new(alloc);
    if request.argument("unit").is_some() {
        list.push(unit_asked(alloc, world, request)?)?;
    } else {
        for number in 0..u16::from(mix_word::UNITS) {
            let number = unit_at(number);
            if was_used(world.unit(number)) {
                list.push(unit_fields(alloc, world, number)?.done())?;
            }
        }
    }
    Ok(json!(in alloc; {"units": list})?)
}

// One unit, with the words of a block where that is asked for.
fn unit_asked(alloc: Global, world: &World, request: &Request) -> Result<Value, Refused<Fault>> {
    let number = request.number("unit").unwrap_or(u64::MAX);
    let Some(number) = u8::try_from(number).ok().and_then(UnitNo::of) else {
        return Err(Refused::Fault(Fault::NoSuchThing));
    };
    let mut fields = unit_fields(alloc, world, number)?;
    if let Some(block) = request.number("block") {
        let block = u16::try_from(block).unwrap_or(u16::MAX);
        let Some(words) = world.unit(number).block(block) else {
            return Err(Refused::Fault(Fault::NoSuchThing));
        };
        let mut list = Vec::new(alloc);
        for word in words {
            list.push(word_shown(alloc, *word)?)?;
        }
        fields.list("block", list)?;
    }
    Ok(fields.done())
}

fn unit_fields(alloc: Global, world: &World, number: UnitNo) -> Result<Fields, Memory> {
    let unit = world.unit(number);
    let mut fields = Fields::new(alloc);
    fields.number("unit", u64::from(number.number()))?;
    fields.text("kind", kind_name(number.kind()))?;
    fields.number("place", u64::from(unit.place()))?;
    fields.number("blocks", u64::from(unit.blocks()))?;
    put_digits(alloc, &mut fields, "delay", u128::from(unit.delay()))?;
    put_digits(alloc, &mut fields, "until", u128::from(unit.until()))?;
    put_held(alloc, &mut fields, number.kind(), unit)?;
    Ok(fields)
}

fn kind_name(kind: UnitKind) -> &'static str {
    match kind {
        UnitKind::Tape => "tape",
        UnitKind::Disk => "disk",
        UnitKind::CardReader => "card reader",
        UnitKind::CardPunch => "card punch",
        UnitKind::Printer => "printer",
        UnitKind::Typewriter => "typewriter",
        UnitKind::PaperTape => "paper tape",
    }
}

//! What a change altered, each part with what it held before and after.

use crate::view::change::Worlds;
use crate::view::decoded::put_field;
use crate::view::{part_name, put_digits};
use dap_asked::held;
use mix_machine::{Change, UnitNo, World};
use mix_refused::Memory;
use mix_session::{Altered, UnitDifference, altered_by, unit_differences};
use mix_word::Field;
use rpc_message::Fields;
use serde_json::Value;
use std::alloc::Global;

/// The items of a change.
pub(crate) fn items(
    alloc: Global,
    change: Change,
    worlds: &Worlds<'_>,
) -> Result<Vec<Value>, Memory> {
    let parts = altered_by(alloc, &change, worlds.before, worlds.after)?;
    let mut list = Vec::new(alloc);
    for part in parts.iter() {
        match *part {
            Altered::Unit(unit) => add_unit(alloc, &mut list, unit, worlds)?,
            _ => list.push(part_item(alloc, *part, worlds)?)?,
        }
    }
    Ok(list)
}

// What a part holds before and after.
fn part_item(alloc: Global, part: Altered, worlds: &Worlds<'_>) -> Result<Value, Memory> {
    let (field, before, after) = (worlds.field, worlds.before, worlds.after);
    let mut item = item_of(alloc, part)?;
    item.text("before", held(alloc, before, part)?.as_str())?;
    item.text("after", held(alloc, after, part)?.as_str())?;
    put_value(alloc, &mut item, field, before, part, "beforeValue")?;
    put_value(alloc, &mut item, field, after, part, "afterValue")?;
    Ok(item.done())
}

// The number of a field of what a register or a cell holds, if one is asked for.
fn put_value(
    alloc: Global,
    item: &mut Fields,
    field: Option<Field>,
    world: &World,
    part: Altered,
    name: &str,
) -> Result<(), Memory> {
    match part {
        Altered::Register(register) => {
            put_field(alloc, item, field, name, world.register(register))
        }
        Altered::Cell(place) => put_field(alloc, item, field, name, world.cell(place)),
        _ => Ok(()),
    }
}

fn item_of(alloc: Global, part: Altered) -> Result<Fields, Memory> {
    let mut item = Fields::new(alloc);
    item.text("part", part_name(alloc, part)?.as_str())?;
    Ok(item)
}

// An item for each block and each number of a unit that differs.
fn add_unit(
    alloc: Global,
    list: &mut Vec<Value>,
    unit: UnitNo,
    worlds: &Worlds<'_>,
) -> Result<(), Memory> {
    let (before, after) = (worlds.before.unit(unit), worlds.after.unit(unit));
    let differences = unit_differences(alloc, before, after)?;
    for difference in differences.iter() {
        let mut item = item_of(alloc, Altered::Unit(unit))?;
        match *difference {
            UnitDifference::Block(block) => item.number("block", u64::from(block))?,
            UnitDifference::Number(number, before, after) => {
                item.text("what", number.name())?;
                put_digits(alloc, &mut item, "before", u128::from(before))?;
                put_digits(alloc, &mut item, "after", u128::from(after))?;
            }
        }
        list.push(item.done())?;
    }
    Ok(())
}

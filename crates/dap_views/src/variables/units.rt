//! The units as variables, and what each holds.

ghost use Rattle.std.specs.Prelude.{◌≡◌, ◌<◌, IfOk, string_bytes};
ghost use Rattle.mix_word.specs.Uses.{unit_count};
ghost use Rattle.dap_views.specs.Variables.{row_text};

use crate::variables::variable;
use dap_asked::{UNITS, characters};
use mix_machine::{Row, Unit, UnitNo, World};
use mix_refused::Memory;
use serde_json::Value;
use std::alloc::Global;

/// The units.
pub(crate) fn units(alloc: Global, world: &World) -> Result<Vec<Value>, Memory> {
    let mut list = Vec::new(alloc);
    for number in 0..u16::from(mix_word::UNITS) {
        let value = unit_value(alloc, world.unit(unit_at(number)))?;
        list.push(entry(alloc, "", number, value.as_str(), UNITS + u64::from(number))?)?;
    }
    Ok(list)
}

/// The unit of a number.
pub fn unit_at(number: u16) -> UnitNo
    requires { number < unit_count }
    ensures { result ≡ number }
{
    UnitNo::of(number as u8).unwrap()
}

fn unit_value(alloc: Global, unit: &Unit) -> Result<String, Memory> {
    let (place, blocks, rows) = (unit.place(), unit.blocks(), unit.rows());
    let counts = format!(in alloc; "place {place} blocks {blocks} output {rows}")?;
    let (delay, until) = (unit.delay(), unit.until());
    let text = format!(in alloc; "{counts} delay {delay} until {until}")?;
    Ok(text)
}

/// The rows that a unit has written and the blocks that it reads, each by its number.
pub(crate) fn entries(alloc: Global, unit: &Unit) -> Result<Vec<Value>, Memory> {
    let mut list = Vec::new(alloc);
    for i in 0..unit.rows() {
        if let Some(row) = unit.row(i) {
            let value = row_text(alloc, row)?;
            list.push(entry(alloc, "row ", i, value.as_str(), 0)?)?;
        }
    }
    for i in 0..unit.blocks() {
        if let Some(words) = unit.block(i) {
            let value = characters(alloc, words)?;
            list.push(entry(alloc, "block ", i, value.as_str(), 0)?)?;
        }
    }
    Ok(list)
}

// A unit, a row or a block, by its number.
fn entry(alloc: Global, kind: &str, i: u16, value: &str, inside: u64) -> Result<Value, Memory> {
    let name = format!(in alloc; "{kind}{i}")?;
    Ok(variable(alloc, name.as_str(), value, inside)?.done())
}

/// The characters of a row; of a new page of the printer, a form feed.
pub fn row_text(alloc: Global, row: &Row) -> Result<String, Memory>
    ensures { IfOk result (λ s. string_bytes s ≡ row_text row.now) }
{
    match row.words() {
        Some(words) => characters(alloc, words),
        None => Ok(String::from_str(alloc, "\x0c")?),
    }
}

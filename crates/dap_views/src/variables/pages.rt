//! The memory as variables: its pages, and the cells of one.

ghost use Rattle.std.specs.Prelude.{◌<◌};

use crate::variables::variable;
use dap_asked::{PAGE, PAGES, cell_name, reference_of, word_value};
use mix_machine::{Place, World};
use mix_refused::Memory;
use serde_json::Value;
use std::alloc::Global;

/// The pages of the memory.
pub(crate) fn pages(alloc: Global) -> Result<Vec<Value>, Memory> {
    let mut list = Vec::new(alloc);
    for page in 0..40 {
        list.push(page_variable(alloc, page)?)?;
    }
    Ok(list)
}

fn page_variable(alloc: Global, page: u16) -> Result<Value, Memory>
    requires { page < 40 }
{
    let from = cell_name(alloc, page * PAGE)?;
    let to = cell_name(alloc, page * PAGE + 99)?;
    let name = format!(in alloc; "{from} to {to}")?;
    let inside = PAGES + u64::from(page);
    let mut variable = variable(alloc, name.as_str(), "100 cells", inside)?;
    variable.number("indexedVariables", u64::from(PAGE))?;
    variable.text(
        "memoryReference",
        reference_of(alloc, page * PAGE)?.as_str(),
    )?;
    Ok(variable.done())
}

/// The cells of a page of the memory.
pub(crate) fn cells(alloc: Global, world: &World, page: u16) -> Result<Vec<Value>, Memory> {
    let mut list = Vec::new(alloc);
    for i in 0..PAGE {
        let first = page.saturating_mul(PAGE);
        if let Some(place) = Place::of(first.saturating_add(i)) {
            list.push(cell_variable(alloc, world, place)?)?;
        }
    }
    Ok(list)
}

fn cell_variable(alloc: Global, world: &World, place: Place) -> Result<Value, Memory> {
    let name = cell_name(alloc, place.number())?;
    let value = word_value(alloc, world.cell(place))?;
    let mut cell = variable(alloc, name.as_str(), value.as_str(), 0)?;
    cell.text(
        "memoryReference",
        reference_of(alloc, place.number())?.as_str(),
    )?;
    Ok(cell.done())
}

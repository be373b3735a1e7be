//! The text of what differs between two states of the machine.

ghost use Rattle.std.specs.Prelude.{◌≡◌, ◌++◌, codes, OnOk, IfOk, flat_map};
ghost use Rattle.mix_session.specs.declared.altered.Altered.TheVariants.{Cell};
ghost use Rattle.mix_session.specs.Differences.{held_text, unit_difference_text, difference_text, item_text, lines_text, cell_in, cells_in, span_text, column_text, columns_text};

mod part;

use crate::altered::unit::{UnitDifference, unit_differences};
use crate::altered::{Altered, Worlds};
use mix_machine::Place;
use mix_word::Location;
pub use part::Held;
use part::Name;
use std::alloc::{AllocError, Global};
use undo_core::Memory;

/// Appends the items of parts, each on a line.
pub(super) fn add_item_lines(
    alloc: Global,
    text: &mut Vec<u8>,
    worlds: Worlds<'_>,
    parts: &[Altered],
) -> Result<(), Memory>
    ensures { OnOk result (text.new.items ≡ text.old.items ++ lines_text worlds.entry.before.now worlds.entry.after.now parts.now) }
{
    for part in parts {
        add_item(alloc, text, worlds, part)?;
        text.push(b'\n')?;
    }
    Ok(())
}

/// Appends the items of parts on the line of a change, each after two blanks; two cells or more by one item.
pub(super) fn add_item_columns(
    alloc: Global,
    text: &mut Vec<u8>,
    worlds: Worlds<'_>,
    parts: &[Altered],
) -> Result<(), Memory>
    ensures { OnOk result (text.new.items ≡ text.old.items ++ columns_text worlds.entry.before.now worlds.entry.after.now parts.now) }
{
    let cells = cells_in(alloc, parts)?;
    add_columns(alloc, text, worlds, parts, &cells)
}

// The cells of a list of parts.
fn cells_in(alloc: Global, parts: &[Altered]) -> Result<Vec<Place>, AllocError>
    ensures { IfOk result (λ cells. cells.items ≡ cells_in parts.now) }
{
    let mut cells = Vec::new(alloc);
    for part in parts {
        add_cell(&mut cells, *part)?;
    }
    Ok(cells)
}

fn add_cell(cells: &mut Vec<Place>, part: Altered) -> Result<(), AllocError>
    ensures { OnOk result (cells.new.items ≡ cells.old.items ++ cell_in part) }
{
    match part {
        Altered::Cell(place) => cells.push(place)?,
        _ => {}
    }
    Ok(())
}

// The items of parts on the line of a change, where these are the cells of all.
fn add_columns(
    alloc: Global,
    text: &mut Vec<u8>,
    worlds: Worlds<'_>,
    parts: &[Altered],
    cells: &[Place],
) -> Result<(), Memory>
    ensures { OnOk result (text.new.items ≡ text.old.items ++ flat_map (λ p. column_text worlds.entry.before.now worlds.entry.after.now p cells.now) parts.now) }
{
    for part in parts {
        add_column(alloc, text, worlds, part, cells)?;
    }
    Ok(())
}

fn add_column(
    alloc: Global,
    text: &mut Vec<u8>,
    worlds: Worlds<'_>,
    part: &Altered,
    cells: &[Place],
) -> Result<(), Memory>
    ensures { OnOk result (text.new.items ≡ text.old.items ++ column_text worlds.entry.before.now worlds.entry.after.now part.now cells.now) }
{
    match part {
        Altered::Cell(place) => add_cell_column(alloc, text, worlds, *place, cells),
        _ => add_spaced(alloc, text, worlds, part),
    }
}

// A cell on the line of a change: as it is where it is the only one, and else all of them at the first one.
fn add_cell_column(
    alloc: Global,
    text: &mut Vec<u8>,
    worlds: Worlds<'_>,
    cell: Place,
    cells: &[Place],
) -> Result<(), Memory>
    ensures { OnOk result (text.new.items ≡ text.old.items ++ column_text worlds.entry.before.now worlds.entry.after.now (Cell cell) cells.now) }
{
    match cells {
        [] | [_] => add_spaced(alloc, text, worlds, &Altered::Cell(cell)),
        [first, .., last] => {
            if cell.number() == first.number() {
                add_span(alloc, text, cells.len(), *first, *last)
            } else {
                Ok(())
            }
        }
    }
}

// How many cells, the first and the last.
fn add_span(
    alloc: Global,
    text: &mut Vec<u8>,
    count: usize,
    first: Place,
    last: Place,
) -> Result<(), Memory>
    ensures { OnOk result (text.new.items ≡ text.old.items ++ (codes "  " ++ span_text count first last)) }
{
    let (first, last) = (Location(first.number()), Location(last.number()));
    let span = format!(in alloc; "  {count} cells {first} to {last}")?;
    text.extend_from_slice(span.as_bytes())?;
    Ok(())
}

fn add_spaced(
    alloc: Global,
    text: &mut Vec<u8>,
    worlds: Worlds<'_>,
    part: &Altered,
) -> Result<(), Memory>
    ensures { OnOk result (text.new.items ≡ text.old.items ++ (codes "  " ++ item_text worlds.entry.before.now worlds.entry.after.now part.now)) }
{
    text.extend_from_slice(b"  ")?;
    add_item(alloc, text, worlds, part)
}

// Appends an item.
fn add_item(
    alloc: Global,
    text: &mut Vec<u8>,
    worlds: Worlds<'_>,
    part: &Altered,
) -> Result<(), Memory>
    ensures { OnOk result (text.new.items ≡ text.old.items ++ item_text worlds.entry.before.now worlds.entry.after.now part.now) }
{
    let name = Name(*part);
    let name = format!(in alloc; "{name}")?;
    text.extend_from_slice(name.as_bytes())?;
    add_difference(alloc, text, worlds, part)
}

fn add_difference(
    alloc: Global,
    text: &mut Vec<u8>,
    worlds: Worlds<'_>,
    part: &Altered,
) -> Result<(), Memory>
    ensures { OnOk result (text.new.items ≡ text.old.items ++ difference_text worlds.entry.before.now worlds.entry.after.now part.now) }
{
    match part {
        Altered::Unit(unit) => {
            let (before, after) = (worlds.before.unit(*unit), worlds.after.unit(*unit));
            let list = unit_differences(alloc, before, after)?;
            add_unit_differences(alloc, text, &list)
        }
        _ => add_held(alloc, text, worlds, part),
    }
}

// What a part holds before and after.
fn add_held(
    alloc: Global,
    text: &mut Vec<u8>,
    worlds: Worlds<'_>,
    part: &Altered,
) -> Result<(), Memory>
    ensures { OnOk result (text.new.items ≡ text.old.items ++ (codes " " ++ held_text worlds.entry.before.now part.now ++ codes " -> " ++ held_text worlds.entry.after.now part.now)) }
{
    let (before, after) = (Held(worlds.before, *part), Held(worlds.after, *part));
    let held = format!(in alloc; " {before} -> {after}")?;
    text.extend_from_slice(held.as_bytes())?;
    Ok(())
}

// What differs of a unit.
fn add_unit_differences(
    alloc: Global,
    text: &mut Vec<u8>,
    list: &[UnitDifference],
) -> Result<(), Memory>
    ensures { OnOk result (text.new.items ≡ text.old.items ++ flat_map unit_difference_text list.now) }
{
    for difference in list {
        add_unit_difference(alloc, text, *difference)?;
    }
    Ok(())
}

fn add_unit_difference(
    alloc: Global,
    text: &mut Vec<u8>,
    difference: UnitDifference,
) -> Result<(), Memory>
    ensures { OnOk result (text.new.items ≡ text.old.items ++ unit_difference_text difference) }
{
    let difference = format!(in alloc; "{difference}")?;
    text.extend_from_slice(difference.as_bytes())?;
    Ok(())
}

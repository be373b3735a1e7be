//! The rows that a step has written, as they are printed.
ghost use Rattle.std.specs.Prelude.{◌≡◌, ◌<◌, ◌++◌, OnOk, None, drop, flat_map, length, slice_index_or};
ghost use Rattle.mix_word.specs.Uses.{unit_count};
ghost use Rattle.mix_machine.specs.World.{unit_at};
ghost use Rattle.mix_run.specs.Print.{printed_row, printed_from};
ghost use Rattle.mix_run.specs.PrintSteps.{HasCounts, printed_after};

use crate::print::Shows;
use crate::print::options::UnitSet;
use crate::print::row::add_row;
use mix_machine::{Row, Unit, UnitNo, World};
use mix_refused::Memory;
use std::alloc::Global;

/// How many rows stand in each of the units that are printed.
#[derive(Clone, Copy, PartialEq, Eq)]
pub(crate) struct RowCounts {
    card_punch: u16,
    printer: u16,
    typewriter: u16,
    paper_tape: u16,
}

/// Appends the rows that were written after the first ones, of the units that are asked for; their
/// numbers become those of all rows.
#[inline(always)]
pub(super) fn add_new(
    alloc: Global,
    world: &World,
    before: &mut RowCounts,
    units: UnitSet,
    text: &mut Vec<u8>,
) -> Result<(), Memory>
    ensures counts { OnOk result (HasCounts world.now before.new) }
    ensures rows { OnOk result (text.new.items ≡ text.old.items ++ printed_after units before.old world.now) }
{
    let after = row_counts(world);
    if after == *before {
        return Ok(());
    }
    add_rows(alloc, world, *before, units, text)?;
    *before = after;
    Ok(())
}

// The rows of the units that are asked for, from these numbers on.
fn add_rows(
    alloc: Global,
    world: &World,
    from: RowCounts,
    units: UnitSet,
    text: &mut Vec<u8>,
) -> Result<(), Memory>
    ensures { OnOk result (text.new.items ≡ text.old.items ++ printed_after units from world.now) }
{
    let (punch, printer) = (unit_at(world, 17), unit_at(world, 18));
    add_unit(alloc, punch, from.card_punch, units.card_punch, text)?;
    add_unit(alloc, printer, from.printer, units.printer, text)?;
    let (typewriter, tape) = (unit_at(world, 19), unit_at(world, 20));
    add_unit(alloc, typewriter, from.typewriter, units.typewriter, text)?;
    add_unit(alloc, tape, from.paper_tape, units.paper_tape, text)
}

// The rows of a unit from this number on, if it is asked for.
fn add_unit(
    alloc: Global,
    unit: &Unit,
    from: u16,
    asked: bool,
    text: &mut Vec<u8>,
) -> Result<(), Memory>
    ensures { OnOk result (text.new.items ≡ text.old.items ++ printed_from asked from unit.now) }
{
    if asked {
        add_from(alloc, unit, from, text)
    } else {
        Ok(())
    }
}

// The rows of a unit from this number on.
fn add_from(alloc: Global, unit: &Unit, from: u16, text: &mut Vec<u8>) -> Result<(), Memory>
    ensures { OnOk result (text.new.items ≡ text.old.items ++ flat_map printed_row (drop from unit.now.rows)) }
{
    let mut at = from;
    while at < unit.rows() {
        add_row(alloc, row_at(unit, at), text)?;
        at += 1;
    }
    Ok(())
}

fn row_at(unit: &Unit, number: u16) -> &Row
    requires { number < length unit.now.rows }
    ensures { result.now ≡ slice_index_or unit.now.rows number None }
{
    unit.row(number).unwrap()
}

// Whether letters stand in a row: a page mark has none, and a word of zeros is five blanks.
fn has_letters(row: &Row) -> bool {
    match row.words() {
        None => false,
        Some(words) => words.iter().any(|word| word.magnitude() > 0),
    }
}

// What stands in the rows of some units, and in those of one more, if it is asked for.
fn shows_with(shows: Shows, unit: &Unit, asked: bool) -> Shows {
    if !asked || unit.rows() == 0 || shows == Shows::Letters {
        return shows;
    }
    for at in 0..unit.rows() {
        if unit.row(at).is_some_and(has_letters) {
            return Shows::Letters;
        }
    }
    Shows::Blanks
}

/// What stands in the rows of the units that are asked for.
pub(super) fn shows_of(world: &World, units: UnitSet) -> Shows {
    let shows = shows_with(Shows::Nothing, unit_at(world, 17), units.card_punch);
    let shows = shows_with(shows, unit_at(world, 18), units.printer);
    let shows = shows_with(shows, unit_at(world, 19), units.typewriter);
    shows_with(shows, unit_at(world, 20), units.paper_tape)
}

/// The numbers of the rows.
#[inline(always)]
pub(super) fn row_counts(world: &World) -> RowCounts
    ensures { HasCounts world.now result }
{
    RowCounts {
        card_punch: unit_at(world, 17).rows(),
        printer: unit_at(world, 18).rows(),
        typewriter: unit_at(world, 19).rows(),
        paper_tape: unit_at(world, 20).rows(),
    }
}

// One unit, by its number.
#[inline(always)]
fn unit_at(world: &World, number: u8) -> &Unit
    requires { number < unit_count }
    ensures { result.now ≡ unit_at world.now number }
{
    match UnitNo::of(number) {
        Some(number) => world.unit(number),
        None => unreachable!(),
    }
}

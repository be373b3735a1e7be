//! The lines of the changes: what each did, and what it altered.

ghost use Rattle.std.specs.Prelude.{◌≡◌, ◌+◌, ◌++◌, OnOk, IfOk, length, string_bytes};
ghost use Rattle.mix_session.specs.Altered.{altered_by};
ghost use Rattle.mix_session.specs.Change.{change_at, change_text, change_columns, change_front, change_line, change_line_at, diff_text};
ghost use Rattle.mix_session.specs.Differences.{differences};

use crate::altered::{Altered, Worlds, alterations, altered_by};
use crate::show::columns::{add_left, add_right};
use crate::show::differences::{add_item_columns, add_item_lines};
use crate::timeline::{world_at, world_of};
use mix_machine::{Change, Place, World};
use mix_word::{Instruction, Location};
use std::alloc::{AllocError, Global};
use undo_core::{Journal, Memory};

/// The line of the next change ahead.
pub(crate) fn next_line(alloc: Global, journal: &Journal<World>) -> Result<Vec<u8>, Memory>
    ensures { IfOk result (λ text. text.items ≡ change_line_at journal.now (length journal.now.changes + 1)) }
{
    let number = journal.done() + 1;
    let after = world_at(alloc, journal, number)?;
    let worlds = Worlds {
        before: world_of(journal),
        after: &after,
    };
    let change = next_change(journal);
    let line = line_between(alloc, number, &change, worlds)?;
    Ok(line)
}

/// The next change ahead; a step where there is none.
pub(crate) fn next_change(journal: &Journal<World>) -> Change
    ensures { result ≡ change_at journal.now (length journal.now.changes + 1) }
{
    match journal.all().get(journal.done()) {
        None => Change::Step,
        Some(change) => change,
    }
}

/// The line of a change of a number.
pub(crate) fn line_between(
    alloc: Global,
    number: usize,
    change: &Change,
    worlds: Worlds<'_>,
) -> Result<Vec<u8>, Memory>
    ensures { IfOk result (λ text. text.items ≡ change_line number change.now worlds.entry.before.now worlds.entry.after.now) }
{
    let parts = altered_by(alloc, change, worlds.before, worlds.after)?;
    line_of(alloc, number, change, worlds, &parts)
}

/// The same, where these are the parts that the change altered.
#[tactic(auto, unfolding(crate::specs::Change::change_line))]
pub(crate) fn line_of(
    alloc: Global,
    number: usize,
    change: &Change,
    worlds: Worlds<'_>,
    parts: &[Altered],
) -> Result<Vec<u8>, Memory>
    requires { parts.now ≡ altered_by change.now worlds.before.now worlds.after.now }
    ensures { IfOk result (λ text. text.items ≡ change_line number change.now worlds.entry.before.now worlds.entry.after.now) }
{
    let mut text = front_of(alloc, number, change, worlds, parts)?;
    text.push(b'\n')?;
    Ok(text)
}

/// The same without the end of the line.
#[tactic(auto, unfolding(crate::specs::Change::change_front))]
pub(crate) fn front_of(
    alloc: Global,
    number: usize,
    change: &Change,
    worlds: Worlds<'_>,
    parts: &[Altered],
) -> Result<Vec<u8>, Memory>
    requires { parts.now ≡ altered_by change.now worlds.before.now worlds.after.now }
    ensures { IfOk result (λ text. text.items ≡ change_front number change.now worlds.entry.before.now worlds.entry.after.now) }
{
    let mut text = Vec::new(alloc);
    let time = worlds.after.clock().saturating_sub(worlds.before.clock());
    add_columns(alloc, &mut text, number, change, worlds.before, time)?;
    add_item_columns(alloc, &mut text, worlds, parts)?;
    Ok(text)
}

// The columns of a line: the number, the location, what was done, and how long it took.
#[tactic(auto, unfolding(crate::specs::Change::change_columns))]
fn add_columns(
    alloc: Global,
    text: &mut Vec<u8>,
    number: usize,
    change: &Change,
    world: &World,
    time: u64,
) -> Result<(), AllocError>
    ensures { OnOk result (text.new.items ≡ text.old.items ++ change_columns number change.now world.now time) }
{
    let number = format!(in alloc; "{number}")?;
    let location = Location(world.loc());
    let location = format!(in alloc; "  {location}  ")?;
    let change = change_text(alloc, change, world)?;
    let time = format!(in alloc; "{time}")?;
    add_right(text, 7, number.as_bytes())?;
    text.extend_from_slice(location.as_bytes())?;
    add_left(text, 17, change.as_bytes())?;
    text.extend_from_slice(b"  ")?;
    add_right(text, 3, time.as_bytes())?;
    text.push(b'u')?;
    Ok(())
}

/// What was done.
pub(crate) fn change_text(
    alloc: Global,
    change: &Change,
    world: &World,
) -> Result<String, AllocError>
    ensures { IfOk result (λ s. string_bytes s ≡ change_text world.now change.now) }
{
    match *change {
        Change::Step => match Place::of(world.loc()) {
            None => Ok(String::new(alloc)),
            Some(place) => {
                let instruction = Instruction(world.cell(place));
                Ok(format!(in alloc; "{instruction}")?)
            }
        },
        Change::SetReg(register, _) => {
            let name = register.name();
            Ok(format!(in alloc; "set {name}")?)
        }
        Change::SetCell(place, _) => {
            let location = Location(place.number());
            Ok(format!(in alloc; "set cell {location}")?)
        }
        Change::SetLoc(_) => Ok(format!(in alloc; "set loc")?),
        Change::SetOver(_) => Ok(format!(in alloc; "set over")?),
        Change::SetCmp(_) => Ok(format!(in alloc; "set cmp")?),
        Change::Break(place) => {
            let location = Location(place.number());
            Ok(format!(in alloc; "break {location}")?)
        }
        Change::Clear(place) => {
            let location = Location(place.number());
            Ok(format!(in alloc; "clear {location}")?)
        }
    }
}

/// What differs between the state after the first changes of all and the state now.
#[tactic(auto, unfolding(crate::specs::Change::diff_text))]
pub(super) fn diff_lines(
    alloc: Global,
    journal: &Journal<World>,
    number: u64,
) -> Result<Vec<u8>, Memory>
    ensures { IfOk result (λ text. text.items ≡ diff_text journal.now number) }
{
    let then = world_at(alloc, journal, number as usize)?;
    let done = journal.done();
    let mut text = format!(in alloc; "diff {number} to {done}\n")?.into_bytes();
    let worlds = Worlds {
        before: &then,
        after: world_of(journal),
    };
    add_differences(alloc, &mut text, worlds)?;
    Ok(text)
}

// Appends all that differs, each item on a line.
fn add_differences(alloc: Global, text: &mut Vec<u8>, worlds: Worlds<'_>) -> Result<(), Memory>
    ensures { OnOk result (text.new.items ≡ text.old.items ++ differences worlds.entry.before.now worlds.entry.after.now) }
{
    let parts = alterations(alloc, worlds.before, worlds.after)?;
    add_item_lines(alloc, text, worlds, &parts)
}

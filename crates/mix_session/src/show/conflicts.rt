//! A conflict in words, and the lines of the changes that conflict with a transfer under way.

ghost use Rattle.std.specs.Prelude.{◌≡◌, ◌<◌, ◌+◌, ◌++◌, Some, OnOk, IfOk, length, string_bytes, take, [], ◌∷◌};
ghost use Rattle.undo_core.specs.Replay.{replay};
ghost use Rattle.mix_machine.specs.Do.{does};
ghost use Rattle.mix_session.specs.Conflicts.{conflict_at, conflict_column, conflict_line_at, conflict_text, conflicts_text, transfer_text, use_text};

use crate::altered::{Worlds, altered_by};
use crate::conflicts::pass;
use crate::show::changes::front_of;
use crate::timeline::first_world;
use mix_machine::{Conflict, Direction, Transfers, UnitKind, World};
use mix_word::Location;
use std::alloc::{AllocError, Global};
use undo_core::{Journal, Kept, Memory};

/// The lines of the changes done that conflict. They are done again, on two copies of the first machine: one is before the change, the other after it.
pub(super) fn conflict_lines(alloc: Global, journal: &Journal<World>) -> Result<Vec<u8>, Memory>
    ensures { IfOk result (λ text. text.items ≡ conflicts_text journal.now) }
{
    let mut text = Vec::new(alloc);
    let mut before = first_world(alloc, journal)?;
    let mut after = before.copied(alloc)?;
    let mut transfers = Transfers::none();
    let mut kept = Kept::new(alloc);
    for number in 0..journal.done() {
        let conflict = pass(journal, number, &mut transfers, &mut after, &mut kept)?;
        add_line(
            &mut text,
            journal,
            number,
            conflict,
            Worlds {
                before: &before,
                after: &after,
            },
        )?;
        journal.redo(number, &mut before, &mut kept)?;
        kept.clear();
    }
    Ok(text)
}

// Appends the line of the change between two states, if it conflicts.
#[tactic(auto, using(crate::proofs::ConflictLemmas::no_line))]
fn add_line(
    text: &mut Vec<u8>,
    journal: &Journal<World>,
    number: usize,
    conflict: Option<Conflict>,
    worlds: Worlds<'_>,
) -> Result<(), Memory>
    requires within { number < length (journal.now.changes ++ journal.now.ahead) }
    requires conflict { conflict ≡ conflict_at journal.now (number + 1) }
    requires before { replay does journal.now.first (take number (journal.now.changes ++ journal.now.ahead)) ≡ Some worlds.before.now }
    requires after { replay does journal.now.first (take (number + 1) (journal.now.changes ++ journal.now.ahead)) ≡ Some worlds.after.now }
    ensures { OnOk result (text.new.items ≡ text.old.items ++ conflict_line_at journal.now (number + 1)) }
{
    match conflict {
        None => Ok(()),
        Some(conflict) => add_line_of(text, journal, number, conflict, worlds),
    }
}

// The same of one that does.
fn add_line_of(
    text: &mut Vec<u8>,
    journal: &Journal<World>,
    number: usize,
    conflict: Conflict,
    worlds: Worlds<'_>,
) -> Result<(), Memory>
    requires within { number < length (journal.now.changes ++ journal.now.ahead) }
    requires conflict { Some conflict ≡ conflict_at journal.now (number + 1) }
    requires before { replay does journal.now.first (take number (journal.now.changes ++ journal.now.ahead)) ≡ Some worlds.before.now }
    requires after { replay does journal.now.first (take (number + 1) (journal.now.changes ++ journal.now.ahead)) ≡ Some worlds.after.now }
    ensures { OnOk result (text.new.items ≡ text.old.items ++ conflict_line_at journal.now (number + 1)) }
{
    let alloc = *text.allocator();
    let change = journal.all().at(number);
    let parts = altered_by(alloc, &change, worlds.before, worlds.after)?;
    let front = front_of(alloc, number + 1, &change, worlds, &parts)?;
    text.extend_from_slice(&front)?;
    add_conflict(alloc, text, conflict)?;
    Ok(())
}

// Appends the end of the line of a change that conflicts.
#[tactic(auto, unfolding(crate::specs::Conflicts::conflict_column))]
fn add_conflict(alloc: Global, text: &mut Vec<u8>, conflict: Conflict) -> Result<(), AllocError>
    ensures { OnOk result (text.new.items ≡ text.old.items ++ (conflict_column conflict ++ 10 ∷ [])) }
{
    let (cell, unit) = (Location(conflict.cell.number()), conflict.unit.number());
    let until = conflict.transfer.until;
    let conflict = format!(in alloc; "  cell {cell}, unit {unit} until {until}\n")?;
    text.extend_from_slice(conflict.as_bytes())
}

/// A conflict in words, as `cell 2001 is altered while unit 18 prints it until 726` (1.3.1). Only out of memory refuses it.
#[tactic(auto, unfolding(crate::specs::Conflicts::conflict_text))]
pub fn conflict_text(alloc: Global, conflict: Conflict) -> Result<String, AllocError>
    ensures { IfOk result (λ s. string_bytes s ≡ conflict_text conflict) }
{
    let (cell, unit) = (Location(conflict.cell.number()), conflict.unit.number());
    let used = use_text(conflict.transfer.way);
    let does = transfer_text(conflict.transfer.way, conflict.unit.kind());
    let until = conflict.transfer.until;
    let text = format!(in alloc; "cell {cell}{used}{unit}{does}{until}")?;
    Ok(text)
}

// How a cell of a transfer is used.
fn use_text(way: Direction) -> &'static str
    ensures { result.now ≡ use_text way }
{
    match way {
        Direction::Input => " is used while unit ",
        Direction::Output => " is altered while unit ",
    }
}

// What a unit does meanwhile.
fn transfer_text(way: Direction, kind: UnitKind) -> &'static str
    ensures { result.now ≡ transfer_text way kind }
{
    match way {
        Direction::Input => " reads into it until ",
        Direction::Output => match kind {
            UnitKind::Printer => " prints it until ",
            UnitKind::Tape
            | UnitKind::Disk
            | UnitKind::CardReader
            | UnitKind::CardPunch
            | UnitKind::Typewriter
            | UnitKind::PaperTape => " writes it until ",
        },
    }
}

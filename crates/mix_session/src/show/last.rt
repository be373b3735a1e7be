//! The lines of the changes that are done: of the last ones, or of those that meet a condition.

ghost use Rattle.std.specs.Prelude.{◌≡◌, ◌≤◌, ◌<◌, ◌+◌, ◌++◌, Some, None, OnOk, IfOk, Ok, length, reverse, take};
ghost use Rattle.undo_core.specs.Replay.{put_back, replay};
ghost use Rattle.mix_machine.specs.Prelude.{does, put_value};
ghost use Rattle.mix_machine.specs.declared.old.Change.{Change};
ghost use Rattle.mix_session.specs.Change.{is_chosen, chosen_line_at, last_lines, writes_text};
ghost use Rattle.mix_session.specs.Each.{texts};

use crate::altered::{Worlds, altered_by_kept};
use crate::condition::Condition;
use crate::show::changes::line_of;
use crate::timeline::{earlier, unwind};
use mix_machine::{Change, Old, World, mark_law};
use std::alloc::{AllocError, Global};
use undo_core::{Journal, Memory, Values};

/// The lines of the last changes that are done, or of all where there are fewer.
pub(crate) fn last_lines(
    alloc: Global,
    journal: &Journal<World>,
    count: u64,
) -> Result<Vec<u8>, Memory>
    ensures { IfOk result (λ text. text.items ≡ last_lines journal.now count) }
{
    let first = journal.done().saturating_sub(count as usize);
    lines_after(alloc, journal, first, None)
}

/// The lines of the changes done that meet a condition on the machines before and after them.
pub(crate) fn write_lines(
    alloc: Global,
    journal: &Journal<World>,
    condition: Condition,
) -> Result<Vec<u8>, Memory>
    ensures { IfOk result (λ text. text.items ≡ writes_text condition journal.now) }
{
    lines_after(alloc, journal, 0, Some(condition))
}

// The lines of the changes done after the first ones, of each that is chosen. They are told from now backwards, by what the journal keeps: no
// change is done again.
fn lines_after(
    alloc: Global,
    journal: &Journal<World>,
    first: usize,
    chosen: Option<Condition>,
) -> Result<Vec<u8>, Memory>
    requires { first ≤ length journal.now.changes }
    ensures { IfOk result (λ text. text.items ≡ texts (chosen_line_at chosen journal.now) (first + 1) (length journal.now.changes + 1)) }
{
    let done = journal.done();
    let mut text = Vec::new(alloc);
    if first == done {
        return Ok(text);
    }
    let (mut before, mut after) = (
        journal.state().copied(alloc)?,
        journal.state().copied(alloc)?,
    );
    let mut past = journal.past();
    let mut number = done;
    while number > first {
        number -= 1;
        let values = earlier(journal, &mut past, number);
        unwind(journal, number, &values, &mut before);
        let worlds = Worlds {
            before: &before,
            after: &after,
        };
        add_chosen(&mut text, journal, number, chosen, &values, worlds)?;
        unwind(journal, number, &values, &mut after);
    }
    text.reverse();
    Ok(text)
}

// Appends the line of the change after the first ones that are done, its last byte first, if it is chosen. It overwrote these values, so that they
// lead from the machine after it to the one before it.
fn add_chosen(
    text: &mut Vec<u8>,
    journal: &Journal<World>,
    number: usize,
    chosen: Option<Condition>,
    values: &Values<'_, Old>,
    worlds: Worlds<'_>,
) -> Result<(), Memory>
    requires within { number < length journal.now.changes }
    requires back { put_back put_value values.now worlds.after.now ≡ Some worlds.before.now }
    requires before { replay does journal.now.first (take number journal.now.changes) ≡ Some worlds.before.now }
    requires after { replay does journal.now.first (take (number + 1) journal.now.changes) ≡ Some worlds.after.now }
    ensures { OnOk result (text.new.items ≡ text.old.items ++ reverse (chosen_line_at chosen journal.now (number + 1))) }
{
    let change = journal.changes().at(number);
    if is_chosen(chosen, worlds) {
        let alloc = *text.allocator();
        let parts = altered_by_kept(alloc, &change, values, worlds)?;
        let line = line_of(alloc, number + 1, &change, worlds, &parts)?;
        add_reversed(text, &line)?;
    }
    Ok(())
}

// Whether the change from one state to another is chosen: each is, or those that meet a condition.
fn is_chosen(chosen: Option<Condition>, worlds: Worlds<'_>) -> bool
    ensures { (c : Change) → does worlds.entry.before.now c ≡ Ok worlds.entry.after.now → result ≡ is_chosen chosen worlds.entry.before.now worlds.entry.after.now }
{
    mark_law();
    match chosen {
        None => true,
        Some(condition) => {
            let before = worlds.before.mark(condition.watched());
            let after = worlds.after.mark(condition.watched());
            condition.is_met(false, &before, &after, &after)
        }
    }
}

// Appends bytes, the last one first.
fn add_reversed(text: &mut Vec<u8>, bytes: &[u8]) -> Result<(), AllocError>
    ensures { OnOk result (text.new.items ≡ text.old.items ++ reverse bytes.now) }
{
    let mut left = bytes.len();
    while left > 0 {
        left -= 1;
        text.push(bytes[left])?;
    }
    Ok(())
}

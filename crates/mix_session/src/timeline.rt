//! The machine that a timeline has come to, and those before and ahead of it.

ghost use Rattle.std.specs.Prelude.{◌≡◌, ◌≤◌, ◌+◌, Some, OnOk, IfOk, length, take};
ghost use Rattle.undo_core.specs.Replay.{replay, TakesBack};
ghost use Rattle.mix_machine.specs.Prelude.{does, put_value};
ghost use Rattle.mix_session.specs.Prelude.{all_changes, world_at, IsMoment, world_of};

use mix_machine::{Old, World};
use std::alloc::Global;
use undo_core::{Journal, Kept, Memory, Past, Undo, Values};

/// The machine after the changes done.
#[tactic(auto, unfolding(crate::specs::Timeline::world_of))]
pub(crate) fn world_of(journal: &Journal<World>) -> &World
    ensures { result.now ≡ world_of journal.now }
{
    journal.state()
}

/// The values that the change after the first ones overwrote, where the past is read down to it.
pub(crate) fn earlier<'a>(
    journal: &Journal<World>,
    past: &mut Past<'a, World>,
    number: usize,
) -> Values<'a, Old>
    requires of { past.old.of ≡ journal.now }
    requires left { past.old.left ≡ number + 1 }
    ensures of { past.new.of ≡ journal.now }
    ensures left { past.new.left ≡ number }
    ensures back { TakesBack does put_value journal.now.first journal.now.changes number result }
{
    match past.earlier() {
        Some(values) => values,
        None => unreachable!(),
    }
}

/// Leads the machine from after a change back to before it, by the values that it overwrote.
pub(crate) fn unwind(
    journal: &Journal<World>,
    number: usize,
    values: &Values<'_, Old>,
    world: &mut World,
)
    requires back { TakesBack does put_value journal.now.first journal.now.changes number values.now }
    requires after { replay does journal.now.first (take (number + 1) journal.now.changes) ≡ Some world.old }
    ensures { replay does journal.now.first (take number journal.now.changes) ≡ Some world.new }
{
    world.restore_all(values);
}

/// The machine after the first changes of all, those done and those ahead: a copy that is led there.
pub(crate) fn led_to(
    alloc: Global,
    journal: &Journal<World>,
    number: usize,
) -> Result<World, Memory>
    requires { number ≤ length (all_changes journal.now) }
    ensures { IfOk result (λ w. IsMoment journal.now number w) }
{
    let mut world = journal.state().copied(alloc)?;
    let mut at = journal.done();
    if number <= at {
        lead_back(journal, number, &mut world);
    } else {
        lead_forth(alloc, journal, number, &mut at, &mut world)?;
    }
    Ok(world)
}

/// In the same way, after all of them where there are fewer.
#[tactic(auto, using(crate::proofs::ChangeLemmas::moment_is))]
pub(crate) fn world_at(
    alloc: Global,
    journal: &Journal<World>,
    number: usize,
) -> Result<World, Memory>
    ensures { IfOk result (λ w. w ≡ world_at journal.now number) }
{
    let least = number.min(journal.all().len());
    led_to(alloc, journal, least)
}

/// The machine before all changes: a copy that is led back there.
pub(crate) fn first_world(alloc: Global, journal: &Journal<World>) -> Result<World, Memory>
    ensures { IfOk result (λ w. w ≡ journal.now.first) }
{
    let mut world = journal.state().copied(alloc)?;
    lead_back(journal, 0, &mut world);
    Ok(world)
}

// Leads the machine back to where it was after the first of the changes done.
fn lead_back(journal: &Journal<World>, number: usize, world: &mut World)
    requires within { number ≤ length journal.now.changes }
    requires now { replay does journal.now.first journal.now.changes ≡ Some world.old }
    ensures { replay does journal.now.first (take number journal.now.changes) ≡ Some world.new }
{
    let mut past = journal.past();
    let mut at = journal.done();
    while at > number {
        at -= 1;
        let values = earlier(journal, &mut past, at);
        unwind(journal, at, &values, world);
    }
}

/// Leads the machine forth from after some first changes of all to after more. Out of memory it stays after those between that are done.
pub(crate) fn lead_forth(
    alloc: Global,
    journal: &Journal<World>,
    number: usize,
    at: &mut usize,
    world: &mut World,
) -> Result<(), Memory>
    requires within { at.old ≤ number }
    requires all { number ≤ length (all_changes journal.now) }
    requires now { IsMoment journal.now at.old world.old }
    ensures at { OnOk result (at.new ≡ number) }
    ensures now { IsMoment journal.now at.new world.new }
{
    let mut kept = Kept::new(alloc);
    while *at < number {
        journal.redo(*at, world, &mut kept)?;
        *at += 1;
        kept.clear();
    }
    Ok(())
}

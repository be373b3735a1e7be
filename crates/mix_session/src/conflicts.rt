//! The transfers that are under way beside a machine, and which changes conflict with one of them.

ghost use Rattle.std.specs.Prelude.{◌≡◌, ◌<◌, ◌+◌, ◌++◌, List, Some, OnOk, IfErr, IfOk, length, take, true, false, is_some, if◌then◌else◌};
ghost use Rattle.undo_core.specs.Replay.{replay};
ghost use Rattle.mix_machine.specs.declared.old.Change.TheVariants.{Step};
ghost use Rattle.mix_machine.specs.Do.{does};
ghost use Rattle.mix_session.specs.Prelude.{conflict_after, transfers_at, conflict_at, Timeline};
ghost use Rattle.mix_session.specs.Known.{has_conflict, Knows, LooksAt, LooksOn};
ghost use Rattle.mix_session.specs.declared.command.stops.Way.{Way as AWay};
ghost use Rattle.mix_session.specs.declared.condition.Condition.{Condition as ACondition};

use crate::command::stops::Way;
use crate::condition::{Condition, has_conflict};
use crate::timeline::{first_world, world_of};
use mix_machine::{Change, Conflict, Old, Transfers, World};
use std::alloc::Global;
use std::marker::Model;
use undo_core::{Journal, Kept, Memory};

/// Leads a machine over the next change after the first ones of all, and the transfers under way too: with what the change conflicts.
pub(crate) fn pass(
    journal: &Journal<World>,
    number: usize,
    transfers: &mut Transfers,
    world: &mut World,
    kept: &mut Kept<Old>,
) -> Result<Option<Conflict>, Memory>
    requires within { number < length (journal.now.changes ++ journal.now.ahead) }
    requires transfers { transfers.old ≡ transfers_at journal.now number }
    requires before { replay does journal.now.first (take number (journal.now.changes ++ journal.now.ahead)) ≡ Some world.old }
    ensures conflict { IfOk result (λ conflict. conflict ≡ conflict_at journal.now (number + 1)) }
    ensures transfers { OnOk result (transfers.new ≡ transfers_at journal.now (number + 1)) }
    ensures after { OnOk result (replay does journal.now.first (take (number + 1) (journal.now.changes ++ journal.now.ahead)) ≡ Some world.new) }
{
    // (a copy, since the checker covers no struct that is passed by value twice)
    let change = journal.all().at(number);
    let again = change;
    let conflict = transfers.conflict(change, world);
    transfers.go(again, world);
    journal.redo(number, world, kept)?;
    Ok(conflict)
}

/// With what the change after the first ones of all conflicts: these are gone over, on a copy of the first machine.
pub(crate) fn conflict_after(
    alloc: Global,
    journal: &Journal<World>,
    number: usize,
) -> Result<Option<Conflict>, Memory>
    ensures is { IfOk result (λ conflict. conflict ≡ conflict_after journal.now number) }
    ensures memory { IfErr result (λ _. number < length (journal.now.changes ++ journal.now.ahead)) }
{
    if number >= journal.all().len() {
        return Ok(None);
    }
    let mut world = first_world(alloc, journal)?;
    let mut transfers = Transfers::none();
    let mut kept = Kept::new(alloc);
    for index in 0..number {
        pass(journal, index, &mut transfers, &mut world, &mut kept)?;
        kept.clear();
    }
    pass(journal, number, &mut transfers, &mut world, &mut kept)
}

/// What a run knows of conflicts while it goes on, where it waits for one.
#[derive(Drop)]
pub(crate) struct Known {
    // Whether it waits for one.
    waits: bool,
    // The transfers under way, for the changes that are done next.
    transfers: Transfers,
    // The number of the last change done that conflicts, or 0 if none does, for those that are taken back.
    last: usize,
}

impl Model for Known {
    ghost use Rattle.mix_session.specs.Known.{KnownState};

    ghost Value = { KnownState };

    ghost view = { λ k. record { waits = k.waits; transfers = k.transfers; last = k.last } };
}

impl Known {
    /// What a run needs to know that waits for no conflict.
    #[inline(always)]
    #[tactic(auto, using(crate::proofs::KnownLemmas::knows_nothing))]
    pub(crate) fn nothing() -> Known
        ensures { (conditions : List ACondition) (way : AWay) (t : Timeline) → has_conflict conditions ≡ false → Knows conditions way result t }
    {
        Known {
            waits: false,
            transfers: Transfers::none(),
            last: 0,
        }
    }

    /// What a run needs to know that waits for a conflict: the changes done are gone over once, on a copy of the first machine.
    #[tactic(auto, using(crate::proofs::KnownLemmas::knows_all, crate::proofs::KnownLemmas::last_none, crate::proofs::KnownLemmas::last_step))]
    pub(crate) fn of(alloc: Global, journal: &Journal<World>) -> Result<Known, Memory>
        ensures { IfOk result (λ known. (conditions : List ACondition) (way : AWay) → has_conflict conditions ≡ true → Knows conditions way known journal.now) }
    {
        let mut world = first_world(alloc, journal)?;
        let mut transfers = Transfers::none();
        let mut kept = Kept::new(alloc);
        let mut last = 0;
        for number in 0..journal.done() {
            let conflict = pass(journal, number, &mut transfers, &mut world, &mut kept)?;
            last = last_of(last, conflict, number + 1);
            kept.clear();
        }
        Ok(Known {
            waits: true,
            transfers,
            last,
        })
    }

    /// The number of the last change done that conflicts, or 0 if none does.
    pub(crate) fn last(&self) -> usize
        ensures { result ≡ self.now.last }
    {
        self.last
    }

    /// Whether a change conflicts that is done next, if it is waited for.
    #[inline(always)]
    pub(crate) fn look_ahead(&mut self, change: Change, journal: &Journal<World>) -> bool
        ensures waits { self.new.waits ≡ self.old.waits }
        ensures last { self.new.last ≡ self.old.last }
        ensures looks { self.old.waits ≡ true → LooksAt change journal.now self.old self.new result }
    {
        if self.waits {
            self.look_at(change, journal)
        } else {
            false
        }
    }

    // Whether a change conflicts that is done next.
    #[inline(never)]
    fn look_at(&mut self, change: Change, journal: &Journal<World>) -> bool
        ensures waits { self.new.waits ≡ self.old.waits }
        ensures last { self.new.last ≡ self.old.last }
        ensures looks { LooksAt change journal.now self.old self.new result }
    {
        // (a copy, since the checker covers no struct that is passed by value twice)
        let again = change;
        let world = world_of(journal);
        let conflict = self.transfers.conflict(change, world);
        self.transfers.go(again, world);
        conflict.is_some()
    }

    /// Whether the next change of a run conflicts, if it is waited for.
    #[inline(always)]
    pub(crate) fn look_on(&mut self, way: Way, journal: &Journal<World>) -> bool
        ensures waits { self.new.waits ≡ self.old.waits }
        ensures last { self.new.last ≡ self.old.last }
        ensures looks { self.old.waits ≡ true → LooksOn way journal.now self.old self.new result }
    {
        match way {
            Way::New | Way::Again => self.waits && self.look_at_step(journal),
            Way::Back => self.waits && self.last == journal.done(),
        }
    }

    // Whether the next step conflicts. (Most have nothing to do with transfers, and these are known by a look.)
    #[inline(always)]
    fn look_at_step(&mut self, journal: &Journal<World>) -> bool
        ensures waits { self.new.waits ≡ self.old.waits }
        ensures last { self.new.last ≡ self.old.last }
        ensures looks { LooksAt Step journal.now self.old self.new result }
    {
        if self.transfers.is_quiet(world_of(journal)) {
            false
        } else {
            self.look_at(Change::Step, journal)
        }
    }
}

/// What a run needs to know that waits for some conditions.
pub(crate) fn known_of(
    alloc: Global,
    journal: &Journal<World>,
    watched: &[Condition],
) -> Result<Known, Memory>
    ensures known { IfOk result (λ known. (way : AWay) → Knows watched.now way known journal.now) }
    ensures memory { IfErr result (λ _. has_conflict watched.now ≡ true) }
{
    if has_conflict(watched) {
        Known::of(alloc, journal)
    } else {
        Ok(Known::nothing())
    }
}

// The number of the last change that conflicts, after one more.
fn last_of(last: usize, conflict: Option<Conflict>, number: usize) -> usize
    ensures { result ≡ (if is_some conflict then number else last) }
{
    match conflict {
        Some(_) => number,
        None => last,
    }
}

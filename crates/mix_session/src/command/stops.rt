//! What stops a run, and which way it goes.

ghost use Rattle.std.specs.Prelude.{◌≡◌, ◌<◌, ◌==◌, ℕ, IfErr, IfOk, IsTrue, Some, None, length, take, if◌then◌else◌};
ghost use Rattle.std.specs.List.{list_any};
ghost use Rattle.std.specs.Option.{option_or};
ghost use Rattle.mix_session.specs.Prelude.{is_at_break, effect_of_run, end_there, AreMarks, first_met, end_by_marks};
ghost use Rattle.mix_session.specs.Stops.{StopsState, is_at_stop};
ghost use Rattle.mix_session.specs.Plain.{IsFree};

use crate::condition::Condition;
use crate::conditions::Conditions;
use crate::reply::End;
use mix_machine::{Mark, Part, Place, World};
use std::alloc::Global;
use std::marker::Model;
use undo_core::{Journal, Memory};

/// Which way a run goes.
#[derive(Clone, Copy)]
pub enum Way {
    /// New steps are done, of which the first drops what stands ahead.
    New,
    /// A step that stands ahead is done again; where none does, a new one is done.
    Again,
    /// Changes are taken back, the last one first.
    Back,
}

/// What stops a run beside a halt, a fault, the start and its number of changes.
#[derive(Drop)]
pub struct Stops<'a> {
    /// Whether the breakpoints of the machine stop it.
    pub breaks: bool,
    /// Further cells at which it stops.
    pub cells: &'a [Place],
    /// What is watched: a run ends with the change that meets one of these, and tells the first that it meets, counted from 0.
    pub watched: &'a [Condition],
    /// A location that is waited for.
    pub location: Option<u16>,
}

impl<'a> Model for Stops<'a> {
    ghost use Rattle.mix_session.specs.Stops.{StopsState};

    ghost Value = { StopsState };

    ghost view = { λ s. record { breaks = s.breaks; cells = s.cells.now; watched = s.watched.now; location = s.location } };
}

/// Whether nothing stops a run that a plain step may come to.
#[inline(always)]
pub(crate) fn is_free(stops: &Stops<'_>, world: &World) -> bool
    ensures { IsTrue result → IsFree stops.now world.now }
{
    if !stops.watched.is_empty() || !stops.cells.is_empty() {
        return false;
    }
    match stops.location {
        Some(_) => return false,
        None => {}
    }
    !stops.breaks || !world.has_breaks()
}

/// The way of a run: where nothing stands ahead, all that it does again is new.
pub(crate) fn way_on(way: Way, journal: &Journal<World>) -> Way
    ensures same { (stops : StopsState) (n : ℕ) → effect_of_run result stops journal.now n ≡ effect_of_run way stops journal.now n }
    ensures back { way ≡ Way.Back → result ≡ Way.Back }
{
    match way {
        Way::Again if journal.ahead() == 0 => Way::New,
        Way::New | Way::Again | Way::Back => way,
    }
}

/// The marks of what is watched.
pub(crate) fn marks_of(
    alloc: Global,
    watched: &[Condition],
    world: &World,
) -> Result<Vec<Mark>, Memory>
    ensures marks { IfOk result (λ marks. AreMarks watched.now marks.items world.now) }
    ensures memory { IfErr result (λ _. 0 < length watched.now) }
{
    let mut marks = Vec::new(alloc);
    for condition in watched {
        marks.push(world.mark(condition.watched()))?;
    }
    Ok(marks)
}

/// The marks of some conditions, which are the first of these marks.
pub(crate) fn marks_at(conditions: &Conditions, world: &World) -> [Mark; Conditions::MOST]
    ensures { AreMarks conditions.now (take (length conditions.now) result) world.now }
{
    let watched = conditions.as_slice();
    let mut marks = [world.mark(Part::Clock); Conditions::MOST];
    for index in 0..watched.len() {
        marks[index] = world.mark(watched[index].watched());
    }
    marks
}

/// Why a run ends after a change, if it does, by whether it conflicts and by the marks before it, which are made those after it.
#[inline(always)]
pub(crate) fn end_of_move(
    halts: bool,
    conflicts: bool,
    stops: &Stops<'_>,
    marks: &mut [Mark],
    world: &World,
) -> Option<End>
    requires { length stops.now.watched ≡ length marks.old }
    ensures end { result ≡ end_by_marks halts conflicts stops.now marks.old world.now }
    ensures marks { AreMarks stops.now.watched marks.new world.now }
{
    let met = first_met(conflicts, stops.watched, marks, world);
    if halts {
        return Some(End::Halt);
    }
    match met {
        Some(index) => Some(End::Until(index)),
        None => end_there(stops, world),
    }
}

// Why a run ends at a state, whichever change led there.
#[inline(always)]
fn end_there(stops: &Stops<'_>, world: &World) -> Option<End>
    ensures { result ≡ end_there stops.now world.now }
{
    if is_at_stop(stops, world) {
        return Some(End::Break);
    }
    match stops.location {
        Some(location) if world.loc() == location => Some(End::Arrived),
        _ => None,
    }
}

// Whether the machine is at a cell where the run stops.
#[inline(always)]
fn is_at_stop(stops: &Stops<'_>, world: &World) -> bool
    ensures { result ≡ is_at_stop stops.now world.now }
{
    stops.breaks && is_at_break(world) || has_cell(stops.cells, world.loc())
}

// Whether the location is a cell that has a breakpoint.
#[inline(always)]
fn is_at_break(world: &World) -> bool
    ensures { result ≡ is_at_break world.now }
{
    match Place::of(world.loc()) {
        Some(place) => world.is_break(place),
        None => false,
    }
}

// Whether a location is one of some cells.
#[inline(always)]
fn has_cell(cells: &[Place], loc: u16) -> bool
    ensures { result ≡ list_any (λ p. p == loc) cells.now }
{
    cells.iter().any(|place| place.number() == loc)
}

/// The first of the conditions that a change meets, by whether it conflicts and by the marks before it, which are made those after it.
#[inline(always)]
pub(crate) fn first_met(
    conflicts: bool,
    watched: &[Condition],
    marks: &mut [Mark],
    world: &World,
) -> Option<usize>
    requires { length watched.now ≡ length marks.old }
    ensures first { result ≡ first_met conflicts 0 watched.now marks.old world.now }
    ensures marks { AreMarks watched.now marks.new world.now }
{
    let mut found = None;
    for index in 0..watched.len() {
        let condition = watched[index];
        let now = world.mark(condition.watched());
        let is_met = condition.is_met(conflicts, &marks[index], &now, &now);
        found = first_of(found, is_met, index);
        marks[index] = now;
    }
    found
}

// The first index that is found, of which `found` is the first before this one.
fn first_of(found: Option<usize>, is_met: bool, index: usize) -> Option<usize>
    ensures { result ≡ option_or found (if is_met then Some index else None) }
{
    match found {
        None if is_met => Some(index),
        found => found,
    }
}

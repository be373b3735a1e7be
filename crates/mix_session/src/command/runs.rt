//! Runs: steps forwards, or changes taken back, until one of the ends holds.

ghost use Rattle.std.specs.Prelude.{◌≡◌, ◌≤◌, ◌<◌, ℕ, IfErr, IfOk, OnErr, [], ◌∷◌, Some, None, true};
ghost use Rattle.mix_session.specs.Prelude.{world_of, begins_with_step, moved, BrokenOff, IsBefore, AreMarks, HasMoved, has_conflict, Knows};
ghost use Rattle.mix_session.specs.Command.{effect_of_run, effect_of_trace, effect_of_back_break, end_of_more, is_halt_done, end_at, HasEffect};
ghost use Rattle.mix_session.specs.Stops.{no_stops, at_breaks, at_breaks_or};

use crate::answer::Answer;
use crate::command::plain::{many_of, plain_steps};
use crate::command::stops::{Stops, Way, end_of_move, marks_at};
use crate::condition::Condition;
use crate::conditions::Conditions;
use crate::conflicts::{Known, known_of};
use crate::reply::End;
use mix_machine::{Change, Mark, World, change_law, mark_law};
use std::alloc::Global;
use undo_core::{Journal, Memory, Refused};

// New steps, which something may stop. (Inlined, so that the loop of a command asks only for what stops that command.)
#[inline(always)]
fn ran(
    journal: &mut Journal<World>,
    count: u32,
    stops: &Stops<'_>,
    marks: &mut [Mark],
    known: &mut Known,
) -> Result<Answer, Memory>
    requires marks { AreMarks stops.now.watched marks.old (world_of journal.old) }
    requires known { Knows stops.now.watched Way.New known.old journal.old }
    ensures effect { HasEffect (effect_of_run Way.New stops.now journal.old count) journal.old journal.new result }
    ensures memory { IfErr result (λ _. IsBefore (effect_of_run Way.New stops.now journal.old count) journal.new) }
{
    let (done, end) = run_on(journal, Way::New, count as usize, stops, marks, known)?;
    Ok(Answer::Ran(done as u32, end))
}

/// `step N`.
pub(crate) fn step(journal: &mut Journal<World>, count: u32) -> Result<Answer, Memory>
    ensures effect { HasEffect (effect_of_run Way.New no_stops journal.old count) journal.old journal.new result }
    ensures memory { IfErr result (λ _. IsBefore (effect_of_run Way.New no_stops journal.old count) journal.new) }
{
    let (stops, mut known) = (stops_at(false, &[]), Known::nothing());
    ran(journal, count, &stops, &mut [], &mut known)
}

/// `run N`.
pub(crate) fn run(journal: &mut Journal<World>, count: u32) -> Result<Answer, Memory>
    ensures effect { HasEffect (effect_of_run Way.New at_breaks journal.old count) journal.old journal.new result }
    ensures memory { IfErr result (λ _. IsBefore (effect_of_run Way.New at_breaks journal.old count) journal.new) }
{
    let (breaks, mut known) = (stops_at(true, &[]), Known::nothing());
    ran(journal, count, &breaks, &mut [], &mut known)
}

/// `run N until COND`, with one condition or several.
pub(crate) fn run_until(
    alloc: Global,
    journal: &mut Journal<World>,
    count: u32,
    conditions: &Conditions,
) -> Result<Answer, Memory>
    ensures effect { HasEffect (effect_of_run Way.New (at_breaks_or conditions.now) journal.old count) journal.old journal.new result }
    ensures memory { IfErr result (λ _.
        BrokenOff (has_conflict conditions.now) (effect_of_run Way.New (at_breaks_or conditions.now) journal.old count) journal.old journal.new) }
{
    let watched = conditions.as_slice();
    let mut known = known_of(alloc, journal, watched)?;
    let mut marks = marks_at(conditions, journal.state());
    let marks = &mut marks[..conditions.len()];
    ran(journal, count, &stops_at(true, watched), marks, &mut known)
}

/// `trace N`.
pub(crate) fn trace(journal: &mut Journal<World>, count: u32) -> Result<Answer, Memory>
    ensures effect { HasEffect (effect_of_trace journal.old count) journal.old journal.new result }
    ensures memory { IfErr result (λ _. IsBefore (effect_of_trace journal.old count) journal.new) }
{
    let (stops, mut known) = (stops_at(false, &[]), Known::nothing());
    let (done, end) = run_on(
        journal,
        Way::New,
        count as usize,
        &stops,
        &mut [],
        &mut known,
    )?;
    Ok(Answer::Traced(done as u32, end))
}

/// `back break`.
pub(crate) fn back_break(journal: &mut Journal<World>) -> Answer
    ensures { HasEffect (effect_of_back_break journal.old) journal.old journal.new (Ok result) }
{
    let all = journal.done();
    let (stops, mut known) = (stops_at(true, &[]), Known::nothing());
    match run_on(journal, Way::Back, all, &stops, &mut [], &mut known) {
        Ok((count, _)) => Answer::Back(count),
        Err(Memory) => unreachable!(),
    }
}

// What stops the commands of a script: breakpoints, or not, and what is waited for.
#[inline(always)]
fn stops_at<'a>(breaks: bool, watched: &'a [Condition]) -> Stops<'a>
    ensures { result ≡ record { breaks = breaks; cells = []; watched = watched.entry.now; location = None } }
{
    Stops {
        breaks,
        cells: &[],
        watched,
        location: None,
    }
}

/// Changes until one of the ends holds, and how many were made. The marks before are those of what is watched, and what is known of conflicts too.
#[inline(always)]
pub(crate) fn run_on(
    journal: &mut Journal<World>,
    way: Way,
    most: usize,
    stops: &Stops<'_>,
    marks: &mut [Mark],
    known: &mut Known,
) -> Result<(usize, End), Memory>
    requires marks { AreMarks stops.now.watched marks.old (world_of journal.old) }
    requires known { Knows stops.now.watched way known.old journal.old }
    ensures first { journal.new.first ≡ journal.old.first }
    ensures moved { IfOk result (λ r. journal.new ≡ moved way journal.old r.0) }
    ensures within { IfOk result (λ r. r.0 ≤ most) }
    ensures end { IfOk result (λ r. end_at way stops.now journal.old most r.0 ≡ Some r.1) }
    ensures least { IfOk result (λ r. (k : ℕ) → k < r.0 → end_at way stops.now journal.old most k ≡ None) }
    ensures memory { IfErr result (λ _. IsBefore (effect_of_run way stops.now journal.old most) journal.new) }
    ensures back { IfErr result (λ _. way ≡ Way.Back → ⊥) }
{
    mark_law();
    change_law();
    let many = many_of(way, stops, marks, journal.state());
    let mut done = 0;
    while done < most {
        let (plain, ended) = plain_steps(journal, &many, stops, marks, most - done);
        done += plain;
        match ended? {
            Some(end) => return Ok((done, end)),
            None => {}
        }
        if done == most {
            return Ok((most, End::Limit));
        }
        let conflicts = known.look_on(way, journal);
        // (last, so that the step needs not read its cell again)
        let halts = is_halt_done(way, journal.state());
        match move_once(journal, way) {
            Ok(None) => {}
            Ok(Some(end)) => return Ok((done, end)),
            Err(Memory) => return Err(Memory),
        }
        match end_of_move(halts, conflicts, stops, marks, journal.state()) {
            Some(end) => return Ok((done + 1, end)),
            None => done += 1,
        }
    }
    Ok((most, End::Limit))
}

// Whether the next change of a run is a halt that is done.
#[inline(always)]
fn is_halt_done(way: Way, world: &World) -> bool
    ensures { result ≡ is_halt_done way world.now }
{
    match way {
        Way::Back => false,
        Way::New | Way::Again => world.next_is_halt(),
    }
}

// One change more of a run; why it cannot be made, if it cannot.
#[inline(always)]
fn move_once(journal: &mut Journal<World>, way: Way) -> Result<Option<End>, Memory>
    ensures moved { IfOk result (HasMoved way journal.old journal.new) }
    ensures memory { OnErr result (journal.new ≡ journal.old) }
    ensures more { OnErr result (end_of_more way journal.old ≡ None) }
    ensures back { OnErr result (way ≡ Way.Back → ⊥) }
{
    match way {
        Way::New => step_forth(journal),
        Way::Again if is_step_ahead(journal) => step_again(journal),
        Way::Again => step_forth(journal),
        Way::Back => Ok(move_back(journal)),
    }
}

// A new step.
#[inline(always)]
fn step_forth(journal: &mut Journal<World>) -> Result<Option<End>, Memory>
    ensures moved { IfOk result (HasMoved Way.New journal.old journal.new) }
    ensures memory { OnErr result (journal.new ≡ journal.old) }
    ensures more { OnErr result (end_of_more Way.New journal.old ≡ None) }
{
    match journal.go(Change::Step) {
        Ok(()) => Ok(None),
        Err(Refused::Fault(fault)) => Ok(Some(End::Fault(fault))),
        Err(Refused::Memory) => Err(Memory),
    }
}

// The step that stands ahead, done again.
fn step_again(journal: &mut Journal<World>) -> Result<Option<End>, Memory>
    requires { begins_with_step journal.old.ahead ≡ true }
    ensures moved { IfOk result (HasMoved Way.Again journal.old journal.new) }
    ensures memory { OnErr result (journal.new ≡ journal.old) }
    ensures more { OnErr result (end_of_more Way.Again journal.old ≡ None) }
{
    let _before = journal.state();
    journal.forth()?;
    let _after = journal.state();
    Ok(None)
}

// The last change, taken back.
fn move_back(journal: &mut Journal<World>) -> Option<End>
    ensures { HasMoved Way.Back journal.old journal.new result }
{
    if journal.back() {
        None
    } else {
        Some(End::Start)
    }
}

// Whether the next change ahead is a step.
fn is_step_ahead(journal: &Journal<World>) -> bool
    ensures { result ≡ begins_with_step journal.now.ahead }
{
    match journal.all().get(journal.done()) {
        Some(change) => is_step(change),
        None => false,
    }
}

fn is_step(change: Change) -> bool
    ensures { result ≡ begins_with_step (change ∷ []) }
{
    matches!(change, Change::Step)
}

//! `back until` and `forth until`: the nearest change that meets one of some conditions.

ghost use Rattle.std.specs.Prelude.{◌≡◌, ◌≤◌, ◌<◌, ◌+◌, IfErr, IfOk, true, false, length};
ghost use Rattle.mix_machine.specs.Part.{mark_before};
ghost use Rattle.mix_session.specs.Prelude.{count_back, effect_of_back_until, effect_of_forth_until, is_met_by, is_reached_forth, least_below, HasEffect, BrokenOff, IsBefore, watched, is_met, is_conflict, last_conflicts, has_conflict, IsLast, Knows, AreMarks, back_by, forth_by, world_of};

use crate::answer::Answer;
use crate::command::go_back;
use crate::command::stops::{Way, first_met, marks_at};
use crate::condition::Condition;
use crate::conditions::Conditions;
use crate::conflicts::{Known, known_of};
use crate::fault::Refusal;
use crate::show::changes::next_change;
use crate::timeline::earlier;
use mix_machine::{Mark, Old, World, mark_before, mark_law};
use std::alloc::Global;
use undo_core::{Journal, Memory, Values};

/// `back until COND`, with one condition or several.
pub(crate) fn back_until(
    alloc: Global,
    journal: &mut Journal<World>,
    conditions: &Conditions,
) -> Result<Answer, Memory>
    ensures effect { HasEffect (effect_of_back_until conditions.now journal.old) journal.old journal.new result }
    ensures memory { IfErr result (λ _. BrokenOff (has_conflict conditions.now) (effect_of_back_until conditions.now journal.old) journal.old journal.new) }
{
    let watched = conditions.as_slice();
    let known = known_of(alloc, journal, watched)?;
    let all = journal.done();
    let count = count_back(journal, watched, &known);
    if count < all {
        go_back(journal, count + 1);
        Ok(Answer::BackUntil(count + 1))
    } else {
        Ok(Answer::Refused(Refusal::NoSuchChange))
    }
}

// How many changes stand after the last one that meets one of the conditions, or all where none does.
fn count_back(journal: &Journal<World>, watched: &[Condition], known: &Known) -> usize
    requires { Knows watched.now Way.Back known.now journal.now }
    ensures { result ≡ count_back watched.now journal.now }
{
    let mut least = journal.done();
    for condition in watched {
        least = count_to(journal, condition, known, least);
    }
    least
}

// How many of the last so many changes stand after the last one of them that meets the condition, or all of these where none does.
#[tactic(auto, using(crate::proofs::KnownLemmas::conflict_back))]
fn count_to(journal: &Journal<World>, condition: &Condition, known: &Known, most: usize) -> usize
    requires within { most ≤ length journal.now.changes }
    requires known { is_conflict condition.now ≡ true → IsLast journal.now known.now.last (length journal.now.changes) }
    ensures { result ≡ least_below most (λ k. is_met_by (last_conflicts (back_by journal.now k)) Way.Back (world_of (back_by journal.now k)) (world_of (back_by journal.now (k + 1))) condition.now) }
{
    match condition {
        Condition::Conflicts => most.min(journal.done() - known.last()),
        Condition::Alters(_) | Condition::At(_) => count_back_to(journal, condition, most),
    }
}

// How many of the last so many changes stand after the last one of them that meets the condition, or all of these where none does. It reads what the
// journal keeps.
fn count_back_to(journal: &Journal<World>, condition: &Condition, most: usize) -> usize
    requires within { most ≤ length journal.now.changes }
    requires marked { is_conflict condition.now ≡ false }
    ensures { result ≡ least_below most (λ k. is_met_by (last_conflicts (back_by journal.now k)) Way.Back (world_of (back_by journal.now k)) (world_of (back_by journal.now (k + 1))) condition.now) }
{
    mark_law();
    let mut mark = journal.state().mark(condition.watched());
    let all = journal.done();
    let mut past = journal.past();
    for count in 0..most {
        let kept = earlier(journal, &mut past, all - 1 - count);
        let (before, is_met) = step_back(condition, &kept, &mark);
        if is_met {
            return count;
        }
        mark = before;
    }
    most
}

// The mark before a change that kept these values, and whether taking the change back meets the condition.
fn step_back(condition: &Condition, kept: &Values<'_, Old>, mark: &Mark) -> (Mark, bool)
    ensures before { result.0 ≡ mark_before kept.now (watched condition.now) mark.now }
    ensures met { result.1 ≡ is_met condition.now false result.0 mark.now result.0 }
{
    let before = mark_before(kept, condition.watched(), *mark);
    let is_met = condition.is_met(false, &before, mark, &before);
    (before, is_met)
}

/// `forth until COND`, with one condition or several.
pub(crate) fn forth_until(
    alloc: Global,
    journal: &mut Journal<World>,
    conditions: &Conditions,
) -> Result<Answer, Memory>
    ensures effect { HasEffect (effect_of_forth_until conditions.now journal.old) journal.old journal.new result }
    ensures memory { IfErr result (λ _. BrokenOff (has_conflict conditions.now) (effect_of_forth_until conditions.now journal.old) journal.old journal.new) }
{
    let watched = conditions.as_slice();
    let mut known = known_of(alloc, journal, watched)?;
    let mut marks = marks_at(conditions, journal.state());
    let marks = &mut marks[..conditions.len()];
    seek_forth(journal, watched, marks, &mut known)
}

// The marks are those of what is watched, and what is known of conflicts too.
fn seek_forth(
    journal: &mut Journal<World>,
    watched: &[Condition],
    marks: &mut [Mark],
    known: &mut Known,
) -> Result<Answer, Memory>
    requires marks { AreMarks watched.now marks.old (world_of journal.old) }
    requires known { Knows watched.now Way.Again known.old journal.old }
    ensures effect { HasEffect (effect_of_forth_until watched.now journal.old) journal.old journal.new result }
    ensures memory { IfErr result (λ _. IsBefore (effect_of_forth_until watched.now journal.old) journal.new) }
{
    let all = journal.ahead();
    for done in 0..all {
        if step_forth(journal, watched, marks, known)? {
            return Ok(Answer::ForthUntil(done + 1));
        }
    }
    go_back(journal, all);
    Ok(Answer::Refused(Refusal::NoSuchChange))
}

// Does the next change ahead again, and tells whether it meets one of the conditions, by the marks before it, which are made those after it.
fn step_forth(
    journal: &mut Journal<World>,
    watched: &[Condition],
    marks: &mut [Mark],
    known: &mut Known,
) -> Result<bool, Memory>
    requires some { 0 < length journal.old.ahead }
    requires marks { AreMarks watched.now marks.old (world_of journal.old) }
    requires known { Knows watched.now Way.Again known.old journal.old }
    ensures forth { IfOk result (λ _. journal.new ≡ forth_by journal.old 1) }
    ensures met { IfOk result (λ b. b ≡ is_reached_forth watched.now journal.old 0) }
    ensures after { IfOk result (λ _. AreMarks watched.now marks.new (world_of journal.new)) }
    ensures knows { IfOk result (λ _. Knows watched.now Way.Again known.new journal.new) }
    ensures memory { IfErr result (λ _. journal.new ≡ journal.old) }
{
    mark_law();
    let _before = journal.state();
    let change = next_change(journal);
    let conflicts = known.look_ahead(change, journal);
    journal.forth()?;
    let after = journal.state();
    Ok(first_met(conflicts, watched, marks, after).is_some())
}

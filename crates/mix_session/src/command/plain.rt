//! Plain steps of a run, many at a time.

ghost use Rattle.std.specs.Prelude.{◌≡◌, ◌≤◌, ◌<◌, Err, Some, IfOk, IfSome, None, OnOk, OnErr, true, false, length};
ghost use Rattle.mix_machine.specs.Many.{ends_at};
ghost use Rattle.mix_session.specs.Plain.{AllowsMany, ArePlain, AreSteps, HasEnd, IsLeft, LeavesOff, locations_of, watch_for};

use crate::command::stops::{Stops, Way, end_of_move, is_free};
use crate::condition::Condition;
use crate::reply::End;
use crate::timeline::world_of;
use mix_machine::{Change, Many, Mark, MixFault, Seen, Watch, World};
use undo_core::{Journal, Memory, Refused};

// So many steps are done at a time, at most.
const MOST_AT_ONCE: usize = 1 << 30;

/// What the plain steps of a run stop at, where they may be done many at a time: of new ones, which
/// wait for no conflict, and for one condition at most.
#[inline(always)]
pub(crate) fn many_of(way: Way, stops: &Stops<'_>, marks: &[Mark], world: &World) -> Option<Many>
    requires { length stops.now.watched ≡ length marks.now }
    ensures { IfSome result (λ many. AllowsMany way stops.now marks.now world.now.breaks many) }
{
    match way {
        Way::New => {}
        Way::Again | Way::Back => return None,
    }
    if is_free(stops, world) {
        return Some(Many::Freely);
    }
    match watch_of(stops, marks, world) {
        Some(watch) => Some(Many::Until(watch)),
        None => None,
    }
}

// What the plain steps of another run stop at.
fn watch_of(stops: &Stops<'_>, marks: &[Mark], world: &World) -> Option<Watch>
    requires { length stops.now.watched ≡ length marks.now }
    ensures is { IfSome result (λ watch. watch_for stops.now.watched marks.now (locations_of stops.now world.now) ≡ Some watch) }
    ensures long { IfSome result (λ watch. length world.now.breaks ≡ 4000) }
{
    let mut watch = Watch::of(world, stops.breaks);
    watch.add_all(stops.cells);
    watch.add_location(stops.location);
    if stops.watched.is_empty() {
        return Some(watch);
    }
    if stops.watched.len() > 1 {
        return None;
    }
    match stops.watched[0] {
        Condition::Alters(part) => {
            watch.see(Seen {
                part,
                mark: marks[0],
            });
            Some(watch)
        }
        Condition::At(place) => {
            watch.add(place);
            Some(watch)
        }
        Condition::Conflicts => None,
    }
}

/// The plain steps that come next, so many at most, if the run may do them many at a time: how many
/// are done, and why it ends there, if it does, by the marks before them, which are made those after
/// them; or that memory is out for one more. (A step that has a fault is left to the ordinary change
/// after them, which says why.)
#[inline(always)]
pub(crate) fn plain_steps(
    journal: &mut Journal<World>,
    many: &Option<Many>,
    stops: &Stops<'_>,
    marks: &mut [Mark],
    most: usize,
) -> (usize, Result<Option<End>, Memory>)
    requires { length stops.now.watched ≡ length marks.old }
    ensures within { result.0 ≤ most }
    ensures steps { AreSteps many.now result.0 journal.old journal.new }
    ensures end { IfOk result.1 (λ end. HasEnd stops.now marks.old marks.new result.0 journal.new end) }
    ensures left { OnErr result.1 (LeavesOff many.now result.0 most journal.new) }
{
    match many {
        None => (0, Ok(None)),
        Some(many) => steps_until(journal, many, stops, marks, most),
    }
}

// The same of a run that may. (Apart, so that it stands not in the loop of each run.)
#[inline(never)]
fn steps_until(
    journal: &mut Journal<World>,
    many: &Many,
    stops: &Stops<'_>,
    marks: &mut [Mark],
    most: usize,
) -> (usize, Result<Option<End>, Memory>)
    requires { length stops.now.watched ≡ length marks.old }
    ensures within { result.0 ≤ most }
    ensures plain { ArePlain (ends_at many.now) result.0 journal.old journal.new }
    ensures end { IfOk result.1 (λ end. HasEnd stops.now marks.old marks.new result.0 journal.new end) }
    ensures left { OnErr result.1 (IsLeft (ends_at many.now) result.0 most journal.new) }
{
    if most == 0 || !journal.state().next_is_plain() {
        return (0, Ok(None));
    }
    let (done, answer) = journal.go_many(Change::Step, most.min(MOST_AT_ONCE), many);
    match unless_fault(answer, done < most) {
        Err(Memory) => return (done, Err(Memory)),
        Ok(()) => {}
    }
    if done == 0 {
        return (0, Ok(None));
    }
    let end = end_of_move(false, false, stops, marks, world_of(journal));
    (done, Ok(end))
}

// What steps come to, but for a fault, where more are left to be done.
fn unless_fault(answer: Result<(), Refused<MixFault>>, more: bool) -> Result<(), Memory>
    ensures memory { OnErr result (answer ≡ Err Refused.Memory) }
    ensures more { OnErr result (more ≡ true) }
    ensures other { OnOk result (answer ≡ Err Refused.Memory → more ≡ false) }
{
    match answer {
        Err(Refused::Memory) => if more { Err(Memory) } else { Ok(()) },
        Err(Refused::Fault(_)) | Ok(()) => Ok(()),
    }
}

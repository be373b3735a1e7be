//! What a request does to the journal, and what is answered.

ghost use Rattle.std.specs.Prelude.{◌≡◌, ◌≤◌, ◌<◌, ℕ, IfErr, IfOk, Ok, length};
ghost use Rattle.mix_session.specs.Timeline.{back_by, forth_by};
ghost use Rattle.mix_session.specs.Command.{effect_of, effect_of_back, effect_of_back_within, effect_of_forth, effect_of_forth_within, effect_of_change};
ghost use Rattle.mix_session.specs.Command.{effect_of_show, HasEffect};
ghost use Rattle.mix_session.specs.BrokenOff.{asks_first, BrokenOff, IsBefore};

mod plain;
pub(crate) mod runs;
pub(crate) mod stops;
mod until;

use crate::answer::Answer;
use crate::command::runs::{back_break, run, run_until, step, trace};
use crate::command::until::{back_until, forth_until};
use crate::fault::Refusal;
use crate::request::{Request, Topic};
use mix_machine::{Change, World};
use std::alloc::Global;
use undo_core::{Journal, Memory, Refused};

/// Does what a request asks for.
#[tactic(auto, unfolding(crate::specs::Command::effect_of))]
pub(crate) fn execute(
    alloc: Global,
    journal: &mut Journal<World>,
    request: Request,
) -> Result<Answer, Memory>
    ensures effect { HasEffect (effect_of journal.old request) journal.old journal.new result }
    ensures memory { IfErr result (λ _. BrokenOff (asks_first request) (effect_of journal.old request) journal.old journal.new) }
{
    match request {
        Request::Nothing => Ok(Answer::Nothing),
        Request::Step(count) => step(journal, count),
        Request::Trace(count) => trace(journal, count),
        Request::Run(count) => run(journal, count),
        Request::RunUntil(count, conditions) => run_until(alloc, journal, count, &conditions),
        Request::Back(count) => Ok(back(journal, count)),
        Request::BackAll => {
            let count = journal.done();
            Ok(take_back(journal, count))
        }
        Request::BackBreak => Ok(back_break(journal)),
        Request::BackUntil(conditions) => back_until(alloc, journal, &conditions),
        Request::Forth(count) => forth(journal, count),
        Request::ForthAll => {
            let count = journal.ahead();
            do_again(journal, count)
        }
        Request::ForthUntil(conditions) => forth_until(alloc, journal, &conditions),
        Request::Goto(number) => {
            let done = journal.done() as u64;
            if number < done {
                Ok(take_back(journal, (done - number) as usize))
            } else {
                forth(journal, number - done)
            }
        }
        Request::Change(change) => change_by(journal, change),
        Request::Show(topic) => Ok(show(journal, topic)),
    }
}

fn back(journal: &mut Journal<World>, count: u64) -> Answer
    ensures { HasEffect (effect_of_back_within journal.old count) journal.old journal.new (Ok result) }
{
    if (journal.done() as u64) < count {
        return Answer::Refused(Refusal::TooFewChanges);
    }
    take_back(journal, count as usize)
}

fn take_back(journal: &mut Journal<World>, count: usize) -> Answer
    requires { count ≤ length journal.old.changes }
    ensures { HasEffect (effect_of_back journal.old count) journal.old journal.new (Ok result) }
{
    go_back(journal, count);
    Answer::Back(count)
}

/// Takes back the last changes.
pub(crate) fn go_back(journal: &mut Journal<World>, count: usize)
    requires { count ≤ length journal.old.changes }
    ensures { journal.new ≡ back_by journal.old count }
{
    let mut taken = 0;
    while taken < count {
        taken += journal.back_many(count - taken);
    }
}

fn forth(journal: &mut Journal<World>, count: u64) -> Result<Answer, Memory>
    ensures effect { HasEffect (effect_of_forth_within journal.old count) journal.old journal.new result }
    ensures memory { IfErr result (λ _. IsBefore (effect_of_forth_within journal.old count) journal.new) }
{
    if (journal.ahead() as u64) < count {
        return Ok(Answer::Refused(Refusal::TooFewChanges));
    }
    do_again(journal, count as usize)
}

fn do_again(journal: &mut Journal<World>, count: usize) -> Result<Answer, Memory>
    requires { count ≤ length journal.old.ahead }
    ensures effect { HasEffect (effect_of_forth journal.old count) journal.old journal.new result }
    ensures memory { IfErr result (λ _. IsBefore (effect_of_forth journal.old count) journal.new) }
{
    go_forth(journal, count)?;
    Ok(Answer::Forth(count))
}

// Does the next changes ahead again, one at a time.
fn go_forth(journal: &mut Journal<World>, count: usize) -> Result<(), Memory>
    requires { count ≤ length journal.old.ahead }
    ensures forth { IfOk result (λ _. journal.new ≡ forth_by journal.old count) }
    ensures memory { IfErr result (λ _. (k : ℕ) × (k < count) × (journal.new ≡ forth_by journal.old k)) }
{
    for done in 0..count {
        journal.forth()?;
    }
    Ok(())
}

// Makes one change of the machine.
fn change_by(journal: &mut Journal<World>, change: Change) -> Result<Answer, Memory>
    ensures effect { HasEffect (effect_of_change journal.old change) journal.old journal.new result }
    ensures memory { IfErr result (λ _. IsBefore (effect_of_change journal.old change) journal.new) }
{
    match journal.go(change) {
        Ok(()) => Ok(Answer::Done),
        Err(Refused::Fault(fault)) => Ok(Answer::Refused(Refusal::RefusedByMachine(fault))),
        Err(Refused::Memory) => Err(Memory),
    }
}

// What is shown, if there is the state that it is shown of.
fn show(journal: &mut Journal<World>, topic: Topic) -> Answer
    ensures { HasEffect (effect_of_show journal.old topic) journal.old journal.new (Ok result) }
{
    match topic {
        Topic::Diff(number) if number > journal.all().len() as u64 => {
            Answer::Refused(Refusal::TooFewChanges)
        }
        _ => Answer::Shows(topic),
    }
}

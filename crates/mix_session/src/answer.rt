//! What a request answers, as a value; its text is made of it and of the machine.

ghost use Rattle.std.specs.Prelude.{◌≡◌, ◌++◌, IfOk, string_bytes};
ghost use Rattle.mix_session.specs.Answer.{refusal_of, told_of, told_before, text_of};

use crate::fault::Refusal;
use crate::reply::{End, Told, moved_line, ok_line, ran_line, refused_line};
use crate::request::Topic;
use crate::show::changes::next_line;
use crate::show::last::last_lines;
use crate::show::topic_lines;
use crate::timeline::world_of;
use mix_machine::World;
use mixal_asm::Program;
use std::alloc::Global;
use undo_core::{Journal, Memory};

/// What became of a request: nothing was asked; so many steps were done, and why no more, told one by one or not; so many changes were taken back
/// or done again, of which the last one met a condition or not; a change was made; something is to be shown; or it was refused.
#[derive(Clone, Copy)]
pub enum Answer {
    Nothing,
    Ran(u32, End),
    Traced(u32, End),
    Back(usize),
    BackUntil(usize),
    Forth(usize),
    ForthUntil(usize),
    Done,
    Shows(Topic),
    Refused(Refusal),
}

impl Answer {
    /// Whether the request was accepted: a refusal is not, nor are steps that a fault ends.
    pub fn told(self) -> Told
        ensures { result ≡ told_of self }
    {
        match self {
            Answer::Ran(_, end) | Answer::Traced(_, end) => end.told(),
            Answer::Refused(_) => Told::Refused,
            Answer::Nothing
            | Answer::Back(_)
            | Answer::BackUntil(_)
            | Answer::Forth(_)
            | Answer::ForthUntil(_)
            | Answer::Done
            | Answer::Shows(_) => Told::Accepted,
        }
    }

    /// Why the request was refused, if it was.
    pub fn refusal(self) -> Option<Refusal>
        ensures { result ≡ refusal_of self }
    {
        match self {
            Answer::Refused(refusal) => Some(refusal),
            Answer::Nothing
            | Answer::Ran(..)
            | Answer::Traced(..)
            | Answer::Back(_)
            | Answer::BackUntil(_)
            | Answer::Forth(_)
            | Answer::ForthUntil(_)
            | Answer::Done
            | Answer::Shows(_) => None,
        }
    }
}

/// The text of an answer, of a program and its journal.
#[tactic(auto, unfolding(crate::specs::Answer::text_of))]
pub(crate) fn answer_text(
    alloc: Global,
    answer: Answer,
    program: &Program,
    journal: &Journal<World>,
) -> Result<Vec<u8>, Memory>
    ensures { IfOk result (λ text. text.items ≡ text_of answer program.now journal.now) }
{
    let world = world_of(journal);
    match answer {
        Answer::Nothing => Ok(Vec::new(alloc)),
        Answer::Ran(done, end) => {
            let lines = last_lines(alloc, journal, told_before(end))?;
            joined(lines, ran_line(alloc, done, world, end)?)
        }
        Answer::Traced(done, end) => {
            let lines = last_lines(alloc, journal, u64::from(done))?;
            joined(lines, ran_line(alloc, done, world, end)?)
        }
        Answer::Back(count) => Ok(moved_line(alloc, "back", count, world)?.into_bytes()),
        Answer::BackUntil(count) => {
            let line = next_line(alloc, journal)?;
            joined(line, moved_line(alloc, "back", count, world)?)
        }
        Answer::Forth(count) => Ok(moved_line(alloc, "forth", count, world)?.into_bytes()),
        Answer::ForthUntil(count) => {
            let line = last_lines(alloc, journal, 1)?;
            joined(line, moved_line(alloc, "forth", count, world)?)
        }
        Answer::Done => Ok(ok_line(alloc)?.into_bytes()),
        Answer::Shows(topic) => topic_lines(alloc, topic, program, journal),
        Answer::Refused(refusal) => Ok(refused_line(alloc, refusal)?.into_bytes()),
    }
}

// How many changes are told before the line of steps: the one that met what was waited for.
fn told_before(end: End) -> u64
    ensures { result ≡ told_before end }
{
    match end {
        End::Until(_) => 1,
        End::Halt | End::Break | End::Arrived | End::Limit | End::Start | End::Fault(_) => 0,
    }
}

// A line after others.
fn joined(lines: Vec<u8>, line: String) -> Result<Vec<u8>, Memory>
    ensures { IfOk result (λ text. text.items ≡ lines.items ++ string_bytes line) }
{
    if lines.is_empty() {
        return Ok(line.into_bytes());
    }
    let mut text = lines;
    text.extend_from_slice(line.as_bytes())?;
    Ok(text)
}

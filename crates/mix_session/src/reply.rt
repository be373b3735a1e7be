//! The lines of the replies, and what they tell.

ghost use Rattle.std.specs.Prelude.{◌≡◌, Some, IfOk, string_bytes};
ghost use Rattle.mix_session.specs.Reply.{told_of_end, told_of_both, position_text, end_text, ran_text, moved_text, ok_text, refused_text};

use crate::fault::Refusal;
use mix_machine::{MixFault, World};
use mix_word::Location;
use std::alloc::{AllocError, Global};
use std::fmt;

/// The outcome of a command.
#[derive(Clone, Copy)]
pub enum Told {
    Accepted,
    Refused,
}

impl Told {
    /// Accepted where both are.
    pub fn and(self, next: Told) -> Told
        ensures { result ≡ told_of_both self next }
    {
        match self {
            Told::Accepted => next,
            Told::Refused => Told::Refused,
        }
    }
}

/// Why a run made no more changes.
#[derive(Clone, Copy)]
pub enum End {
    /// The last step was a halt.
    Halt,
    /// The last change met what is watched: the first of it that it met, counted from 0.
    Until(usize),
    /// The location is a cell at which the run stops.
    Break,
    /// The location is the one that was waited for.
    Arrived,
    /// As many changes were made as asked.
    Limit,
    /// No change is left to be taken back.
    Start,
    /// One more step is this fault.
    Fault(MixFault),
}

impl End {
    /// Only a fault refuses.
    pub(crate) fn told(self) -> Told
        ensures { result ≡ told_of_end self }
    {
        match self {
            End::Halt | End::Until(_) | End::Break | End::Arrived | End::Limit | End::Start =>
                Told::Accepted,
            End::Fault(_) => Told::Refused,
        }
    }
}

impl fmt::Display for End {
    ghost output = { λ end. Some (end_text end) };

    fn fmt<W: fmt::Write>(&self, f: &mut fmt::Formatter<W>) -> fmt::Result {
        match self {
            End::Halt => write!(f, "halt"),
            End::Until(_) => write!(f, "until"),
            End::Break => write!(f, "break"),
            End::Arrived => write!(f, "arrived"),
            End::Limit => write!(f, "limit"),
            End::Start => write!(f, "start"),
            End::Fault(fault) => write!(f, "fault {fault}"),
        }
    }
}

/// Where the machine stands: its location and its clock.
#[derive(Clone, Copy)]
pub(crate) struct Position {
    loc: u16,
    clock: u64,
}

impl fmt::Display for Position {
    ghost output = { λ s. Some (position_text s.loc s.clock) };

    #[tactic(auto, unfolding(crate::specs::Reply::position_text))]
    fn fmt<W: fmt::Write>(&self, f: &mut fmt::Formatter<W>) -> fmt::Result {
        let loc = Location(self.loc);
        let clock = self.clock;
        write!(f, "{loc} clock {clock}")
    }
}

pub(crate) fn position_of(world: &World) -> Position
    ensures { (result.loc ≡ world.now.loc) × (result.clock ≡ world.now.clock) }
{
    Position {
        loc: world.loc(),
        clock: world.clock(),
    }
}

/// The line of `step` and `run`.
#[tactic(auto, unfolding(crate::specs::Reply::ran_text))]
pub(crate) fn ran_line(
    alloc: Global,
    done: u32,
    world: &World,
    end: End,
) -> Result<String, AllocError>
    ensures { IfOk result (λ s. string_bytes s ≡ ran_text done world.now.loc world.now.clock end) }
{
    let position = position_of(world);
    let text = format!(in alloc; "ran {done} to {position}: {end}\n")?;
    Ok(text)
}

/// The line of `back` and of `forth`, by its first word.
#[tactic(auto, unfolding(crate::specs::Reply::moved_text))]
pub(crate) fn moved_line(
    alloc: Global,
    way: &str,
    count: usize,
    world: &World,
) -> Result<String, AllocError>
    ensures { IfOk result (λ s. string_bytes s ≡ moved_text way.now count world.now.loc world.now.clock) }
{
    let position = position_of(world);
    let text = format!(in alloc; "{way} {count} to {position}\n")?;
    Ok(text)
}

/// The line of a refused command.
#[tactic(auto, unfolding(crate::specs::Reply::refused_text))]
pub(crate) fn refused_line(alloc: Global, refusal: Refusal) -> Result<String, AllocError>
    ensures { IfOk result (λ s. string_bytes s ≡ refused_text refusal) }
{
    let text = format!(in alloc; "? {refusal}\n")?;
    Ok(text)
}

/// The line of a change that is done.
pub(crate) fn ok_line(alloc: Global) -> Result<String, AllocError>
    ensures { IfOk result (λ s. string_bytes s ≡ ok_text) }
{
    let text = format!(in alloc; "ok\n")?;
    Ok(text)
}

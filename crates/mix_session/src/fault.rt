//! The refusals of a command: a number and a text each.
ghost use Rattle.std.specs.Prelude.{◌≡◌, Some};
ghost use Rattle.mix_session.specs.Fault.{refusal_number, refusal_name, refusal_text};

use mix_machine::MixFault;
use std::fmt;

/// Why a command is refused: C1 to C6, in the order of their numbers.
#[derive(Clone, Copy)]
pub enum Refusal {
    NoSuchCommand,
    BadArgument,
    OutOfRange,
    TooFewChanges,
    RefusedByMachine(MixFault),
    NoSuchChange,
}

impl Refusal {
    /// The number after the letter C, 1 to 6.
    pub fn number(self) -> u8
        ensures { result ≡ refusal_number self }
    {
        match self {
            Refusal::NoSuchCommand => 1,
            Refusal::BadArgument => 2,
            Refusal::OutOfRange => 3,
            Refusal::TooFewChanges => 4,
            Refusal::RefusedByMachine(_) => 5,
            Refusal::NoSuchChange => 6,
        }
    }

    /// The words after the number; then comes the fault of the machine, if it is one.
    pub fn text(self) -> &'static str
        ensures { result.now ≡ refusal_name self }
    {
        match self {
            Refusal::NoSuchCommand => "no such command",
            Refusal::BadArgument => "bad argument",
            Refusal::OutOfRange => "number out of range",
            Refusal::TooFewChanges => "fewer changes than asked",
            Refusal::RefusedByMachine(_) => "refused by the machine",
            Refusal::NoSuchChange => "no such change",
        }
    }
}

impl fmt::Display for Refusal {
    ghost output = { λ refusal. Some (refusal_text refusal) };

    fn fmt<W: fmt::Write>(&self, f: &mut fmt::Formatter<W>) -> fmt::Result {
        write!(f, "C{} {}", self.number(), self.text())?;
        match self {
            Refusal::RefusedByMachine(fault) => write!(f, ": {fault}"),
            Refusal::NoSuchCommand
            | Refusal::BadArgument
            | Refusal::OutOfRange
            | Refusal::TooFewChanges
            | Refusal::NoSuchChange => Ok(()),
        }
    }
}

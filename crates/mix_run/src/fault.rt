//! The faults of the runs: a number and a text each.

ghost use Rattle.std.specs.Prelude.{◌≡◌, Some};
ghost use Rattle.mix_run.specs.Fault.{fault_of_read, tool_fault_text, tool_number, tool_text};
ghost use Rattle.mix_run.specs.declared.fault.ToolFault.TheVariants.{Memory as memory, Write as write};

use mix_machine::DeckFault;
use mix_refused::{Memory, Refused};
use mix_stream::Failed;
use std::fmt;

/// What ends a whole call of the tool: T1, T2, T3, T5 and T6, in the order of their numbers.
#[derive(Clone, Copy)]
pub enum ToolFault {
    Memory,
    Read,
    Write,
    Deck(DeckFault),
    Long,
}

impl ToolFault {
    /// The number after the letter T: 1, 2, 3, 5 or 6.
    pub fn number(self) -> u8
        ensures { result ≡ tool_number self }
    {
        match self {
            ToolFault::Memory => 1,
            ToolFault::Read => 2,
            ToolFault::Write => 3,
            ToolFault::Deck(_) => 5,
            ToolFault::Long => 6,
        }
    }

    /// The words after the number; a deck's own fault stands after them.
    pub fn text(self) -> &'static str
        ensures { result.now ≡ tool_text self }
    {
        match self {
            ToolFault::Memory => "out of memory",
            ToolFault::Read => "read failed",
            ToolFault::Write => "write failed",
            ToolFault::Deck(_) => "deck refused",
            ToolFault::Long => "input too long",
        }
    }
}

impl fmt::Display for ToolFault {
    ghost output = { λ fault. Some (tool_fault_text fault) };

    fn fmt<W: fmt::Write>(&self, f: &mut fmt::Formatter<W>) -> fmt::Result {
        write!(f, "T{} {}", self.number(), self.text())?;
        match self {
            ToolFault::Deck(fault) => write!(f, " at {fault}"),
            _ => Ok(()),
        }
    }
}

impl From<Memory> for ToolFault {
    ghost from_gives = { λ _ fault. fault ≡ memory };

    fn from(_: Memory) -> ToolFault {
        ToolFault::Memory
    }
}

/// A write that failed; a read that fails comes as a `Refused`.
impl From<Failed> for ToolFault {
    ghost from_gives = { λ _ fault. fault ≡ write };

    fn from(_: Failed) -> ToolFault {
        ToolFault::Write
    }
}

impl From<Refused<Failed>> for ToolFault {
    ghost from_gives = { λ read fault. fault ≡ fault_of_read read };

    fn from(fault: Refused<Failed>) -> ToolFault {
        match fault {
            Refused::Memory => ToolFault::Memory,
            Refused::Fault(Failed) => ToolFault::Read,
        }
    }
}

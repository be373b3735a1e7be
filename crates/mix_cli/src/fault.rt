//! What is answered to a command line that gives no plan.

ghost use Rattle.std.specs.Prelude.{◌≡◌};
ghost use Rattle.clap.specs.Values.{kind_of};
ghost use Rattle.clap.specs.declared.error.kind.ErrorKind.TheVariants.{OutOfMemory};
ghost use Rattle.mix_cli.specs.Fault.{IsFaultOf, status_of_fault};
ghost use Rattle.mix_cli.specs.declared.fault.LineFault.TheVariants.{Memory as memory};

use crate::vain::Vain;
use clap::Error;
use clap::error::ErrorKind;
use std::alloc::AllocError;

/// Why a command line gives no plan: its words are a mistake or ask for help or the version, some of
/// its options say nothing together, or memory is refused.
#[derive(Drop)]
pub enum LineFault {
    /// The text that help shows, the version, or what names the mistake.
    Line(Error),
    /// Options that say nothing together.
    Vain(Vain),
    Memory,
}

impl From<Error> for LineFault {
    ghost from_gives = { IsFaultOf };

    fn from(error: Error) -> LineFault {
        match error.kind() {
            ErrorKind::OutOfMemory => LineFault::Memory,
            _ => LineFault::Line(error),
        }
    }
}

impl From<AllocError> for LineFault {
    ghost from_gives = { λ _ fault. fault ≡ memory };

    fn from(_: AllocError) -> LineFault {
        LineFault::Memory
    }
}

/// The status where the tool itself fails, or the words are a mistake.
pub const FAILED: u8 = 2;

/// The status that the program ends with: 0 where help or the version was asked for, and else 2.
pub fn line_status(fault: &LineFault) -> u8
    ensures { result ≡ status_of_fault fault.now }
{
    match fault {
        LineFault::Line(error) => match error.kind() {
            ErrorKind::DisplayHelp | ErrorKind::DisplayVersion => 0,
            _ => FAILED,
        },
        LineFault::Vain(_) | LineFault::Memory => FAILED,
    }
}

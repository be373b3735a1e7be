//! What ends a talk before the client is done.

ghost use Rattle.std.specs.Prelude.{◌≡◌, Some};
ghost use Rattle.rpc_stream.specs.Broken.{broken_text};
ghost use Rattle.rpc_stream.specs.declared.broken.Broken.TheVariants.{Memory as memory, Write as write};

use mix_refused::Memory;
use mix_stream::Failed;
use std::alloc::AllocError;
use std::fmt;

/// What ends a talk before the client is done.
#[derive(Clone, Copy)]
pub enum Broken {
    /// T1.
    Memory,
    /// T2.
    Read,
    /// T3.
    Write,
    /// T6: a frame is longer than it may be.
    TooLong,
    /// T7: the input ends within a frame.
    Cut,
}

impl fmt::Display for Broken {
    ghost output = { λ broken. Some (broken_text broken) };

    fn fmt<W: fmt::Write>(&self, f: &mut fmt::Formatter<W>) -> fmt::Result {
        match self {
            Broken::Memory => write!(f, "T1 out of memory"),
            Broken::Read => write!(f, "T2 read failed"),
            Broken::Write => write!(f, "T3 write failed"),
            Broken::TooLong => write!(f, "T6 input too long"),
            Broken::Cut => write!(f, "T7 input cut"),
        }
    }
}

impl From<Memory> for Broken {
    ghost from_gives = { λ _ broken. broken ≡ memory };

    fn from(_refused: Memory) -> Broken {
        Broken::Memory
    }
}

impl From<AllocError> for Broken {
    ghost from_gives = { λ _ broken. broken ≡ memory };

    fn from(_refused: AllocError) -> Broken {
        Broken::Memory
    }
}

/// A write that failed.
impl From<Failed> for Broken {
    ghost from_gives = { λ _ broken. broken ≡ write };

    fn from(_failed: Failed) -> Broken {
        Broken::Write
    }
}

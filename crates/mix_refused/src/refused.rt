//! Why a call was refused: a fault of its own, or out of memory.
ghost use Rattle.std.specs.Prelude.{◌≡◌};
ghost use Rattle.mix_refused.specs.declared.refused.Refused.TheVariants.{Memory as memory};

use std::alloc::{AllocError, AllocFailed};

/// Out of memory: a growth was refused.
#[derive(Clone, Copy, Debug, PartialEq, Eq)]
pub struct Memory;

/// Why a call was refused: for a fault of its own, or out of memory.
#[derive(Clone, Copy, Debug, Drop, PartialEq, Eq)]
pub enum Refused<F> {
    /// A fault of its own.
    Fault(F),
    /// A growth was refused.
    Memory,
}

impl From<AllocError> for Memory {
    fn from(_refused: AllocError) -> Memory {
        Memory
    }
}

impl<T: Drop> From<AllocFailed<T>> for Memory {
    fn from(_refused: AllocFailed<T>) -> Memory {
        Memory
    }
}

impl<F> From<AllocError> for Refused<F> {
    ghost from_gives = { λ _ r. r ≡ memory };

    fn from(_refused: AllocError) -> Refused<F> {
        Refused::Memory
    }
}

impl<F, T: Drop> From<AllocFailed<T>> for Refused<F> {
    ghost from_gives = { λ _ r. r ≡ memory };

    fn from(_refused: AllocFailed<T>) -> Refused<F> {
        Refused::Memory
    }
}

impl<F> From<Memory> for Refused<F> {
    ghost from_gives = { λ _ r. r ≡ memory };

    fn from(_refused: Memory) -> Refused<F> {
        Refused::Memory
    }
}

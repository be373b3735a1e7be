//! What a change is about to write.
use crate::fault::MixFault;
use crate::old::Old;
use crate::units::UnitNo;
use mix_word::{Cmp, Place, Reg, Word};

/// What an operation writes, in this order.
#[derive(Clone, Copy)]
pub(crate) enum Writes {
    Nothing,
    Register(Reg, Word),
    RegisterAndToggle(Reg, Word, bool),
    // rA and rX
    Pair(Word, Word),
    PairAndToggle(Word, Word, bool),
    Cell(Place, Word),
    Indicator(Cmp),
    Copy(Copies),
    // IN and OUT
    Input(Transfer),
    Output(Transfer),
    // IOC: a unit, and the place to which it is wound
    Control(UnitNo, u16),
}

/// What MOVE copies: so many words, from a cell on, to a cell on; and what rI1 is then.
#[derive(Clone, Copy)]
pub(crate) struct Copies {
    pub(crate) count: u8,
    pub(crate) from: u16,
    pub(crate) to: u16,
    pub(crate) index: Word,
}

/// What IN and OUT move: a block of a unit, and as many words as it has from a cell on.
#[derive(Clone, Copy)]
pub(crate) struct Transfer {
    pub(crate) unit: UnitNo,
    pub(crate) block: u16,
    pub(crate) cell: u16,
}

/// What an operation does: its writes, and whether it jumps to M.
#[derive(Clone, Copy)]
pub(crate) struct Effects {
    pub(crate) writes: Writes,
    pub(crate) jumps: bool,
}

/// What an operation does, or the first fault.
pub(crate) type Outcome = Result<Effects, MixFault>;

/// What a change writes: one value, or what an operation writes and then the location and the clock.
#[derive(Clone, Copy)]
pub(crate) enum Plan {
    Value(Old),
    Step(Writes, u16, u64),
}

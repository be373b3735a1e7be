//! The changes of a state, and the old values that take them back.
use crate::time::Time;
use crate::units::UnitNo;
use mix_word::{Cmp, Place, Reg, Word};

/// What is asked of the machine (1.3.1): one step; a value put into a register, a cell, the location, the overflow toggle or the
/// comparison indicator; or a breakpoint given to a cell or taken away.
#[derive(Clone, Copy, Debug, PartialEq, Eq)]
pub enum Change {
    Step,
    SetReg(Reg, Word),
    SetCell(Place, Word),
    SetLoc(Place),
    SetOver(bool),
    SetCmp(Cmp),
    Break(Place),
    Clear(Place),
}

/// One place of the state and a value of it: the location, the clock, a register, a cell, the overflow toggle, the comparison indicator,
/// or whether a cell has a breakpoint; of a unit where it reads next, how long its blocks or its rows are, word j of block i, or the time
/// until which it is busy.
#[derive(Clone, Copy, PartialEq, Eq)]
pub enum Old {
    Loc(u16),
    Clock(Time),
    Reg(Reg, Word),
    Cell(Place, Word),
    Over(bool),
    Cmp(Cmp),
    Break(Place, bool),
    At(UnitNo, u16),
    Len(UnitNo, u16),
    Item(UnitNo, u16, u8, Word),
    Until(UnitNo, Time),
}

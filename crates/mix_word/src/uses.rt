//! What an operation uses of its instruction (1.3.1): M, and F as a field, a count or a unit.
ghost use Rattle.std.specs.Prelude.{◌≡◌};
ghost use Rattle.mix_word.specs.Uses.{uses_of, needs};

use crate::operation::Operation;

/// How many units there are (1.3.1).
pub const UNITS: u8 = 21;

/// Which parts of its instruction an operation uses (1.3.1).
#[derive(Clone, Copy)]
pub enum Uses {
    /// neither M nor F
    Nothing,
    /// F alone, which tells operations of one code apart
    FAlone,
    /// M; F tells operations of one code apart
    Address,
    /// M as a number of bytes; F tells operations of one code apart
    Count,
    /// the field F of the cell M
    Operand,
    /// F cells from M on
    Cells,
    /// M and the unit F
    Unit(UnitUse),
}

/// What an operation does with the unit F (1.3.1): it looks whether the unit is busy, or it is IOC, IN or OUT.
#[derive(Clone, Copy)]
pub enum UnitUse {
    Looks,
    Controls,
    Reads,
    Writes,
}

impl Operation {
    /// Which parts of its instruction it uses (1.3.1).
    #[inline(always)]
    pub fn uses(self) -> Uses
        ensures { result ≡ uses_of self }
    {
        match self {
            Operation::Nop => Uses::Nothing,
            Operation::Num | Operation::Char | Operation::Hlt => Uses::FAlone,
            Operation::Add | Operation::Sub | Operation::Mul | Operation::Div => Uses::Operand,
            Operation::Load(_) | Operation::LoadNegated(_) | Operation::Store(_) => Uses::Operand,
            Operation::StoreJ | Operation::StoreZero | Operation::Compare(_) => Uses::Operand,
            Operation::Shift(_) => Uses::Count,
            Operation::Move => Uses::Cells,
            Operation::Jbus | Operation::Jred => Uses::Unit(UnitUse::Looks),
            Operation::Ioc => Uses::Unit(UnitUse::Controls),
            Operation::In => Uses::Unit(UnitUse::Reads),
            Operation::Out => Uses::Unit(UnitUse::Writes),
            Operation::Jump(_) | Operation::RegisterJump(_, _) => Uses::Address,
            Operation::Increase(_) | Operation::Decrease(_) => Uses::Address,
            Operation::Enter(_) | Operation::EnterNegated(_) => Uses::Address,
        }
    }

    /// Whether it looks at the address and the index of its instruction (1.3.1): all but NOP, NUM, CHAR and HLT do.
    pub fn needs_address(self) -> bool
        ensures { result ≡ (needs self).address }
    {
        !matches!(self.uses(), Uses::Nothing | Uses::FAlone)
    }
}

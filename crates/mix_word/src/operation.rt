//! The table of operations (1.3.1): their codes, the F that goes with each, names and times.
ghost use Rattle.std.specs.Prelude.{◌≡◌, ◌<◌, Some};
ghost use Rattle.std.specs.List.{slice_get};
ghost use Rattle.mix_word.specs.Operation.{operation_code, normal_f_of, time_of, number_of_shift, number_of_jump, number_of_condition};
ghost use Rattle.mix_word.specs.Prelude.{name_of, operations, decode_of};

use crate::decoding::Decoded;
use crate::register::DataReg;
use crate::rows::{Row, rows};

/// A shift (1.3.1): of rA alone, of rA and rX, or of both circularly, to the left or to the right.
#[derive(Clone, Copy)]
pub enum ShiftKind {
    Sla,
    Sra,
    Slax,
    Srax,
    Slc,
    Src,
}

/// A jump that looks at no register (1.3.1): always, by the overflow toggle, or by the comparison indicator.
#[derive(Clone, Copy)]
pub enum JumpKind {
    Jmp,
    Jsj,
    Jov,
    Jnov,
    Less,
    Equal,
    Greater,
    GreaterEqual,
    NotEqual,
    LessEqual,
}

/// What a jump asks of the number in a register (1.3.1).
#[derive(Clone, Copy)]
pub enum Condition {
    Negative,
    Zero,
    Positive,
    NotNegative,
    NotZero,
    NotPositive,
}

/// An operation of MIX (1.3.1), without those of the floating-point attachment.
#[derive(Clone, Copy)]
pub enum Operation {
    Nop,
    Add,
    Sub,
    Mul,
    Div,
    Num,
    Char,
    Hlt,
    Shift(ShiftKind),
    Move,
    Load(DataReg),
    LoadNegated(DataReg),
    Store(DataReg),
    StoreJ,
    StoreZero,
    Jbus,
    Ioc,
    In,
    Out,
    Jred,
    Jump(JumpKind),
    RegisterJump(DataReg, Condition),
    Increase(DataReg),
    Decrease(DataReg),
    Enter(DataReg),
    EnterNegated(DataReg),
    Compare(DataReg),
}

impl ShiftKind {
    fn number(self) -> u8
        ensures { result ≡ number_of_shift self }
    {
        self as u8
    }
}

impl JumpKind {
    fn number(self) -> u8
        ensures { result ≡ number_of_jump self }
    {
        self as u8
    }
}

impl Condition {
    fn number(self) -> u8
        ensures { result ≡ number_of_condition self }
    {
        self as u8
    }
}

impl Operation {
    /// The operation code C, 0 to 63 (1.3.1).
    pub fn code(self) -> u8
        ensures is { result ≡ operation_code self }
        ensures bound { result < 64 }
    {
        self.row().2
    }

    /// The F that an assembler puts where none is written, 0 to 9; an operation by F has no other.
    pub fn normal_f(self) -> u8
        ensures is { result ≡ normal_f_of self }
        ensures bound { result < 10 }
        ensures decodes { decode_of (operation_code self) result ≡ Decoded.Named self }
    {
        self.row().3
    }

    // Its row of the table.
    pub(crate) fn row(self) -> Row
        ensures name { result.1.now ≡ name_of self }
        ensures code { result.2 ≡ operation_code self }
        ensures f { result.3 ≡ normal_f_of self }
    {
        rows()[usize::from(self.row_number())]
    }

    // The number of its row.
    #[tactic(auto, unfolding(crate::specs::Table::operations))]
    fn row_number(self) -> u8
        ensures { slice_get operations result ≡ Some self }
    {
        match self {
            Operation::Nop => 0,
            Operation::Add => 1,
            Operation::Sub => 2,
            Operation::Mul => 3,
            Operation::Div => 4,
            Operation::Num => 5,
            Operation::Char => 6,
            Operation::Hlt => 7,
            Operation::Shift(kind) => 8 + kind.number(),
            Operation::Move => 14,
            Operation::Load(r) => 15 + r.offset(),
            Operation::LoadNegated(r) => 23 + r.offset(),
            Operation::Store(r) => 31 + r.offset(),
            Operation::StoreJ => 39,
            Operation::StoreZero => 40,
            Operation::Jbus => 41,
            Operation::Ioc => 42,
            Operation::In => 43,
            Operation::Out => 44,
            Operation::Jred => 45,
            Operation::Jump(kind) => 46 + kind.number(),
            Operation::RegisterJump(r, condition) => 56 + 6 * r.offset() + condition.number(),
            Operation::Increase(r) => 104 + 4 * r.offset(),
            Operation::Decrease(r) => 105 + 4 * r.offset(),
            Operation::Enter(r) => 106 + 4 * r.offset(),
            Operation::EnterNegated(r) => 107 + 4 * r.offset(),
            Operation::Compare(r) => 136 + r.offset(),
        }
    }

    /// The time that it takes with this F, in units u (1.3.1).
    #[inline(always)]
    pub fn time(self, f: u8) -> u16
        ensures { result ≡ time_of self f }
    {
        match self {
            Operation::Move => 1 + 2 * u16::from(f),
            Operation::Mul | Operation::Num | Operation::Char | Operation::Hlt => 10,
            Operation::Div => 12,
            Operation::Add | Operation::Sub | Operation::Shift(_) => 2,
            Operation::Load(_) | Operation::LoadNegated(_) | Operation::Store(_) => 2,
            Operation::StoreJ | Operation::StoreZero | Operation::Compare(_) => 2,
            Operation::Nop | Operation::Jbus | Operation::Ioc | Operation::In | Operation::Out => 1,
            Operation::Jred | Operation::Jump(_) | Operation::RegisterJump(_, _) => 1,
            Operation::Increase(_) | Operation::Decrease(_) => 1,
            Operation::Enter(_) | Operation::EnterNegated(_) => 1,
        }
    }
}

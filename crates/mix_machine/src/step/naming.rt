//! What C and F of an instruction say of its operation: a register, a jump, a condition (1.3.1).
ghost use Rattle.std.specs.Prelude.{◌≡◌, ◌<◌, ◌%◌, IsTrue};
ghost use Rattle.mix_word.specs.Prelude.{offset_of, operation_code, number_of_shift, number_of_jump, number_of_operation, number_of_pair, is_of_register, decode_of};

use mix_word::{DataReg, Decoded, JumpKind, Operation, ShiftKind, number_law};

/// C and F, which have this number, name this operation. What it says is its contract.
#[inline(always)]
pub(crate) fn names(op: Operation, number: u8, code: u8, f: u8)
    requires number { number ≡ number_of_pair (decode_of code f) }
    requires same { number_of_operation op ≡ number }
    requires register { IsTrue (is_of_register op) → operation_code op % 8 ≡ code % 8 }
    ensures { decode_of code f ≡ Decoded.Named op }
{
    number_law();
}

/// The register of a code in its row of eight: rA, rI1 to rI6, rX.
#[inline(always)]
pub(crate) fn register_at(n: u8) -> DataReg
    requires { n < 8 }
    ensures { offset_of result ≡ n }
{
    match n {
        0 => DataReg::A,
        1 => DataReg::I1,
        2 => DataReg::I2,
        3 => DataReg::I3,
        4 => DataReg::I4,
        5 => DataReg::I5,
        6 => DataReg::I6,
        _ => DataReg::X,
    }
}

/// The jump of an F where C is 39.
#[inline(always)]
pub(crate) fn jump_at(f: u8) -> JumpKind
    requires { f < 10 }
    ensures { number_of_jump result ≡ f }
{
    match f {
        0 => JumpKind::Jmp,
        1 => JumpKind::Jsj,
        2 => JumpKind::Jov,
        3 => JumpKind::Jnov,
        4 => JumpKind::Less,
        5 => JumpKind::Equal,
        6 => JumpKind::Greater,
        7 => JumpKind::GreaterEqual,
        8 => JumpKind::NotEqual,
        _ => JumpKind::LessEqual,
    }
}

/// The shift of an F where C is 6.
#[inline(always)]
pub(crate) fn shift_at(f: u8) -> ShiftKind
    requires { f < 6 }
    ensures { number_of_shift result ≡ f }
{
    match f {
        0 => ShiftKind::Sla,
        1 => ShiftKind::Sra,
        2 => ShiftKind::Slax,
        3 => ShiftKind::Srax,
        4 => ShiftKind::Slc,
        _ => ShiftKind::Src,
    }
}

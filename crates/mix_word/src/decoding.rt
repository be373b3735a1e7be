//! What the pair (C, F) of an instruction names (1.3.1).
ghost use Rattle.std.specs.Prelude.{◌≡◌, ◌<◌, ◌≤◌, ◌↔◌, true, false, ◌⊎◌, IsTrue};
ghost use Rattle.mix_word.specs.Prelude.{Operation};
ghost use Rattle.mix_word.specs.Operation.{operation_code, normal_f_of, is_by_f};
ghost use Rattle.mix_word.specs.Table.{decode_of, is_floating, IsNamedBy};

use crate::operation::{Condition, JumpKind, Operation, ShiftKind};
use crate::register::DataReg;

/// What a pair (C, F) names: an operation, one of the floating-point attachment, or none.
#[derive(Clone, Copy)]
pub enum Decoded {
    Named(Operation),
    Floating,
    Unknown,
}

/// What an instruction of this code C and this F names (1.3.1): an operation of the table, a floating one, or none. C and F are
/// below 64 in an instruction. A C of 64 or more names no operation; where an operation takes any F, it takes one of 64 or more too.
#[inline(always)]
pub fn decode(code: u8, f: u8) -> Decoded
    ensures is { result ≡ decode_of code f }
    ensures law { (op : Operation) → (result ≡ Decoded.Named op) ↔ IsNamedBy op code f }
{
    row(code, f)
}

#[inline(always)]
fn row(code: u8, f: u8) -> Decoded
    ensures { result ≡ decode_of code f }
{
    match code / 8 {
        0 => low(code, f),
        1 => found(Operation::Load(DataReg::at_offset(code % 8)), code, f),
        2 => found(
            Operation::LoadNegated(DataReg::at_offset(code % 8)),
            code,
            f,
        ),
        3 => found(Operation::Store(DataReg::at_offset(code % 8)), code, f),
        4 => middle(code, f),
        5 => register_jump(code, f),
        6 => address_transfer(code, f),
        7 => comparison(code, f),
        _ => unknown(code, f),
    }
}

#[inline(always)]
fn low(code: u8, f: u8) -> Decoded
    requires { code < 8 }
    ensures { result ≡ decode_of code f }
{
    match code {
        0 => found(Operation::Nop, code, f),
        5 => special(f),
        6 => shift(f),
        7 => found(Operation::Move, code, f),
        _ => arithmetic(code, f),
    }
}

#[inline(always)]
fn middle(code: u8, f: u8) -> Decoded
    requires low { 32 ≤ code }
    requires high { code < 40 }
    ensures { result ≡ decode_of code f }
{
    match code {
        32 => found(Operation::StoreJ, code, f),
        33 => found(Operation::StoreZero, code, f),
        39 => jump(f),
        _ => found(control(code), code, f),
    }
}

// The pair names this operation.
#[inline(always)]
fn found(op: Operation, code: u8, f: u8) -> Decoded
    requires code { operation_code op ≡ code }
    requires by_f { IsTrue (is_by_f op) → normal_f_of op ≡ f }
    requires plain { is_floating code f ≡ false }
    ensures { result ≡ decode_of code f }
{
    Decoded::Named(op)
}

// The pair names no operation.
#[tactic(auto, using(crate::proofs::TableLemmas::names_none))]
#[inline(always)]
fn unknown(code: u8, f: u8) -> Decoded
    requires { (63 < code) ⊎ (40 ≤ code × code < 48 × 5 < f) ⊎ (48 ≤ code × code < 56 × 3 < f) }
    ensures { result ≡ decode_of code f }
{
    Decoded::Unknown
}

#[tactic(auto, using(crate::proofs::TableLemmas::floats))]
#[inline(always)]
fn floating(code: u8, f: u8) -> Decoded
    requires { is_floating code f ≡ true }
    ensures { result ≡ decode_of code f }
{
    Decoded::Floating
}

#[inline(always)]
fn arithmetic(code: u8, f: u8) -> Decoded
    requires low { 0 < code }
    requires high { code < 5 }
    ensures { result ≡ decode_of code f }
{
    if f == 6 {
        return floating(code, f);
    }
    match code {
        1 => found(Operation::Add, code, f),
        2 => found(Operation::Sub, code, f),
        3 => found(Operation::Mul, code, f),
        _ => found(Operation::Div, code, f),
    }
}

#[tactic(auto, unfolding(crate::specs::Table::decode_of, crate::specs::Table::operation_at, crate::specs::Table::operations))]
#[inline(always)]
fn special(f: u8) -> Decoded
    ensures { result ≡ decode_of 5 f }
{
    match f {
        0 => Decoded::Named(Operation::Num),
        1 => Decoded::Named(Operation::Char),
        2 => Decoded::Named(Operation::Hlt),
        6 | 7 => Decoded::Floating,
        _ => Decoded::Unknown,
    }
}

#[tactic(auto, unfolding(crate::specs::Table::decode_of, crate::specs::Table::operation_at, crate::specs::Table::operations))]
#[inline(always)]
fn shift(f: u8) -> Decoded
    ensures { result ≡ decode_of 6 f }
{
    let kind = match f {
        0 => ShiftKind::Sla,
        1 => ShiftKind::Sra,
        2 => ShiftKind::Slax,
        3 => ShiftKind::Srax,
        4 => ShiftKind::Slc,
        5 => ShiftKind::Src,
        _ => return Decoded::Unknown,
    };
    Decoded::Named(Operation::Shift(kind))
}

#[inline(always)]
fn control(code: u8) -> Operation
    requires low { 34 ≤ code }
    requires high { code ≤ 38 }
    ensures is { operation_code result ≡ code }
    ensures any_f { is_by_f result ≡ false }
{
    match code {
        34 => Operation::Jbus,
        35 => Operation::Ioc,
        36 => Operation::In,
        37 => Operation::Out,
        _ => Operation::Jred,
    }
}

#[tactic(auto, unfolding(crate::specs::Table::decode_of, crate::specs::Table::operation_at, crate::specs::Table::operations))]
#[inline(always)]
fn jump(f: u8) -> Decoded
    ensures { result ≡ decode_of 39 f }
{
    let kind = match f {
        0 => JumpKind::Jmp,
        1 => JumpKind::Jsj,
        2 => JumpKind::Jov,
        3 => JumpKind::Jnov,
        4 => JumpKind::Less,
        5 => JumpKind::Equal,
        6 => JumpKind::Greater,
        7 => JumpKind::GreaterEqual,
        8 => JumpKind::NotEqual,
        9 => JumpKind::LessEqual,
        _ => return Decoded::Unknown,
    };
    Decoded::Named(Operation::Jump(kind))
}

#[inline(always)]
fn register_jump(code: u8, f: u8) -> Decoded
    requires low { 40 ≤ code }
    requires high { code < 48 }
    ensures { result ≡ decode_of code f }
{
    let condition = match f {
        0 => Condition::Negative,
        1 => Condition::Zero,
        2 => Condition::Positive,
        3 => Condition::NotNegative,
        4 => Condition::NotZero,
        5 => Condition::NotPositive,
        _ => return unknown(code, f),
    };
    found(
        Operation::RegisterJump(DataReg::at_offset(code % 8), condition),
        code,
        f,
    )
}

#[inline(always)]
fn address_transfer(code: u8, f: u8) -> Decoded
    requires low { 48 ≤ code }
    requires high { code < 56 }
    ensures { result ≡ decode_of code f }
{
    let r = DataReg::at_offset(code % 8);
    match f {
        0 => found(Operation::Increase(r), code, f),
        1 => found(Operation::Decrease(r), code, f),
        2 => found(Operation::Enter(r), code, f),
        3 => found(Operation::EnterNegated(r), code, f),
        _ => unknown(code, f),
    }
}

#[inline(always)]
fn comparison(code: u8, f: u8) -> Decoded
    requires low { 56 ≤ code }
    requires high { code < 64 }
    ensures { result ≡ decode_of code f }
{
    if f == 6 && code == 56 {
        floating(code, f)
    } else {
        found(Operation::Compare(DataReg::at_offset(code % 8)), code, f)
    }
}

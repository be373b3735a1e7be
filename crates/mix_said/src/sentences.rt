//! What an operation does, as a sentence (1.3.1).

use mix_refused::Memory;
use mix_word::{Condition, DataReg, JumpKind, Operation, ShiftKind};
use std::alloc::Global;

// A register as the book writes it, between two texts.
fn about(alloc: Global, before: &str, register: DataReg, after: &str) -> Result<String, Memory> {
    let name = register.reg().name();
    let text = format!(in alloc; "{before}r{name}{after}")?;
    Ok(text)
}

// That a register grows, or becomes less.
fn grows(alloc: Global, register: DataReg, by: &str) -> Result<String, Memory> {
    let before = about(alloc, "", register, " becomes ")?;
    about(alloc, before.as_str(), register, by)
}

/// What an operation does (1.3.1), as `rA becomes rA + V`: M is its address, F its field, and V that field of the cell M.
pub fn sentence(alloc: Global, operation: Operation) -> Result<String, Memory> {
    let text = match operation {
        Operation::Nop => "does nothing",
        Operation::Add => "rA becomes rA + V",
        Operation::Sub => "rA becomes rA - V",
        Operation::Mul => "rA and rX become the product of rA and V",
        Operation::Div => "rA becomes the quotient of rA and rX by V, rX the remainder",
        Operation::Num => "rA becomes the number whose ten digits are the characters in rA and rX",
        Operation::Char => "rA and rX become the ten digits of the number in rA, as characters",
        Operation::Hlt => "halts",
        Operation::Shift(ShiftKind::Sla) => "rA is shifted left by M bytes",
        Operation::Shift(ShiftKind::Sra) => "rA is shifted right by M bytes",
        Operation::Shift(ShiftKind::Slax) => "rA and rX together are shifted left by M bytes",
        Operation::Shift(ShiftKind::Srax) => "rA and rX together are shifted right by M bytes",
        Operation::Shift(ShiftKind::Slc) => "rA and rX together are rotated left by M bytes",
        Operation::Shift(ShiftKind::Src) => "rA and rX together are rotated right by M bytes",
        Operation::Move => {
            "F words are copied, from cell M on to the cell in rI1 on; rI1 becomes rI1 + F"
        }
        Operation::Load(r) => return about(alloc, "", r, " becomes V"),
        Operation::LoadNegated(r) => return about(alloc, "", r, " becomes the negative of V"),
        Operation::Store(r) => return about(alloc, "cell M becomes ", r, ""),
        Operation::StoreJ => "cell M becomes rJ",
        Operation::StoreZero => "cell M becomes zero",
        Operation::Jbus => "jumps to M if unit F is busy",
        Operation::Ioc => "controls unit F",
        Operation::In => "a block of unit F is read into the cells from M on",
        Operation::Out => "the cells from M on are written to unit F",
        Operation::Jred => "jumps to M if unit F is ready",
        Operation::Jump(JumpKind::Jmp) => "jumps to M; rJ becomes the location after the jump",
        Operation::Jump(JumpKind::Jsj) => "jumps to M; rJ stays as it is",
        Operation::Jump(JumpKind::Jov) => "jumps to M if overflow is on, which goes off",
        Operation::Jump(JumpKind::Jnov) => "jumps to M if overflow is off; otherwise it goes off",
        Operation::Jump(JumpKind::Less) => "jumps to M if the comparison is less",
        Operation::Jump(JumpKind::Equal) => "jumps to M if the comparison is equal",
        Operation::Jump(JumpKind::Greater) => "jumps to M if the comparison is greater",
        Operation::Jump(JumpKind::GreaterEqual) => {
            "jumps to M if the comparison is greater or equal"
        }
        Operation::Jump(JumpKind::NotEqual) => "jumps to M if the comparison is not equal",
        Operation::Jump(JumpKind::LessEqual) => "jumps to M if the comparison is less or equal",
        Operation::RegisterJump(r, condition) => {
            let is = match condition {
                Condition::Negative => " is negative",
                Condition::Zero => " is zero",
                Condition::Positive => " is positive",
                Condition::NotNegative => " is not negative",
                Condition::NotZero => " is not zero",
                Condition::NotPositive => " is not positive",
            };
            return about(alloc, "jumps to M if ", r, is);
        }
        Operation::Increase(r) => return grows(alloc, r, " + M"),
        Operation::Decrease(r) => return grows(alloc, r, " - M"),
        Operation::Enter(r) => return about(alloc, "", r, " becomes M"),
        Operation::EnterNegated(r) => return about(alloc, "", r, " becomes -M"),
        Operation::Compare(r) => return about(alloc, "compares ", r, " with V"),
    };
    Ok(String::from_str(alloc, text)?)
}

//! A step that the machine refuses whatever it holds (1.3.1), by what its line gives in numbers.
ghost use Rattle.std.specs.Prelude.{◌≡◌};
ghost use Rattle.mixal_text.specs.Address.{value_of_a_part};
ghost use Rattle.mixal_text.specs.Refused.{asks_unit, has_bad_control, lacks_cell, shifts_back, step_of, step_with, uses_at};

use crate::addresses::{APart, address};
use crate::op::Op;
use crate::written_f::{NoNames, has_asterisk, written_f};
use mix_word::{Decoded, UnitUse, Uses, Word, decode};

/// A step that its line gives in numbers: its code, M and F.
#[derive(Clone, Copy)]
pub(crate) struct Step {
    pub code: u8,
    pub m: Word,
    pub f: u8,
}

impl Step {
    /// The step of an instruction, if neither M nor F has a symbol or an asterisk, and there is no index.
    #[tactic(auto, unfolding(crate::specs::Refused::step_at))]
    pub fn of(op: Op, text: &[u8]) -> Option<Step>
        ensures { result ≡ step_of op text.now }
    {
        match op {
            Op::Machine { code, .. } => {
                if has_asterisk(text) {
                    None
                } else {
                    match address(text, op, &NoNames, Word::ZERO) {
                        Ok(operand) => step_with(code, operand.a, operand.index, operand.f),
                        Err(_) => None,
                    }
                }
            }
            Op::Equ | Op::Orig | Op::Con | Op::Alf(_) | Op::End => None,
        }
    }
}

fn step_with(code: u8, a: APart<'_>, index: u8, f: u8) -> Option<Step>
    ensures { result ≡ step_with code (value_of_a_part a.entry) index f }
{
    match a {
        APart::Value(m) if index == 0 => Some(Step { code, m, f }),
        APart::Value(_) | APart::Name(_) | APart::Ahead(_) | APart::Literal(_) => None,
    }
}

fn uses_at(code: u8, f: u8) -> Uses
    ensures { result ≡ uses_at code f }
{
    match decode(code, f) {
        Decoded::Named(operation) => operation.uses(),
        Decoded::Floating | Decoded::Unknown => Uses::Nothing,
    }
}

/// Whether an instruction asks a unit, by its F in numbers, for what it cannot do.
pub(crate) fn asks_unit(op: Op, address: &[u8]) -> bool
    ensures { result ≡ asks_unit op address.now }
{
    match op {
        Op::Machine { code, .. } => match written_f(address) {
            Some(f) => match uses_at(code, f) {
                Uses::Unit(UnitUse::Controls) => f == 16 || f == 17 || f == 19,
                Uses::Unit(UnitUse::Reads) => f == 17 || f == 18,
                Uses::Unit(UnitUse::Writes) => f == 16,
                _ => false,
            },
            None => false,
        },
        Op::Equ | Op::Orig | Op::Con | Op::Alf(_) | Op::End => false,
    }
}

/// Whether a unit is controlled by an M that it does not take.
pub(crate) fn has_bad_control(step: Option<Step>) -> bool
    ensures { result ≡ has_bad_control step }
{
    match step {
        Some(Step { code, m, f }) => {
            matches!(uses_at(code, f), Uses::Unit(UnitUse::Controls))
                && matches!(f, 8..=15 | 18 | 20)
                && m.magnitude() != 0
        }
        None => false,
    }
}

/// Whether one of the cells that are used from M on is none.
pub(crate) fn lacks_cell(step: Option<Step>) -> bool
    ensures { result ≡ lacks_cell step }
{
    match step {
        Some(Step { code, m, f }) => {
            let cells = match uses_at(code, f) {
                Uses::Address => u8::from(39 <= code && code < 48),
                Uses::Operand | Uses::Unit(UnitUse::Looks) => 1,
                Uses::Cells => f,
                Uses::Unit(UnitUse::Reads | UnitUse::Writes) => match f {
                    0..=15 => 100,
                    16 | 17 => 16,
                    18 => 24,
                    _ => 14,
                },
                Uses::Nothing | Uses::FAlone | Uses::Count | Uses::Unit(UnitUse::Controls) => 0,
            };
            match m.natural() {
                Some(first) => cells != 0 && u64::from(first) + u64::from(cells) > 4000,
                None => cells != 0,
            }
        }
        None => false,
    }
}

/// Whether a shift is by a negative number.
pub(crate) fn shifts_back(step: Option<Step>) -> bool
    ensures { result ≡ shifts_back step }
{
    match step {
        Some(Step { code, m, f }) => {
            matches!(uses_at(code, f), Uses::Count) && m.natural().is_none()
        }
        None => false,
    }
}

//! What a line uses, and what it has that is allowed and hardly meant (1.3.2).
ghost use Rattle.std.specs.Prelude.{◌≡◌};
ghost use Rattle.mixal_text.specs.Slips.{has_slip, is_alf, is_code, loc_slips, slips, symbol_used, symbol_used_by};

use crate::alf_slips::{alf_is_cut, alf_is_short};
use crate::cut::split_at_delimiter;
use crate::label::Label;
use crate::line::{Line, line_loc, read_line, read_op};
use crate::op::Op;
use crate::reads_on::address_is_cut;
use crate::refused::{Step, asks_unit, has_bad_control, lacks_cell, shifts_back};
use crate::symbol::Symbol;
use crate::words::{skip_blanks, split_word};
use crate::written_f::op_refuses;
use std::marker::Model;

/// What is allowed in a line and hardly meant (1.3.2).
#[derive(Clone, Copy)]
pub enum Slip {
    /// LOC is a symbol that names an operation.
    OperationAsLabel,
    /// An EQU has no LOC, so it defines nothing.
    NoLabel,
    /// The text of an ALF without quotation marks goes on after its five characters, or begins after them.
    AlfCut,
    /// The text of an ALF between quotation marks has fewer than five characters.
    AlfShort,
    /// One blank ends ADDRESS, and what follows reads as if it belonged to it: a comma, an opening bracket before a digit, or a
    /// sign of an operation before a number.
    BlankInAddress,
    /// An instruction has an F in numbers that its step refuses: no field, no unit, or no F of an operation.
    NoField,
    /// An instruction asks a unit, by its numbers, for what that cannot do.
    WrongUnit,
    /// An instruction uses, by its numbers, a cell that is none.
    NoCell,
    /// A shift is by a negative number.
    NegativeShift,
}

/// The symbol that is the A-part of a line's instruction, if it is one (1.3.2).
#[tactic(auto, unfolding(crate::specs::Slips::symbol_used))]
pub fn symbol_used(line: &[u8]) -> Option<Symbol>
    ensures symbol { result ≡ symbol_used line.now }
{
    match read_line(line) {
        Ok(Line::Code { op, address, .. }) => symbol_used_by(op, address),
        Ok(Line::Remark) | Err(_) => None,
    }
}

fn symbol_used_by(op: Op, address: &[u8]) -> Option<Symbol>
    ensures { result ≡ symbol_used_by op address.now }
{
    match op {
        Op::Machine { .. } => Symbol::of(split_at_delimiter(address).0),
        Op::Equ | Op::Orig | Op::Con | Op::Alf(_) | Op::End => None,
    }
}

/// A line that was read once (1.3.2), seen as its bytes.
#[derive(Drop)]
pub struct Survey<'a> {
    line: &'a [u8],
    op: Option<Op>,
    address: &'a [u8],
}

impl<'a> Model for Survey<'a> {
    ghost use Rattle.std.specs.Prelude.{ℕ, List};
    ghost use Rattle.mixal_text.specs.Slips.{IsRead};

    ghost Value = { List ℕ };

    ghost view = { λ s. s.line.now };

    ghost invariant = { λ s. IsRead s.line.now s.op s.address.now };
}

impl<'a> Survey<'a> {
    /// Reads a line.
    pub fn of(line: &'a [u8]) -> Survey<'a>
        ensures { result ≡ line.now }
    {
        match read_line(line) {
            Ok(Line::Code { op, address, .. }) => Survey {
                line,
                op: Some(op),
                address,
            },
            Ok(Line::Remark) | Err(_) => Survey {
                line,
                op: None,
                address: &line[..0],
            },
        }
    }

    /// The symbol that is the A-part of its instruction, if it is one.
    #[tactic(auto, unfolding(crate::specs::Slips::symbol_used))]
    pub fn used(&self) -> Option<Symbol>
        ensures { result ≡ symbol_used self.now }
    {
        symbol_used_by(self.op?, self.address)
    }

    /// Whether it reads as one that belongs to a program: it is no remark, and its LOC, its OP and the bytes of its ADDRESS are as
    /// they have to be.
    #[tactic(auto, unfolding(crate::specs::Slips::is_code))]
    pub fn is_code(&self) -> bool
        ensures { result ≡ is_code self.now }
    {
        self.op.is_some()
    }

    /// Whether it has a slip.
    #[tactic(auto, unfolding(crate::specs::Slips::has_slip))]
    pub fn has(&self, slip: Slip) -> bool
        ensures { result ≡ has_slip self.now slip }
    {
        match self.op {
            Some(op) => { loc_slips(slip, self.line) || slips(slip, op, self.address, self.line) }
            None => loc_slips(slip, self.line),
        }
    }
}

fn loc_slips(slip: Slip, line: &[u8]) -> bool
    ensures { result ≡ loc_slips slip line.now }
{
    match slip {
        Slip::OperationAsLabel => match line_loc(line) {
            Ok(Some(Label::Name(symbol))) => read_op(symbol.name()).is_ok(),
            Ok(Some(Label::Local(_)) | None) | Err(_) => false,
        },
        _ => false,
    }
}

fn slips(slip: Slip, op: Op, address: &[u8], line: &[u8]) -> bool
    ensures { result ≡ slips slip op address.now line.now }
{
    let same = op;
    let rest = split_word(skip_blanks(split_word(line).1)).1;
    match slip {
        Slip::OperationAsLabel => false,
        Slip::NoLabel => matches!(op, Op::Equ) && matches!(line_loc(line), Ok(None)),
        Slip::AlfCut => is_alf(op) && alf_is_cut(rest),
        Slip::AlfShort => is_alf(op) && alf_is_short(skip_blanks(rest)),
        Slip::BlankInAddress => address_is_cut(address, rest),
        Slip::NoField => op_refuses(op, address),
        Slip::WrongUnit => asks_unit(op, address) || has_bad_control(Step::of(same, address)),
        Slip::NoCell => lacks_cell(Step::of(op, address)),
        Slip::NegativeShift => shifts_back(Step::of(op, address)),
    }
}

fn is_alf(op: Op) -> bool
    ensures { result ≡ is_alf op }
{
    matches!(op, Op::Alf(_))
}

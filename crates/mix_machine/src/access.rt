//! Which cells a change uses, and at which clock (1.3.1).
ghost use Rattle.std.specs.Prelude.{◌≡◌, ◌<◌, ◌≤◌, ◌^◌};
ghost use Rattle.mix_machine.specs.Prelude.{cell_of, unit_at, arguments_at, effects, copy_of, use_of, start_of, transfer_start};
ghost use Rattle.mix_machine.specs.Access.{cells_from, no_cells, block_from, cells_read, cells_written, operation_at, access_of_step, access_of_value, access_of};

use crate::decode::Arguments;
use crate::old::Change;
use crate::units::UnitNo;
use crate::world::World;
use mix_word::{Decoded, Operation, Place, Reg, UnitUse, Uses, Word, decode};

/// So many cells, from one on.
#[derive(Clone, Copy, Debug, PartialEq, Eq)]
pub struct Span {
    pub first: u16,
    pub count: u16,
}

/// What a change uses: the clock at which its instruction is fetched and that at which it begins, the cell of its instruction, the
/// cells that it reads and those that it writes.
#[derive(Clone, Copy)]
pub(crate) struct Access {
    pub(crate) clock: u64,
    pub(crate) start: u64,
    pub(crate) fetched: Span,
    pub(crate) read: Span,
    pub(crate) written: Span,
}

// So many cells, from one on.
fn cells_from(first: u16, count: u16) -> Span
    ensures { result ≡ cells_from first count }
{
    Span { first, count }
}

fn no_cells() -> Span
    ensures { result ≡ no_cells }
{
    cells_from(0, 0)
}

impl World {
    /// What a change uses, if it is accepted.
    #[tactic(auto, unfolding(crate::specs::Access::access_of))]
    pub(crate) fn access(&self, change: Change) -> Access
        ensures { result ≡ access_of self.now change }
    {
        match change {
            Change::Step => {
                let (operation, arguments) = self.next_operation();
                self.access_of_step(operation, arguments)
            }
            Change::SetCell(place, _) => self.access_of_value(cells_from(place.number(), 1)),
            Change::SetReg(_, _) => self.access_of_value(no_cells()),
            Change::SetLoc(_) => self.access_of_value(no_cells()),
            Change::SetOver(_) => self.access_of_value(no_cells()),
            Change::SetCmp(_) => self.access_of_value(no_cells()),
            Change::Break(_) => self.access_of_value(no_cells()),
            Change::Clear(_) => self.access_of_value(no_cells()),
        }
    }

    // What a value uses that is set in these cells.
    fn access_of_value(&self, written: Span) -> Access
        ensures { result ≡ access_of_value self.now written }
    {
        Access {
            clock: self.clock,
            start: self.clock,
            fetched: no_cells(),
            read: no_cells(),
            written,
        }
    }

    // What a step of an operation uses.
    fn access_of_step(&self, operation: Operation, a: Arguments) -> Access
        ensures { result ≡ access_of_step operation self.now a }
    {
        // (copies, since the checker covers no struct that is passed by value twice)
        let (given, again) = (a, a);
        Access {
            clock: self.clock,
            start: self.start_of(operation, given.f),
            fetched: cells_from(self.loc, 1),
            read: self.cells_read(operation.uses(), again),
            written: self.cells_written(operation, a),
        }
    }

    // When a step of an operation begins: IN, OUT and IOC when the unit of this number is free.
    fn start_of(&self, operation: Operation, f: u8) -> u64
        ensures { result ≡ start_of (use_of operation) self.now f }
    {
        match operation.uses() {
            Uses::Nothing | Uses::FAlone | Uses::Address | Uses::Count => self.clock,
            Uses::Operand | Uses::Cells => self.clock,
            Uses::Unit(UnitUse::Looks) => self.clock,
            Uses::Unit(UnitUse::Controls) => self.free_at(f),
            Uses::Unit(UnitUse::Reads) => self.free_at(f),
            Uses::Unit(UnitUse::Writes) => self.free_at(f),
        }
    }

    // When the unit of this number is free; at once where there is no such unit.
    #[tactic(auto, using(crate::proofs::AccessLemmas::no_unit))]
    fn free_at(&self, f: u8) -> u64
        ensures { result ≡ transfer_start self.now f }
    {
        match UnitNo::of(f) {
            Some(unit) => self.start_at(unit),
            None => self.clock,
        }
    }

    // The cells that an operation reads which uses this of its instruction.
    fn cells_read(&self, uses: Uses, a: Arguments) -> Span
        ensures { result ≡ cells_read uses self.now a }
    {
        match uses {
            Uses::Nothing | Uses::FAlone | Uses::Address | Uses::Count => no_cells(),
            Uses::Operand => cells_from(a.m.magnitude(), 1),
            Uses::Cells => cells_from(a.m.magnitude(), u16::from(a.f)),
            Uses::Unit(UnitUse::Looks) => no_cells(),
            Uses::Unit(UnitUse::Controls) => no_cells(),
            Uses::Unit(UnitUse::Reads) => no_cells(),
            Uses::Unit(UnitUse::Writes) => self.block_from(a.f, a.m.magnitude()),
        }
    }

    // As many cells from one on as the block of the unit of this number has words; as that of a tape where there is no such unit.
    #[tactic(auto, using(crate::proofs::AccessLemmas::no_unit))]
    pub(crate) fn block_from(&self, f: u8, cell: u16) -> Span
        ensures { result ≡ block_from self.now f cell }
    {
        // (the proof knows the ranges of the machine where a field of it is named)
        let _ = &self.loc;
        match UnitNo::of(f) {
            Some(unit) => cells_from(cell, u16::from(self.unit(unit).kind().block_length())),
            None => cells_from(cell, 100),
        }
    }

    // The cells that an operation writes.
    #[tactic(auto, using(crate::proofs::AccessLemmas::no_cells_written))]
    fn cells_written(&self, operation: Operation, a: Arguments) -> Span
        ensures { result ≡ cells_written self.now (effects operation self.now a).writes }
    {
        match operation {
            Operation::Store(_) | Operation::StoreJ | Operation::StoreZero => {
                cells_from(a.m.magnitude(), 1)
            }
            Operation::Move => self.cells_copied(a),
            Operation::In => self.block_from(a.f, a.m.magnitude()),
            Operation::Nop | Operation::Hlt | Operation::Num | Operation::Char => no_cells(),
            Operation::Add | Operation::Sub | Operation::Mul | Operation::Div => no_cells(),
            Operation::Shift(_) | Operation::Load(_) | Operation::LoadNegated(_) => no_cells(),
            Operation::Jbus | Operation::Ioc | Operation::Out | Operation::Jred => no_cells(),
            Operation::Jump(_) | Operation::RegisterJump(_, _) => no_cells(),
            Operation::Increase(_) | Operation::Decrease(_) => no_cells(),
            Operation::Enter(_) | Operation::EnterNegated(_) => no_cells(),
            Operation::Compare(_) => no_cells(),
        }
    }

    // The cells to which MOVE copies.
    fn cells_copied(&self, a: Arguments) -> Span
        ensures { result ≡ cells_written self.now (copy_of self.now a) }
    {
        if a.f == 0 {
            no_cells()
        } else {
            let to = self.registers.get(Reg::I1).magnitude();
            cells_from(to as u16, u16::from(a.f))
        }
    }

    /// The operation of the next step, and its arguments; NOP where the instruction names none.
    pub(crate) fn next_operation(&self) -> (Operation, Arguments)
        ensures operation { result.0 ≡ operation_at self.now }
        ensures arguments { result.1 ≡ arguments_at self.now }
    {
        let parts = self.next_word().parts();
        let arguments = self.arguments(parts);
        match decode(parts.code, parts.f) {
            Decoded::Named(operation) => (operation, arguments),
            Decoded::Floating | Decoded::Unknown => (Operation::Nop, arguments),
        }
    }

    // The word of the next instruction; +0 after the last cell.
    #[tactic(auto, using(crate::proofs::AccessLemmas::past_cells))]
    fn next_word(&self) -> Word
        ensures { result ≡ cell_of self.now self.now.loc }
    {
        match Place::of(self.loc) {
            Some(place) => self.cell(place),
            None => Word::ZERO,
        }
    }
}

//! What a change makes of the transfer of a unit (1.3.1, "Input-output operators").
ghost use Rattle.std.specs.Prelude.{◌≡◌, ◌≤◌};
ghost use Rattle.mix_machine.specs.Prelude.{unit_at, last_delay, transfer_end};
ghost use Rattle.mix_machine.specs.Effects.{effects, transfer_of};
ghost use Rattle.mix_machine.specs.Transfers.{begun, made_by, transfer_by};

use crate::decode::Arguments;
use crate::old::Change;
use crate::transfers::{Direction, Pending};
use crate::units::UnitNo;
use crate::world::World;
use mix_word::Operation;

impl World {
    /// What a change makes of a unit's transfer, if it is accepted: a new one, or none any more.
    #[tactic(auto, unfolding(crate::specs::Transfers::transfer_by))]
    pub fn transfer_by(&self, change: Change) -> Option<(UnitNo, Option<Pending>)>
        ensures { result ≡ transfer_by self.now change }
    {
        match change {
            Change::Step => {
                let (operation, arguments) = self.next_operation();
                self.made_by(operation, arguments)
            }
            Change::SetReg(_, _) | Change::SetCell(_, _) | Change::SetLoc(_) => None,
            Change::SetOver(_) | Change::SetCmp(_) | Change::Break(_) | Change::Clear(_) => None,
        }
    }

    // What a step of an operation makes of a unit's transfer.
    #[tactic(auto, using(crate::proofs::AccessLemmas::none_made))]
    fn made_by(&self, operation: Operation, a: Arguments) -> Option<(UnitNo, Option<Pending>)>
        ensures { result ≡ made_by self.now (effects operation self.now a).writes }
    {
        match operation {
            Operation::In => self.begun(Direction::Input, a),
            Operation::Out => self.begun(Direction::Output, a),
            Operation::Ioc => match UnitNo::of(a.f) {
                Some(unit) => Some((unit, None)),
                None => None,
            },
            Operation::Move => None,
            Operation::Store(_) | Operation::StoreJ | Operation::StoreZero => None,
            Operation::Nop | Operation::Hlt | Operation::Num | Operation::Char => None,
            Operation::Add | Operation::Sub | Operation::Mul | Operation::Div => None,
            Operation::Shift(_) | Operation::Load(_) | Operation::LoadNegated(_) => None,
            Operation::Jbus | Operation::Jred => None,
            Operation::Jump(_) | Operation::RegisterJump(_, _) => None,
            Operation::Increase(_) | Operation::Decrease(_) => None,
            Operation::Enter(_) | Operation::EnterNegated(_) => None,
            Operation::Compare(_) => None,
        }
    }

    // The transfer that IN or OUT begins.
    fn begun(&self, way: Direction, a: Arguments) -> Option<(UnitNo, Option<Pending>)>
        ensures { result ≡ begun way self.now (transfer_of self.now a) }
    {
        match UnitNo::of(a.f) {
            Some(unit) => {
                let pending = Pending {
                    way,
                    cells: self.block_from(a.f, a.m.magnitude()),
                    until: self.end_of_next(unit),
                };
                Some((unit, Some(pending)))
            }
            None => None,
        }
    }

    // The clock at which a transfer of a unit would end.
    fn end_of_next(&self, unit: UnitNo) -> u64
        ensures { result ≡ transfer_end self.now unit }
    {
        self.start_at(unit) + 1 + self.delay_of(unit)
    }

    // The delay of a unit.
    #[tactic(auto, using(crate::proofs::AccessLemmas::delay_bound))]
    fn delay_of(&self, unit: UnitNo) -> u64
        ensures is { result ≡ (unit_at self.now unit).delay }
        ensures bound { result ≤ last_delay }
    {
        // (the proof knows the ranges of the machine where a field of it is named, and that of a number where it is taken)
        let _ = &self.loc;
        let _ = unit.number();
        self.unit(unit).delay()
    }
}

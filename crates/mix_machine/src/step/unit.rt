//! IN, OUT, IOC, JBUS and JRED (1.3.1, "Input-output operators"): what they ask of the unit F, and what they move.
ghost use Rattle.std.specs.Prelude.{◌≡◌, ◌<◌, ◌≤◌, ◌↔◌, ◌==◌, not, ◌||◌, ◌&&◌, Ok, Err, IsTrue, IsSome, IfSome, length, nat_lt, nat_le, true, false, if◌then◌else◌};
ghost use Rattle.mix_word.specs.Uses.{unit_count};
ghost use Rattle.mix_machine.specs.Prelude.{unit_at, effects, outcome_of, has_medium, most_entries};
ghost use Rattle.mix_machine.specs.UnitAction.{is_busy, block_at, names_block, wound, bad_order};
ghost use Rattle.mix_machine.specs.declared.fault.MixFault.TheVariants.{NoUnit, NoBlock, UnitFull};

use crate::address::Address;
use crate::decode::Arguments;
use crate::fault::MixFault;
use crate::plan::{Effects, Outcome, Transfer, Writes};
use crate::step::move_words::is_row;
use crate::step::transfer::goes_on;
use crate::units::{MAX_ENTRIES, Unit, UnitKind, UnitNo};
use crate::world::World;
use mix_word::{Operation, Reg, Sign};

impl World {
    /// JBUS: a jump if the last transfer of the unit is not over at this clock.
    pub(crate) fn jump_busy(&self, a: Arguments) -> Outcome
        ensures { result ≡ outcome_of Operation.Jbus self.now a }
    {
        let taken = self.is_busy(unit_number(a.f)?);
        if taken && a.m.place().is_none() {
            return Err(MixFault::NoCell);
        }
        Ok(Effects {
            writes: Writes::Register(Reg::J, self.return_address(taken)),
            jumps: taken,
        })
    }

    /// JRED: a jump if the last transfer of the unit is over at this clock.
    pub(crate) fn jump_ready(&self, a: Arguments) -> Outcome
        ensures { result ≡ outcome_of Operation.Jred self.now a }
    {
        let taken = !self.is_busy(unit_number(a.f)?);
        if taken && a.m.place().is_none() {
            return Err(MixFault::NoCell);
        }
        Ok(Effects {
            writes: Writes::Register(Reg::J, self.return_address(taken)),
            jumps: taken,
        })
    }

    /// IN: a block of the unit into cells from M on.
    pub(crate) fn read_block(&self, a: Arguments) -> Outcome
        ensures { result ≡ outcome_of Operation.In self.now a }
    {
        let unit = unit_number(a.f)?;
        let kind = self.units.unit(unit).kind();
        if !kind.has_place() && !kind.has_medium() {
            return Err(MixFault::WrongDirection);
        }
        if !is_row(a.m.word(), kind.block_length()) {
            return Err(MixFault::NoCell);
        }
        match self.block_at(unit) {
            Some(block) if block < u32::from(self.units.unit(unit).blocks()) => {
                Ok(goes_on(Writes::Input(Transfer {
                    unit,
                    block: block as u16,
                    cell: a.m.magnitude(),
                })))
            }
            _ => Err(MixFault::NoBlock),
        }
    }

    /// OUT: cells from M on, as a block or a row of the unit.
    pub(crate) fn write_block(&self, a: Arguments) -> Outcome
        ensures { result ≡ outcome_of Operation.Out self.now a }
    {
        let unit = unit_number(a.f)?;
        let kind = self.units.unit(unit).kind();
        if !kind.has_medium() && !kind.has_output() {
            return Err(MixFault::WrongDirection);
        }
        if !is_row(a.m.word(), kind.block_length()) {
            return Err(MixFault::NoCell);
        }
        if kind.has_medium() {
            self.write_medium(unit, a)
        } else {
            self.write_row(unit, a)
        }
    }

    // OUT to a tape or a disk.
    fn write_medium(&self, unit: UnitNo, a: Arguments) -> Outcome
        requires unit { unit ≡ a.f }
        requires medium { has_medium (unit_at self.now unit).kind ≡ true }
        ensures { result ≡ (if not (names_block self.now a.f) then Err NoBlock else
            if nat_le most_entries (block_at self.now a.f) then Err UnitFull else
            Ok (effects Operation.Out self.now a)) }
    {
        match self.block_at(unit) {
            None => Err(MixFault::NoBlock),
            Some(block) if block >= u32::from(MAX_ENTRIES) => Err(MixFault::UnitFull),
            Some(block) => Ok(goes_on(Writes::Output(Transfer {
                unit,
                block: block as u16,
                cell: a.m.magnitude(),
            }))),
        }
    }

    // OUT to a unit that writes rows.
    fn write_row(&self, unit: UnitNo, a: Arguments) -> Outcome
        requires unit { unit ≡ a.f }
        requires medium { has_medium (unit_at self.now unit).kind ≡ false }
        ensures { result ≡ (if nat_le most_entries (length (unit_at self.now a.f).rows) then Err UnitFull else
            Ok (effects Operation.Out self.now a)) }
    {
        let to = self.units.unit(unit);
        if to.rows() >= MAX_ENTRIES {
            return Err(MixFault::UnitFull);
        }
        let block = if to.kind().has_place() { to.place() } else { 0 };
        Ok(goes_on(Writes::Output(Transfer {
            unit,
            block,
            cell: a.m.magnitude(),
        })))
    }

    /// IOC: a tape wound, a new page, the paper tape wound back.
    pub(crate) fn control_unit(&self, a: Arguments) -> Outcome
        ensures { result ≡ outcome_of Operation.Ioc self.now a }
    {
        let number = unit_number(a.f)?;
        let unit = self.units.unit(number);
        if is_bad_order(unit, a.m) {
            return Err(MixFault::BadControl);
        }
        if unit.kind() == UnitKind::Printer && unit.rows() >= MAX_ENTRIES {
            return Err(MixFault::UnitFull);
        }
        Ok(goes_on(Writes::Control(number, wound(unit, a.m))))
    }

    // Whether the last transfer of a unit is not over yet at this clock.
    fn is_busy(&self, n: UnitNo) -> bool
        ensures { result ≡ is_busy self.now n }
    {
        self.clock < self.units.unit(n).until()
    }

    // The block that is read or written: the one at the place, and on a disk the one of the number in rX, if that is not negative.
    fn block_at(&self, n: UnitNo) -> Option<u32>
        ensures named { IsSome result ↔ IsTrue (names_block self.now n) }
        ensures is { IfSome result (λ block. block ≡ block_at self.now n) }
    {
        let unit = self.units.unit(n);
        if unit.kind().has_place() {
            return Some(u32::from(unit.place()));
        }
        if !unit.kind().has_medium() {
            return Some(0);
        }
        self.register(Reg::X).natural()
    }
}

// The number of the unit F.
fn unit_number(f: u8) -> Result<UnitNo, MixFault>
    ensures { result ≡ (if nat_le unit_count f then Err NoUnit else Ok f) }
{
    match UnitNo::of(f) {
        None => Err(MixFault::NoUnit),
        Some(unit) => Ok(unit),
    }
}

// Whether IOC cannot do this with the unit.
fn is_bad_order(unit: &Unit, m: Address) -> bool
    ensures { result ≡ bad_order unit.now.kind unit.now m }
{
    let zero = m.magnitude() == 0;
    match unit.kind() {
        UnitKind::Tape => {
            !zero && m.sign() == Sign::Plus && unit.place() + m.magnitude() > unit.blocks()
        }
        UnitKind::Disk | UnitKind::Printer | UnitKind::PaperTape => !zero,
        UnitKind::CardReader | UnitKind::CardPunch | UnitKind::Typewriter => true,
    }
}

// The place to which a tape is wound: its beginning, or so many blocks back or forward.
fn wound(unit: &Unit, m: Address) -> u16
    ensures { result ≡ wound unit.now m }
{
    if m.magnitude() == 0 {
        0
    } else if m.sign() == Sign::Plus {
        unit.place() + m.magnitude()
    } else {
        unit.place().saturating_sub(m.magnitude())
    }
}

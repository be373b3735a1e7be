//! The transfers under way, and which change conflicts with one (1.3.1, "Input-output operators").
ghost use Rattle.std.specs.Prelude.{◌≡◌, ◌<◌, ◌≤◌, ◌+◌, ℕ, false, Ok, Some, None, drop, nat_lt, slice_index_or};
ghost use Rattle.mix_word.specs.Uses.{unit_count};
ghost use Rattle.mix_machine.specs.Prelude.{WorldState, IsWorld, cell_of, unit_at, does, Change, Pending};
ghost use Rattle.mix_machine.specs.Access.{has_cell, access_of};
ghost use Rattle.mix_machine.specs.Transfers.{TransfersState, last_end, no_transfers, transfer_by, with_transfer, transfers_after, common, fetch_forbidden, use_forbidden, forbidden, conflict_with, conflict_from, conflict_of};

mod made;
mod quiet;

use crate::access::{Access, Span};
use crate::old::Change;
use crate::transfers::quiet::last_end;
use crate::units::UnitNo;
use crate::world::World;
use mix_word::{Place, UNITS};
use std::marker::Model;

/// Which way a transfer moves words (1.3.1): into the cells, or out of them.
#[derive(Clone, Copy, Debug, PartialEq, Eq)]
pub enum Direction {
    Input,
    Output,
}

/// A transfer that an IN or an OUT began: its cells, and the clock at which it ends.
#[derive(Clone, Copy, Debug, PartialEq, Eq)]
pub struct Pending {
    pub way: Direction,
    pub cells: Span,
    pub until: u64,
}

/// A conflict (1.3.1): a cell that is used while the transfer of a unit forbids it.
#[derive(Clone, Copy, Debug, PartialEq, Eq)]
pub struct Conflict {
    pub cell: Place,
    pub unit: UnitNo,
    pub transfer: Pending,
}

/// The transfers that are under way: of each unit its last one, if an IN or OUT began it and no IOC came after it.
#[derive(Drop)]
pub struct Transfers {
    list: [Option<Pending>; UnitNo::COUNT],
    // The latest clock at which one of them ends, which a change asks first.
    over: u64,
}

impl Model for Transfers {
    ghost use Rattle.mix_machine.specs.Transfers.{TransfersState};

    ghost Value = { TransfersState };

    ghost view = { λ t. t.list };

    ghost use Rattle.mix_machine.specs.Transfers.{AreTransfers};

    ghost invariant = { λ t. AreTransfers t.list t.over };
}

impl Transfers {
    /// None at all.
    pub fn none() -> Transfers
        ensures { result ≡ no_transfers }
    {
        Transfers {
            list: [None; UnitNo::COUNT],
            over: 0,
        }
    }

    /// The transfer of a unit, which may be over.
    pub fn of(&self, unit: UnitNo) -> Option<Pending>
        ensures { result ≡ slice_index_or self.now unit None }
    {
        self.list[usize::from(unit.number())]
    }

    /// The latest clock at which one of them ends, or 0: from then on all of them are over.
    #[inline(always)]
    pub fn last_end(&self) -> u64
        ensures { result ≡ last_end self.now }
    {
        self.over
    }

    /// Sets what a change made of a unit's transfer, as `World::transfer_by` says it.
    pub fn set(&mut self, made: Option<(UnitNo, Option<Pending>)>)
        ensures { self.new ≡ with_transfer self.old made }
    {
        match made {
            Some((unit, transfer)) => {
                self.list[usize::from(unit.number())] = transfer;
                self.over = last_end(&self.list);
            }
            None => {}
        }
    }

    /// The transfers after a change that is accepted, from the machine before it.
    pub fn go(&mut self, change: Change, before: &World)
        ensures { self.new ≡ transfers_after self.old before.now change }
    {
        self.set(before.transfer_by(change));
    }

    /// The cell and the transfer with which a change conflicts, if it is accepted and conflicts with one, from the machine before it.
    #[tactic(auto, using(crate::proofs::ConflictLemmas::conflict_steps))]
    pub fn conflict(&self, change: Change, before: &World) -> Option<Conflict>
        ensures { result ≡ conflict_of self.now before.now change }
    {
        // (the proof knows how many units there are where the field is named)
        let _ = &self.list;
        if before.clock() >= self.over {
            return None;
        }
        let access = before.access(change);
        for number in 0..UNITS {
            match self.conflict_of_unit(number, &access) {
                Some(conflict) => return Some(conflict),
                None => {}
            }
        }
        None
    }

    // The same of the unit of a number.
    fn conflict_of_unit(&self, number: u8, access: &Access) -> Option<Conflict>
        requires { number < unit_count }
        ensures { result ≡ conflict_with number (slice_index_or self.now number None) access.now }
    {
        match UnitNo::of(number) {
            Some(unit) => conflict_with(unit, self.of(unit), access),
            None => unreachable!(),
        }
    }
}

// Whether a unit's transfer is under way when a cell of it is used as it forbids.
fn conflict_with(unit: UnitNo, transfer: Option<Pending>, access: &Access) -> Option<Conflict>
    ensures { result ≡ conflict_with unit transfer access.now }
{
    let transfer = transfer?;
    let cell = forbidden(transfer, access)?;
    Some(Conflict {
        cell,
        unit,
        transfer,
    })
}

// The first cell that is used as a transfer forbids while it is under way.
fn forbidden(transfer: Pending, access: &Access) -> Option<Place>
    ensures { result ≡ forbidden transfer access.now }
{
    let fetched = if access.clock < transfer.until {
        fetch_forbidden(transfer, access)
    } else {
        None
    };
    let used = if access.start < transfer.until {
        use_forbidden(transfer, access)
    } else {
        None
    };
    fetched.or(used)
}

fn fetch_forbidden(transfer: Pending, access: &Access) -> Option<Place>
    ensures { result ≡ fetch_forbidden transfer.way access.now transfer.cells }
{
    match transfer.way {
        Direction::Input => common(access.fetched, transfer.cells),
        Direction::Output => None,
    }
}

fn use_forbidden(transfer: Pending, access: &Access) -> Option<Place>
    ensures { result ≡ use_forbidden transfer.way access.now transfer.cells }
{
    let written = common(access.written, transfer.cells);
    match transfer.way {
        Direction::Input => common(access.read, transfer.cells).or(written),
        Direction::Output => written,
    }
}

// The lowest cell that is in both.
fn common(one: Span, other: Span) -> Option<Place>
    ensures { result ≡ common one other }
{
    let cell = if one.first < other.first {
        other.first
    } else {
        one.first
    };
    if is_below_end(cell, one) && is_below_end(cell, other) {
        Place::of(cell)
    } else {
        None
    }
}

// Whether a number is below the end of some cells.
fn is_below_end(cell: u16, span: Span) -> bool
    ensures { result ≡ nat_lt cell (span.first + span.count) }
{
    u32::from(cell) < u32::from(span.first) + u32::from(span.count)
}

/// What follows from the definitions alone: the transfer that an accepted change begins ends at the time until which its unit is busy then; a
/// cell that is none of those that an accepted change writes stays as it was; and a change conflicts with none where all transfers are over.
pub fn transfer_law()
    ensures until { (v w : WorldState) (c : Change) (n : ℕ) (p : Pending) → IsWorld v → does v c ≡ Ok w → transfer_by v c ≡ Some (n, Some p) → (unit_at w n).until ≡ p.until }
    ensures written { (v w : WorldState) (c : Change) (p : ℕ) → does v c ≡ Ok w → has_cell (access_of v c).written p ≡ false → cell_of w p ≡ cell_of v p }
    ensures apart { (ts : TransfersState) (w : WorldState) (c : Change) → last_end ts ≤ w.clock → conflict_of ts w c ≡ None }
{}

//! The transfers under way in a run, and the steps that conflict with one (1.3.1, "Input-output operators").
ghost use Rattle.std.specs.Prelude.{◌≡◌, ◌<◌, ◌+◌, ◌-◌, ◌^◌, [], option_map};
ghost use Rattle.mix_machine.specs.Transfers.{conflict_of, no_transfers, with_transfer};
ghost use Rattle.mix_machine.specs.declared.old.Change.TheVariants.{Step};
ghost use Rattle.mix_run.specs.Print.{conflict_at, counted, listed, stops};
ghost use Rattle.mix_run.specs.PrintSteps.{conflicts_after};

use mix_machine::{Change, Conflict, Pending, Transfers, UnitNo, World};

/// A conflict of a step with a transfer under way (1.3.1), with the location and the clock in u before that step.
#[derive(Clone, Copy)]
pub struct ConflictAt {
    pub conflict: Conflict,
    pub loc: u16,
    pub clock: u64,
}

/// How many steps of a run conflict with a transfer under way, and the first of them.
#[derive(Clone, Copy)]
pub struct Conflicts {
    pub count: u64,
    pub first: Option<ConflictAt>,
}

/// The transfers under way, and the conflicts so far.
#[derive(Drop)]
pub(super) struct Watch {
    pub(super) transfers: Transfers,
    pub(super) conflicts: Conflicts,
}

impl Watch {
    /// No transfer, and no conflict.
    pub(super) fn new() -> Watch
        ensures transfers { result.transfers ≡ no_transfers }
        ensures conflicts { result.conflicts ≡ counted [] }
    {
        Watch {
            transfers: Transfers::none(),
            conflicts: Conflicts {
                count: 0,
                first: None,
            },
        }
    }

    /// The conflict of the next step, if it is accepted and conflicts with a transfer.
    pub(super) fn conflict(&self, world: &World) -> Option<Conflict>
        ensures { result ≡ conflict_of self.now.transfers world.now Step }
    {
        self.transfers.conflict(Change::Step, world)
    }

    /// Notes what a step has made of a unit's transfer, and its conflict, if it has one.
    pub(super) fn note(
        &mut self,
        made: Option<(UnitNo, Option<Pending>)>,
        found: Option<ConflictAt>,
    )
        requires { self.old.conflicts.count < 2 ^ 64 - 1 }
        ensures transfers { self.new.transfers ≡ with_transfer self.old.transfers made }
        ensures conflicts { self.new.conflicts ≡ conflicts_after self.old.conflicts (listed found) }
    {
        let before = self.conflicts;
        self.transfers.set(made);
        self.conflicts = with_conflict(before, found);
    }
}

// Some conflicts and one more, if there is one.
fn with_conflict(conflicts: Conflicts, found: Option<ConflictAt>) -> Conflicts
    requires { conflicts.count < 2 ^ 64 - 1 }
    ensures { result ≡ conflicts_after conflicts (listed found) }
{
    match found {
        None => conflicts,
        Some(found) => Conflicts {
            count: conflicts.count + 1,
            first: conflicts.first.or(Some(found)),
        },
    }
}

/// The conflict that ends a run before its step: that of a strict one.
pub(super) fn stops(strict: bool, conflict: Option<Conflict>) -> Option<Conflict>
    ensures { result ≡ stops strict conflict }
{
    if strict { conflict } else { None }
}

/// A conflict of the next step, with its location and clock.
pub(super) fn conflict_at(world: &World, conflict: Option<Conflict>) -> Option<ConflictAt>
    ensures { result ≡ option_map (conflict_at world.now) conflict }
{
    match conflict {
        Some(conflict) => Some(ConflictAt {
            conflict,
            loc: world.loc(),
            clock: world.clock(),
        }),
        None => None,
    }
}

//! A machine that is at one moment of a session after another.

ghost use Rattle.std.specs.Prelude.{◌≡◌, IfOk, OnOk};
ghost use Rattle.mix_session.specs.Change.{world_at};

use crate::timeline::{lead_forth, led_to};
use mix_machine::World;
use std::alloc::Global;
use std::marker::Model;
use undo_core::{Journal, Memory};

/// A machine that is at one moment after another: after some first changes of all, those done and
/// those that stand ahead. To go on from one to the next takes no more than the changes between.
#[derive(Drop)]
pub struct Moments<'s> {
    journal: &'s Journal<World>,
    number: usize,
    world: World,
}

impl<'s> Model for Moments<'s> {
    ghost use Rattle.mix_session.specs.Moments.{IsMoment, MomentsState};

    ghost Value = { MomentsState };

    ghost view = { λ m. record { of = m.journal.now; world = m.world } };

    ghost invariant = { λ m. IsMoment m.journal.now m.number m.world };
}

impl<'s> Moments<'s> {
    /// Begins after the changes done.
    pub(crate) fn of(alloc: Global, journal: &'s Journal<World>) -> Result<Moments<'s>, Memory>
        ensures { IfOk result (λ m. m.of ≡ journal.now) }
    {
        let number = journal.done();
        let world = led_to(alloc, journal, number)?;
        Ok(Moments {
            journal,
            number,
            world,
        })
    }

    /// The machine at this moment.
    pub fn world(&self) -> &World
        ensures { result.now ≡ self.now.world }
    {
        &self.world
    }

    /// Comes to the moment after the first so many of all changes; after all of them where there are
    /// fewer. Only out of memory refuses it.
    #[tactic(auto, using(crate::proofs::ChangeLemmas::moment_is))]
    pub fn come_to(&mut self, alloc: Global, number: usize) -> Result<(), Memory>
        ensures of { self.new.of ≡ self.old.of }
        ensures world { OnOk result (self.new.world ≡ world_at self.old.of number) }
    {
        let number = number.min(self.journal.all().len());
        if number < self.number {
            self.world = led_to(alloc, self.journal, number)?;
            self.number = number;
            return Ok(());
        }
        lead_forth(
            alloc,
            self.journal,
            number,
            &mut self.number,
            &mut self.world,
        )
    }
}

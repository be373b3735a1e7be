//! A journal read from its last change backwards.
ghost use Rattle.std.specs.Prelude.{◌≡◌, ◌+◌, IfSome, MatchOption};
ghost use Rattle.undo_core.specs.Replay.{TakesBack, Overwrote};

use crate::journal::Journal;
use crate::places::{before_place, last_part};
use crate::undo::Undo;
use crate::values::{Backwards, Values};
use std::marker::Model;

/// The changes of a journal that are done, read from the last one backwards, by the values that each overwrote.
#[derive(Drop)]
pub struct Past<'a, S: Undo> {
    journal: &'a Journal<S>,
    kept: Backwards<'a, S::Old>,
    // how many values and changes they are, and the places at which changes end
    count: usize,
    places: &'a [usize],
    left: usize,
}

impl<'a, S: Undo> Model for Past<'a, S> {
    ghost use Rattle.undo_core.specs.History.{Reading};
    ghost use Rattle.undo_core.specs.Leads.{IsRead};

    ghost Value = { Reading S S.Change };

    ghost view = { λ p. record { of = p.journal.now; left = p.left } };

    ghost invariant = { λ p. IsRead S.gives S.keeps S.put S.Old.is_last p.journal.now.first p.journal.now.changes p.kept p.count p.places.now p.left };
}

impl<'a, S: Undo> Past<'a, S> {
    ghost use Rattle.undo_core.specs.Leads.{IsRead};

    /// All that a journal keeps.
    pub(crate) fn of(
        journal: &'a Journal<S>,
        kept: Backwards<'a, S::Old>,
        count: usize,
        places: &'a [usize],
        left: usize,
    ) -> Past<'a, S>
        requires { IsRead S.gives S.keeps S.put S.Old.is_last journal.now.first journal.now.changes kept count places.now left }
        ensures of { result.of ≡ journal.now }
        ensures left { result.left ≡ left }
    {
        Past {
            journal,
            kept,
            count,
            places,
            left,
        }
    }

    /// The values that the last change left to read overwrote, in the order in which it overwrote them, if one is left. It takes no memory.
    pub fn earlier(&mut self) -> Option<Values<'a, S::Old>>
        ensures of { self.new.of ≡ self.old.of }
        ensures left { MatchOption result (self.old.left ≡ 0) (λ _. self.old.left ≡ self.new.left + 1) }
        ensures back { MatchOption result (self.new.left ≡ 0) (λ values. TakesBack S.gives S.put self.old.of.first self.old.of.changes self.new.left values) }
        ensures kept { IfSome result (λ values. Overwrote S.gives S.keeps self.old.of.first self.old.of.changes self.new.left values) }
    {
        if self.left == 0 {
            return None;
        }
        let places = before_place(self.places, self.count);
        let many = last_part(&self.kept, self.count, places);
        let values = Values::of(self.kept.copied(), many);
        self.kept = self.kept.before(many);
        self.count -= many;
        self.places = places;
        self.left -= 1;
        Some(values)
    }
}

//! What a command waits for.

ghost use Rattle.std.specs.Prelude.{◌≡◌};
ghost use Rattle.mix_session.specs.Prelude.{watched, is_met, is_conflict, has_conflict};

use mix_machine::{Mark, Part, Place};

/// What a command waits for: a change that alters a part of the machine, or the location of a cell, or a change that conflicts with a transfer under way.
#[derive(Clone, Copy)]
pub enum Condition {
    Alters(Part),
    At(Place),
    Conflicts,
}

impl Condition {
    /// The part by whose marks it is seen whether the condition is met; of a conflict any part.
    pub(crate) fn watched(&self) -> Part
        ensures { result ≡ watched self.now }
    {
        match self {
            Condition::Alters(part) => *part,
            Condition::At(_) => Part::Loc,
            Condition::Conflicts => Part::Clock,
        }
    }

    /// Whether a change meets the condition, by the marks before and after it, of which the machine has come to `now`, and by whether it conflicts.
    pub(crate) fn is_met(&self, conflicts: bool, before: &Mark, after: &Mark, now: &Mark) -> bool
        ensures { result ≡ is_met self.now conflicts before.now after.now now.now }
    {
        match self {
            Condition::Alters(_) => !before.is_same(*after),
            Condition::At(place) => now.is_same(Mark::Location(place.number())),
            Condition::Conflicts => conflicts,
        }
    }

    // Whether it is a conflict.
    fn is_conflict(&self) -> bool
        ensures { result ≡ is_conflict self.now }
    {
        matches!(self, Condition::Conflicts)
    }
}

/// Whether one of some conditions is a conflict.
pub(crate) fn has_conflict(conditions: &[Condition]) -> bool
    ensures { result ≡ has_conflict conditions.now }
{
    conditions.iter().any(|condition| condition.is_conflict())
}

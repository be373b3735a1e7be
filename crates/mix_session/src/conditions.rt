//! Several conditions that a command waits for.

ghost use Rattle.std.specs.Prelude.{◌≡◌, ◌≤◌, ◌<◌, ◌++◌, ◌∷◌, [], length};
ghost use Rattle.mix_session.specs.Conditions.{most_conditions};

use crate::condition::Condition;
use mix_machine::Part;
use std::marker::Model;

/// What a command waits for: conditions, at most eight, of which it waits for the first that is met.
#[derive(Clone, Copy)]
pub struct Conditions {
    places: [Condition; Conditions::MOST],
    count: usize,
}

impl Model for Conditions {
    ghost use Rattle.std.specs.Prelude.{List, length, take};
    ghost use Rattle.mix_session.specs.declared.condition.Condition.{Condition};

    ghost Value = { List Condition };

    ghost view = { λ c. take c.count c.places };

    ghost use Rattle.mix_session.specs.Conditions.{places_of, AreKept};
    ghost use Rattle.mix_session.specs.law.Conditions.{used_length, used_places};

    ghost invariant = { λ c. AreKept c.places c.count };

    ghost inverse = { λ conditions. record { places = places_of conditions; count = length conditions } };

    ghost inverse_ok = { λ c kept i. record {
      places = used_places c.places c.count kept i;
      count = used_length c.places c.count kept i;
    } };
}

impl Conditions {
    /// The most that one command may wait for.
    pub const MOST: usize = 8;

    /// No condition, which no change meets.
    pub fn none() -> Conditions
        ensures { result ≡ [] }
    {
        Conditions {
            places: [Condition::Alters(Part::Clock); Conditions::MOST],
            count: 0,
        }
    }

    /// How many there are.
    pub fn len(&self) -> usize
        ensures is { result ≡ length self.now }
        ensures within { result ≤ most_conditions }
    {
        self.count
    }

    /// Waits for one more, after the others.
    pub fn push(&mut self, condition: Condition)
        requires { length self.old < most_conditions }
        ensures { self.new ≡ self.old ++ condition ∷ [] }
    {
        self.places[self.count] = condition;
        self.count += 1;
    }

    /// The conditions, one after the other.
    pub fn as_slice(&self) -> &[Condition]
        ensures is { result.now ≡ self.now }
        ensures within { length self.now ≤ most_conditions }
    {
        &self.places[..self.count]
    }
}

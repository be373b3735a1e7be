//! A place in memory: the number of a cell (1.3.1).
ghost use Rattle.std.specs.Prelude.{◌≡◌, ◌<◌, ◌↔◌, IsSome, IfSome};

use std::marker::Model;

/// How many cells the memory has (1.3.1).
pub const CELLS: u16 = 4000;

/// The number of a cell, 0 to 3999 (1.3.1), in the order of the numbers.
#[derive(Clone, Copy, Debug, PartialEq, Eq, PartialOrd, Ord)]
pub struct Place {
    number: u16,
}

impl Model for Place {
    ghost use Rattle.std.specs.Prelude.{ℕ, ◌<◌};

    ghost Value = { ℕ };

    ghost view = { λ p. p.number };

    ghost invariant = { λ p. p.number < 4000 };

    ghost inverse = { λ n. record { number = n } };
}

impl Place {
    /// The cell with this number (1.3.1), or `None` if the number is 4000 or more.
    pub fn of(n: u16) -> Option<Place>
        ensures valid { IsSome result ↔ (n < 4000) }
        ensures value { IfSome result (λ p. p ≡ n) }
    {
        if n < CELLS {
            Some(Place { number: n })
        } else {
            None
        }
    }

    /// The number, 0 to 3999 (1.3.1).
    pub fn number(self) -> u16
        ensures is { result ≡ self }
        ensures bound { result < 4000 }
    {
        self.number
    }
}

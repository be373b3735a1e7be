//! The number of a unit.
ghost use Rattle.std.specs.Prelude.{◌≡◌, ◌<◌, ◌↔◌, IsSome, IfSome};
ghost use Rattle.mix_word.specs.Uses.{unit_count};
ghost use Rattle.mix_machine.specs.units.UnitKind.{kind_of};

use crate::units::kind::{KINDS, UnitKind};
use mix_word::UNITS;
use std::marker::Model;

/// The number of a unit, 0 to 20 (1.3.1): 0 to 7 are tapes, 8 to 15 disks, 16 the card reader, 17 the card punch, 18 the printer, 19 the
/// typewriter and 20 the paper tape.
#[derive(Clone, Copy, Debug, PartialEq, Eq)]
pub struct UnitNo {
    number: u8,
}

impl Model for UnitNo {
    ghost use Rattle.std.specs.Prelude.{ℕ, ◌<◌};
    ghost use Rattle.mix_word.specs.Uses.{unit_count};

    ghost Value = { ℕ };

    ghost view = { λ u. u.number };

    ghost invariant = { λ u. u.number < unit_count };

    ghost inverse = { λ n. record { number = n } };
}

impl UnitNo {
    /// How many units there are (1.3.1).
    pub const COUNT: usize = UNITS as usize;

    /// Unit 16, the card reader (1.3.1).
    pub(crate) const CARD_READER: UnitNo = UnitNo { number: 16 };

    /// Unit 19, the typewriter (1.3.1).
    pub(crate) const TYPEWRITER: UnitNo = UnitNo { number: 19 };

    /// The unit of this number (1.3.1), or none if there is no such unit.
    pub fn of(n: u8) -> Option<UnitNo>
        ensures valid { IsSome result ↔ (n < unit_count) }
        ensures value { IfSome result (λ u. u ≡ n) }
    {
        if n < UNITS {
            Some(UnitNo { number: n })
        } else {
            None
        }
    }

    /// The number (1.3.1), below `UnitNo::COUNT`.
    pub fn number(self) -> u8
        ensures is { result ≡ self }
        ensures bound { result < unit_count }
    {
        self.number
    }

    /// What the unit is (1.3.1).
    pub fn kind(self) -> UnitKind
        ensures { result ≡ kind_of self }
    {
        KINDS[usize::from(self.number)]
    }
}

//! Which parts that have numbers the values name that a change overwrote: no others can differ.

ghost use Rattle.std.specs.Prelude.{◌≡◌, ◌≤◌, ◌<◌, ◌+◌, ℕ, false, max, min, IfSome};
ghost use Rattle.std.specs.List.{list_any};
ghost use Rattle.mix_machine.specs.World.{WorldState};
ghost use Rattle.mix_session.specs.Altered.{count_of};
ghost use Rattle.mix_session.specs.Named.{number_in, is_of, Leads, HoldsAll, IsOutside};

use crate::altered::Kind;
use mix_machine::{Old, mark_law};
use mix_word::{CELLS, UNITS};
use undo_core::Values;

/// Numbers from a first one up to the one before an end.
#[derive(Clone, Copy)]
pub(super) struct Numbers {
    pub first: u16,
    pub end: u16,
}

impl Numbers {
    // These and one more.
    fn with(self, number: u16) -> Numbers
        requires { number < 65535 }
        ensures first { result.first ≡ min self.first number }
        ensures end { result.end ≡ max self.end (number + 1) }
    {
        Numbers {
            first: self.first.min(number),
            end: self.end.max(number + 1),
        }
    }
}

/// Of each kind of parts that have numbers, those from a first one up to the one before an end.
#[derive(Clone, Copy)]
pub(super) struct Named {
    pub cells: Numbers,
    pub breaks: Numbers,
    pub units: Numbers,
}

impl Named {
    /// All that there are.
    pub(super) const ALL: Named = Named {
        cells: Numbers {
            first: 0,
            end: CELLS,
        },
        breaks: Numbers {
            first: 0,
            end: CELLS,
        },
        units: Numbers {
            first: 0,
            end: UNITS as u16,
        },
    };

    /// Those that some values name, and what stands between them.
    pub(super) fn by(kept: &Values<'_, Old>) -> Named
        ensures { (v w : WorldState) → Leads kept.now v w → HoldsAll result v w }
    {
        mark_law();
        Named {
            cells: named_in(Kind::Cells, kept),
            breaks: named_in(Kind::Breaks, kept),
            units: named_in(Kind::Units, kept),
        }
    }
}

// The numbers of the kind that some values name, and those between them.
fn named_in(kind: Kind, kept: &Values<'_, Old>) -> Numbers
    ensures within { result.end ≤ count_of kind }
    ensures others { (n : ℕ) → IsOutside result n → list_any (is_of kind n) kept.now ≡ false }
{
    let mut left = kept.copied();
    let mut numbers = Numbers {
        first: u16::MAX,
        end: 0,
    };
    for _ in 0..left.len() {
        match left.pop() {
            None => unreachable!(),
            Some(value) => numbers = with_named(kind, numbers, value),
        }
    }
    numbers
}

// Numbers, and that which a value names, if it names one of the kind.
fn with_named(kind: Kind, numbers: Numbers, value: Old) -> Numbers
    requires { numbers.end ≤ count_of kind }
    ensures within { result.end ≤ count_of kind }
    ensures others { (n : ℕ) → IsOutside result n → IsOutside numbers n }
    ensures here { (n : ℕ) → IsOutside result n → is_of kind n value ≡ false }
{
    match number_in(kind, value) {
        None => numbers,
        Some(number) => numbers.with(number),
    }
}

// Which one a value is of, if it is of one of the kind.
fn number_in(kind: Kind, value: Old) -> Option<u16>
    ensures is { result ≡ number_in kind value }
    ensures small { IfSome result (λ n. n < count_of kind) }
{
    match kind {
        Kind::Cells => match value {
            Old::Cell(place, _) => Some(place.number()),
            _ => None,
        },
        Kind::Breaks => match value {
            Old::Break(place, _) => Some(place.number()),
            _ => None,
        },
        Kind::Units => match value {
            Old::Until(unit, _) => Some(u16::from(unit.number())),
            _ => None,
        },
    }
}

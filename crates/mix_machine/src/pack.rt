//! Old values in units of 32 bits.
ghost use Rattle.std.specs.Prelude.{refl};
ghost use Rattle.mix_machine.specs.Prelude.{said, is_clock};
ghost use Rattle.mix_machine.specs.law.Packed.{said-fewer};

mod anchor;
mod appending;
mod headers;
mod kind;
mod last;
mod moved;
mod parts;
mod reading;
mod row;
mod step;
mod stored;

use crate::old::Old;
pub use crate::pack::anchor::Anchor;
pub(crate) use crate::pack::kind::Kind;
use crate::pack::kind::says_clock;
pub(crate) use crate::pack::moved::{Moved, MovedWith};
pub(crate) use crate::pack::parts::{long, register, short};
pub(crate) use crate::pack::reading::take_before;
pub(crate) use crate::pack::row::{append_row, row_of};
pub(crate) use crate::pack::step::{
    before_jump, before_moment, before_short, before_store, short_register, wide_bits,
};
pub(crate) use crate::pack::stored::{Stored, store_of};
use undo_core::{Last, Pack};

impl Pack for Old {
    type Anchor = Anchor;

    ghost said = { said };

    ghost said_none = { λ _. refl };

    ghost said_fewer = { said-fewer };

    ghost is_last = { is_clock };

    /// Whether the value is the clock, in which a step ends.
    #[inline(always)]
    fn is_last(self) -> bool {
        matches!(self, Old::Clock(_))
    }

    /// The machine at its beginning.
    fn anchor() -> Anchor {
        Anchor { loc: 0, clock: 0 }
    }

    /// Appends the units of the value: one to three, of which the last one is its header.
    #[inline(always)]
    fn pack(self, units: &mut Vec<u32>) {
        appending::append(self, units);
    }

    /// Takes the last value off, if there is one.
    #[inline(always)]
    fn take(units: &mut Vec<u32>, anchor: &mut Anchor) -> Option<Old> {
        let header = units.pop()?;
        reading::take_before(header, units, anchor)
    }

    /// Whether the last value of units is a clock, which their header says.
    #[inline(always)]
    fn is_ended(units: &[u32], _anchor: Anchor) -> bool {
        match units.split_last() {
            None => true,
            Some((header, _)) => says_clock(*header),
        }
    }

    /// The last value of units, if there is one.
    #[inline(always)]
    fn last(units: &[u32], more: Option<u32>, anchor: Anchor) -> Option<Last<Old, Anchor>> {
        match more {
            Some(header) => reading::last_before(header, units, anchor),
            None => {
                let (header, before) = units.split_last()?;
                reading::last_before(*header, before, anchor)
            }
        }
    }
}

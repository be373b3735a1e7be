//! What `show all` writes of the machine: its registers, the cells that are not +0, its breakpoints, and the units that hold something.

ghost use Rattle.std.specs.Prelude.{◌≡◌, ◌<◌, IfOk, string_bytes};
ghost use Rattle.mix_word.specs.Uses.{unit_count};
ghost use Rattle.mix_session.specs.Show.{is_used, was_used, used_unit_text, all_text};

use crate::show::cells::{Breakpoints, Cells, FilledCells};
use crate::show::each::{Each, Numbered};
use crate::show::unit::UnitLines;
use crate::show::{Flags, Registers};
use mix_machine::{Unit, UnitNo, World};
use mix_word::{CELLS, UNITS};
use std::alloc::{AllocError, Global};
use std::fmt;

/// The lines of `show all`.
#[tactic(auto, unfolding(crate::specs::Show::all_text, crate::specs::Show::registers_text))]
pub(super) fn all_lines(alloc: Global, world: &World) -> Result<String, AllocError>
    ensures { IfOk result (λ s. string_bytes s ≡ all_text world.now) }
{
    let (registers, flags) = (Registers(world), Flags(world));
    let cells = Each::<Cells<FilledCells>>::between(world, 0, CELLS);
    let breaks = Each::<Cells<Breakpoints>>::between(world, 0, CELLS);
    let units = Each::<UsedUnits>::between(world, 0, u16::from(UNITS));
    let text = format!(in alloc; "{registers}{flags}{cells}breaks{breaks}\n{units}")?;
    Ok(text)
}

// Whether a unit has something to show.
fn is_used(unit: &Unit) -> bool
    ensures { result ≡ is_used unit.now }
{
    0 < unit.place() || 0 < unit.blocks() || 0 < unit.rows() || 0 < unit.delay()
}

/// Whether a unit was used or holds something: it has something to show, or a transfer has set its time.
pub fn was_used(unit: &Unit) -> bool
    ensures { result ≡ was_used unit.now }
{
    is_used(unit) || 0 < unit.until()
}

/// The lines of the units that have something to show, by their numbers.
struct UsedUnits;

impl Numbered for UsedUnits {
    type Of = World;

    ghost count = { λ _. unit_count };

    ghost text = { used_unit_text };

    fn write<W: fmt::Write>(world: &World, number: u16, f: &mut fmt::Formatter<W>) -> fmt::Result {
        let unit = unit_at(number as u8);
        if is_used(world.unit(unit)) {
            let lines = UnitLines(world, unit);
            write!(f, "{lines}")
        } else {
            Ok(())
        }
    }
}

pub(crate) fn unit_at(number: u8) -> UnitNo
    requires { number < unit_count }
    ensures { result ≡ number }
{
    UnitNo::of(number).unwrap()
}

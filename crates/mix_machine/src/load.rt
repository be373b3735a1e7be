//! A program put into the machine (1.3.2).
ghost use Rattle.std.specs.Prelude.{◌≡◌, length, replicate, IfOk};
ghost use Rattle.mix_machine.specs.Loaded.{placed, blank, loaded};
ghost use Rattle.mix_word.specs.Word.{zero_word};

use crate::breakpoints::Breakpoints;
use crate::registers::Registers;
use crate::units::Units;
use crate::world::World;
use mix_word::{Cmp, Place, Sign, Word};
use std::alloc::Global;
use undo_core::Memory;

const CELLS: usize = mix_word::CELLS as usize;

impl World {
    /// The machine before its first step (1.3.2), with words put at their places in order, so that a later one wins, and the location at
    /// `start`, and with the units of a deck: all else is +0, off, EQUAL and 0, with no breakpoint. `Memory` where there is no room for the cells.
    #[tactic(auto, unfolding(crate::specs::Loaded::loaded))]
    pub fn load(
        alloc: Global,
        words: &[(Place, Word)],
        start: Place,
        units: Units,
    ) -> Result<World, Memory>
        ensures { IfOk result (λ w. w ≡ loaded words.now start units) }
    {
        let cells = cells_with(alloc, CELLS, words)?;
        Ok(World::blank(cells, start, units))
    }

    // The machine with these cells and units and all else +0, off, EQUAL and 0.
    fn blank(cells: Vec<Word>, start: Place, units: Units) -> World
        requires { length cells.items ≡ 4000 }
        ensures { result ≡ blank cells.items start units }
    {
        World {
            registers: Registers::blank(),
            over: false,
            cmp: Cmp::Equal,
            cells,
            loc: start.number(),
            clock: 0,
            units,
            breaks: Breakpoints::none(),
        }
    }
}

// So many cells of +0, all those of the machine, with words put at their places in order.
fn cells_with(alloc: Global, count: usize, words: &[(Place, Word)]) -> Result<Vec<Word>, Memory>
    requires { count ≡ 4000 }
    ensures cells { IfOk result (λ v. v.items ≡ placed (replicate count zero_word) words.now) }
    ensures len { IfOk result (λ v. length v.items ≡ count) }
{
    let mut cells = vec![in alloc; Word::ZERO; count]?;
    for &(place, word) in words {
        cells[usize::from(place.number())] = word;
    }
    Ok(cells)
}

//! What `show` writes of the cells.

ghost use Rattle.std.specs.Prelude.{◌≡◌, ◌<◌, ℕ, List, Some};
ghost use Rattle.std.specs.Fmt.{WritesOnOk};
ghost use Rattle.mix_machine.specs.World.{WorldState};
ghost use Rattle.mix_session.specs.Show.{cell_line, break_text, is_plus_zero, filled_cell_text};

use crate::show::each::Numbered;
use mix_machine::{Place, Sign, Word, World};
use mix_word::Location;
use std::fmt;
use std::marker::PhantomData;

/// A kind of text that each cell of a machine has.
pub(super) trait CellText {
    // The text of the cell with a number.
    ghost text: { WorldState → ℕ → List ℕ };

    /// Writes the text of a cell.
    fn write<W: fmt::Write>(world: &World, place: Place, f: &mut fmt::Formatter<W>) -> fmt::Result
        ensures { WritesOnOk W.write_str_gives f.old result (text world.now place) f.new };
}

/// The cells, each with its text of a kind.
pub(super) struct Cells<C: CellText>(PhantomData<C>);

impl<C: CellText> Numbered for Cells<C> {
    type Of = World;

    ghost count = { λ _. 4000 };

    ghost text = { C.text };

    fn write<W: fmt::Write>(world: &World, number: u16, f: &mut fmt::Formatter<W>) -> fmt::Result {
        C::write(world, place_at(number), f)
    }
}

pub(crate) fn place_at(number: u16) -> Place
    requires { number < 4000 }
    ensures { result ≡ number }
{
    Place::of(number).unwrap()
}

/// The line of a cell.
#[derive(Clone, Copy)]
struct CellLine<'a>(&'a World, Place);

impl fmt::Display for CellLine<'_> {
    ghost output = { λ l. Some (cell_line l.0.now l.1) };

    fn fmt<W: fmt::Write>(&self, f: &mut fmt::Formatter<W>) -> fmt::Result {
        let location = Location(self.1.number());
        let word = self.0.cell(self.1);
        write!(f, "{location} {word}\n")
    }
}

/// The line of each cell.
pub(super) struct CellLines;

impl CellText for CellLines {
    ghost text = { cell_line };

    fn write<W: fmt::Write>(world: &World, place: Place, f: &mut fmt::Formatter<W>) -> fmt::Result {
        let line = CellLine(world, place);
        write!(f, "{line}")
    }
}

/// A blank and the location of each cell that has a breakpoint.
pub(super) struct Breakpoints;

impl CellText for Breakpoints {
    ghost text = { break_text };

    fn write<W: fmt::Write>(world: &World, place: Place, f: &mut fmt::Formatter<W>) -> fmt::Result {
        if world.is_break(place) {
            let location = Location(place.number());
            write!(f, " {location}")
        } else {
            Ok(())
        }
    }
}

/// The line of each cell that holds another word than +0.
pub(super) struct FilledCells;

impl CellText for FilledCells {
    ghost text = { filled_cell_text };

    fn write<W: fmt::Write>(world: &World, place: Place, f: &mut fmt::Formatter<W>) -> fmt::Result {
        if is_plus_zero(world.cell(place)) {
            Ok(())
        } else {
            CellLines::write(world, place, f)
        }
    }
}

// Whether a word is +0, and not -0.
fn is_plus_zero(word: Word) -> bool
    ensures { result ≡ is_plus_zero word }
{
    match word.sign() {
        Sign::Plus => word.magnitude() == 0,
        Sign::Minus => false,
    }
}

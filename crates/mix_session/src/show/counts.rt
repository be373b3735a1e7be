//! The lines of how often each instruction was executed, and how long that took.

ghost use Rattle.std.specs.Prelude.{◌≡◌, ◌++◌, IfOk, OnOk};
ghost use Rattle.mixal_asm.specs.Source.{source_at};
ghost use Rattle.mix_session.specs.ShowCode.{is_overwritten};
ghost use Rattle.mix_session.specs.Counts.{tally_columns, source_text, is_code, tally_line, count_line, total_line, counts_text};
ghost use Rattle.mix_session.specs.Tally.{tally_in};

use crate::show::cells::place_at;
use crate::show::code::Code;
use crate::show::columns::add_right;
use crate::show::lines::{Lines, add_lines};
use crate::tally::{Tally, tallies_of, tally_in};
use crate::timeline::world_of;
use mix_machine::{Place, World};
use mix_word::{CELLS, Location};
use mixal_asm::Program;
use std::alloc::{AllocError, Global};
use undo_core::{Journal, Memory};

/// The lines of the cells that were executed or hold an instruction of the source, and the sums.
#[tactic(auto, unfolding(crate::specs::Counts::counts_text))]
pub(super) fn count_lines(
    alloc: Global,
    program: &Program,
    journal: &Journal<World>,
) -> Result<Vec<u8>, Memory>
    ensures { IfOk result (λ text. text.items ≡ counts_text program.now journal.now) }
{
    let tallies = tallies_of(alloc, journal)?;
    let lines = CountLines {
        code: Code {
            program,
            world: world_of(journal),
        },
        cells: &tallies.cells,
    };
    let mut text = Vec::new(alloc);
    add_lines(alloc, &mut text, &lines, 0, CELLS)?;
    add_total(alloc, &mut text, tallies.all)?;
    Ok(text)
}

/// A program with its machine, and the tallies of its cells.
#[derive(Clone, Copy)]
struct CountLines<'a> {
    code: Code<'a>,
    cells: &'a [Tally],
}

impl Lines for CountLines<'_> {
    ghost count = { λ _. 4000 };

    ghost line = { λ l p. count_line l.code.program.now l.code.world.now (tally_in l.cells.now p) p };

    // The line of a cell, if it was executed or its line is an instruction's.
    #[tactic(auto, unfolding(crate::specs::Counts::tally_line))]
    fn add(&self, alloc: Global, text: &mut Vec<u8>, number: u16) -> Result<(), AllocError> {
        let (tally, place) = (tally_in(self.cells, number), place_at(number));
        if tally.count == 0 && !is_code(self.code.program, place) {
            return Ok(());
        }
        add_tally(alloc, text, tally)?;
        let location = Location(number);
        let location = format!(in alloc; "{location}")?;
        text.extend_from_slice(location.as_bytes())?;
        self.add_source(alloc, text, place)?;
        text.push(b'\n')?;
        Ok(())
    }
}

impl CountLines<'_> {
    // The line of the source that a cell comes from, if it comes from one.
    fn add_source(&self, alloc: Global, text: &mut Vec<u8>, place: Place) -> Result<(), AllocError>
        ensures { OnOk result (text.new.items ≡ text.old.items ++ source_text (is_overwritten self.now.code.program.now self.now.code.world.now place) (source_at self.now.code.program.now place)) }
    {
        match self.code.program.source_at(place) {
            None => Ok(()),
            Some(source) => self.code.add_source(alloc, text, place, source),
        }
    }
}

// Whether the line of a cell is an instruction's.
fn is_code(program: &Program, place: Place) -> bool
    ensures { result ≡ is_code (source_at program.now place) }
{
    match program.source_at(place) {
        None => false,
        Some(source) => source.is_instruction(),
    }
}

// The sums.
#[tactic(auto, unfolding(crate::specs::Counts::total_line))]
fn add_total(alloc: Global, text: &mut Vec<u8>, tally: Tally) -> Result<(), AllocError>
    ensures { OnOk result (text.new.items ≡ text.old.items ++ total_line tally) }
{
    add_tally(alloc, text, tally)?;
    text.extend_from_slice(b"total\n")
}

// How often and how long, in columns.
#[tactic(auto, unfolding(crate::specs::Counts::tally_columns))]
fn add_tally(alloc: Global, text: &mut Vec<u8>, tally: Tally) -> Result<(), AllocError>
    ensures { OnOk result (text.new.items ≡ text.old.items ++ tally_columns tally) }
{
    let (count, time) = (tally.count, tally.time);
    let count = format!(in alloc; "{count}")?;
    let time = format!(in alloc; "{time}")?;
    add_right(text, 10, count.as_bytes())?;
    text.extend_from_slice(b"  ")?;
    add_right(text, 10, time.as_bytes())?;
    text.extend_from_slice(b"  ")
}

//! Where a breakpoint of a line stands.

use dap_asked::line_of_cell;
use mix_machine::Place;
use mixal_asm::Program;

/// The cell of the first word that the lines from a number on give, and the line that put a word there.
pub(crate) fn cell_of_line(program: &Program, line: u64) -> Option<(Place, u64)> {
    let place = program.cell_from(line)?;
    Some((place, line_of_cell(program, place).unwrap_or(line)))
}

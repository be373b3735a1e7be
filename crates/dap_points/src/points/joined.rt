//! What stops a run, of both kinds: one list after the other.

ghost use Rattle.std.specs.Prelude.{◌≡◌, ◌++◌, IfOk, OnOk};
ghost use Rattle.dap_points.specs.Points.{cells_of};

use crate::points::breakpoint::Breakpoint;
use mix_machine::Place;
use mix_refused::Memory;
use mix_session::Condition;
use std::alloc::Global;

/// What is watched, and then kinds of exceptions.
pub(crate) fn both(
    alloc: Global,
    watched: &[Condition],
    filters: &[Condition],
) -> Result<Vec<Condition>, Memory>
    ensures { IfOk result (λ conditions. conditions.items ≡ watched.now ++ filters.now) }
{
    let mut conditions = Vec::new(alloc);
    conditions.extend_from_slice(watched)?;
    conditions.extend_from_slice(filters)?;
    Ok(conditions)
}

/// The cells of breakpoints of lines, and then those of instructions.
#[tactic(auto, using(crate::proofs::PointLemmas::cells_joined))]
pub(crate) fn cells_of(
    alloc: Global,
    lines: &[Breakpoint],
    instructions: &[Breakpoint],
) -> Result<Vec<Place>, Memory>
    ensures { IfOk result (λ cells. cells.items ≡ cells_of (lines.now ++ instructions.now)) }
{
    let mut cells = Vec::new(alloc);
    add_cells(&mut cells, lines)?;
    add_cells(&mut cells, instructions)?;
    Ok(cells)
}

fn add_cells(cells: &mut Vec<Place>, breakpoints: &[Breakpoint]) -> Result<(), Memory>
    ensures { OnOk result (cells.new.items ≡ cells.old.items ++ cells_of breakpoints.now) }
{
    for breakpoint in breakpoints {
        cells.push(breakpoint.cell)?;
    }
    Ok(())
}

//! What the units 17 to 20 have written, told as it comes.
#![tactic(auto, using(crate::proofs::EventLemmas::events))]

ghost use Rattle.std.specs.Prelude.{◌≡◌, ◌<◌, ◌∷◌, [], IfOk, OnOk, None, codes, drop, length, map, slice_index_or, string_bytes};
ghost use Rattle.mix_machine.specs.World.{unit_at};
ghost use Rattle.mix_dap.specs.Events.{AddsEvents};
ghost use Rattle.mix_dap.specs.Output.{all_told, none_told, output, outputs, row_line, row_output, taken_line, taken_output, unit_outputs};

use dap_views::{row_text, unit_at};
use mix_machine::{Row, Unit, UnitNo, World};
use mix_refused::Memory;
use rpc_message::Outbox;
use std::alloc::Global;

/// How many rows of each of the units that write text were told.
#[derive(Clone, Copy)]
pub(crate) struct Printed {
    card_punch: u16,
    printer: u16,
    typewriter: u16,
    paper_tape: u16,
}

impl Printed {
    pub(crate) fn none() -> Printed
        ensures { result ≡ none_told }
    {
        Printed {
            card_punch: 0,
            printer: 0,
            typewriter: 0,
            paper_tape: 0,
        }
    }

    /// Tells the rows that were written since, and that rows were taken back; these stay where they were told.
    pub(crate) fn tell(
        &mut self,
        alloc: Global,
        world: &World,
        out: &mut Outbox,
    ) -> Result<(), Memory>
        ensures prints { OnOk result (AddsEvents (outputs self.old world.now) out.old out.new) }
        ensures counts { OnOk result (self.new ≡ all_told world.now) }
    {
        let told = *self;
        let card_punch = tell_unit(alloc, world, unit_at(17), told.card_punch, out)?;
        let printer = tell_unit(alloc, world, unit_at(18), told.printer, out)?;
        let typewriter = tell_unit(alloc, world, unit_at(19), told.typewriter, out)?;
        let paper_tape = tell_unit(alloc, world, unit_at(20), told.paper_tape, out)?;
        *self = Printed {
            card_punch,
            printer,
            typewriter,
            paper_tape,
        };
        Ok(())
    }
}

// The same of one unit, of which so many rows were told: how many are told then.
fn tell_unit(
    alloc: Global,
    world: &World,
    number: UnitNo,
    told: u16,
    out: &mut Outbox,
) -> Result<u16, Memory>
    ensures prints { OnOk result (AddsEvents (unit_outputs number told (unit_at world.now number).rows) out.old out.new) }
    ensures count { IfOk result (λ count. count ≡ length (unit_at world.now number).rows) }
{
    let unit = world.unit(number);
    tell_rows(alloc, unit, told, out)?;
    tell_taken(alloc, number, told, unit.rows(), out)?;
    Ok(unit.rows())
}

// The rows of a unit from one on.
fn tell_rows(alloc: Global, unit: &Unit, from: u16, out: &mut Outbox) -> Result<(), Memory>
    ensures { OnOk result (AddsEvents (map row_output (drop from unit.now.rows)) out.old out.new) }
{
    let mut at = from;
    while at < unit.rows() {
        tell_row(alloc, row_at(unit, at), out)?;
        at += 1;
    }
    Ok(())
}

fn row_at(unit: &Unit, number: u16) -> &Row
    requires { number < length unit.now.rows }
    ensures { result.now ≡ slice_index_or unit.now.rows number None }
{
    unit.row(number).unwrap()
}

fn tell_row(alloc: Global, row: &Row, out: &mut Outbox) -> Result<(), Memory>
    ensures { OnOk result (AddsEvents (row_output row.now ∷ []) out.old out.new) }
{
    let line = row_line(alloc, row)?;
    out.output("stdout", line.as_str())?;
    Ok(())
}

fn row_line(alloc: Global, row: &Row) -> Result<String, Memory>
    ensures { IfOk result (λ line. string_bytes line ≡ row_line row.now) }
{
    let text = row_text(alloc, row)?;
    let line = format!(in alloc; "{text}\n")?;
    Ok(line)
}

// That the last of the rows that were told are taken back, if they are.
fn tell_taken(
    alloc: Global,
    number: UnitNo,
    told: u16,
    rows: u16,
    out: &mut Outbox,
) -> Result<(), Memory>
    ensures { OnOk result (AddsEvents (taken_output number told rows) out.old out.new) }
{
    if rows < told {
        tell_count(alloc, number, told - rows, out)
    } else {
        Ok(())
    }
}

fn tell_count(alloc: Global, number: UnitNo, count: u16, out: &mut Outbox) -> Result<(), Memory>
    ensures { OnOk result (AddsEvents (output (codes "console") (taken_line number count) ∷ []) out.old out.new) }
{
    let line = taken_line(alloc, number.number(), count)?;
    out.output("console", line.as_str())?;
    Ok(())
}

#[tactic(auto, using(std::proofs::Common::append_assoc))]
fn taken_line(alloc: Global, unit: u8, count: u16) -> Result<String, Memory>
    ensures { IfOk result (λ line. string_bytes line ≡ taken_line unit count) }
{
    let line = format!(in alloc; "(unit {unit}: the last rows are taken back, {count} of them)\n")?;
    Ok(line)
}

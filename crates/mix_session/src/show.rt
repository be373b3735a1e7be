//! What `show` writes of the machine.

ghost use Rattle.std.specs.Prelude.{◌≡◌, Some, IfOk, string_bytes, flat_map};
ghost use Rattle.mix_word.specs.Register.{all_registers};
ghost use Rattle.mix_session.specs.Show.{value_text, register_line, flags_text, registers_text, cells_text, clock_text, breaks_text, changes_text};
ghost use Rattle.mix_session.specs.Conflicts.{met_text};
ghost use Rattle.mix_session.specs.Topic.{topic_text};

pub(crate) mod all;
pub(crate) mod cells;
pub(crate) mod changes;
mod code;
mod columns;
pub(crate) mod conflicts;
pub(crate) mod counts;
pub(crate) mod differences;
mod each;
pub(crate) mod last;
mod lines;
pub(crate) mod unit;
mod values;
pub(crate) mod words;

use crate::condition::Condition;
use crate::keyword::Keyword;
use crate::reply::position_of;
use crate::request::Topic;
use crate::show::all::all_lines;
use crate::show::cells::{Breakpoints, CellLines, Cells};
use crate::show::changes::diff_lines;
use crate::show::code::code_lines;
use crate::show::conflicts::conflict_lines;
use crate::show::counts::count_lines;
use crate::show::each::Each;
use crate::show::last::{last_lines, write_lines};
use crate::show::unit::unit_lines;
use crate::show::values::{cell_value_lines, register_value_lines, value_lines};
use crate::timeline::world_of;
use mix_machine::{Place, Reg, World};
use mix_word::{CELLS, Short, Word};
use mixal_asm::Program;
use std::alloc::{AllocError, Global};
use std::fmt;
use undo_core::{Journal, Memory};

/// The reply of `show`, of a program and its machine after so many changes.
pub(crate) fn topic_lines(
    alloc: Global,
    topic: Topic,
    program: &Program,
    journal: &Journal<World>,
) -> Result<Vec<u8>, Memory>
    ensures { IfOk result (λ text. text.items ≡ topic_text topic program.now journal.now) }
{
    let world = world_of(journal);
    match topic {
        Topic::Registers => Ok(registers_lines(alloc, world)?.into_bytes()),
        Topic::Cells(first, last) => Ok(cells_lines(alloc, world, first, last)?.into_bytes()),
        Topic::Clock => Ok(clock_line(alloc, world)?.into_bytes()),
        Topic::Breaks => Ok(breaks_line(alloc, world)?.into_bytes()),
        Topic::Changes => Ok(changes_line(alloc, journal.done())?.into_bytes()),
        Topic::Unit(number) => Ok(unit_lines(alloc, world, number)?.into_bytes()),
        Topic::All => Ok(all_lines(alloc, world)?.into_bytes()),
        Topic::Code(first, last) => Ok(code_lines(alloc, program, world, first, last)?),
        Topic::Value(word) => Ok(value_lines(alloc, word)?),
        Topic::Values => Ok(register_value_lines(alloc, world)?),
        Topic::CellValues(first, last) => Ok(cell_value_lines(alloc, world, first, last)?),
        Topic::Symbols => program.symbols_text(alloc),
        Topic::Last(count) => last_lines(alloc, journal, count),
        Topic::Writes(condition) => met_lines(alloc, journal, condition),
        Topic::Diff(number) => diff_lines(alloc, journal, number),
        Topic::Counts => count_lines(alloc, program, journal),
        Topic::Conflicts => conflict_lines(alloc, journal),
    }
}

// The lines of the changes done that meet a condition.
fn met_lines(
    alloc: Global,
    journal: &Journal<World>,
    condition: Condition,
) -> Result<Vec<u8>, Memory>
    ensures { IfOk result (λ text. text.items ≡ met_text condition journal.now) }
{
    match condition {
        Condition::Alters(_) | Condition::At(_) => write_lines(alloc, journal, condition),
        Condition::Conflicts => conflict_lines(alloc, journal),
    }
}

/// The lines of `show regs`: the registers, the overflow toggle, the comparison indicator, the location and the clock in u (1.3.1).
#[tactic(auto, unfolding(crate::specs::Show::registers_text))]
pub fn registers_lines(alloc: Global, world: &World) -> Result<String, AllocError>
    ensures { IfOk result (λ s. string_bytes s ≡ registers_text world.now) }
{
    let (registers, flags) = (Registers(world), Flags(world));
    let text = format!(in alloc; "{registers}{flags}")?;
    Ok(text)
}

fn cells_lines(
    alloc: Global,
    world: &World,
    first: Place,
    last: Place,
) -> Result<String, AllocError>
    ensures { IfOk result (λ s. string_bytes s ≡ cells_text world.now first last) }
{
    let cells = Each::<Cells<CellLines>>::between(world, first.number(), last.number() + 1);
    let text = format!(in alloc; "{cells}")?;
    Ok(text)
}

fn clock_line(alloc: Global, world: &World) -> Result<String, AllocError>
    ensures { IfOk result (λ s. string_bytes s ≡ clock_text world.now) }
{
    let clock = world.clock();
    let text = format!(in alloc; "clock {clock}\n")?;
    Ok(text)
}

fn breaks_line(alloc: Global, world: &World) -> Result<String, AllocError>
    ensures { IfOk result (λ s. string_bytes s ≡ breaks_text world.now) }
{
    let breaks = Each::<Cells<Breakpoints>>::between(world, 0, CELLS);
    let text = format!(in alloc; "breaks{breaks}\n")?;
    Ok(text)
}

fn changes_line(alloc: Global, changes: usize) -> Result<String, AllocError>
    ensures { IfOk result (λ s. string_bytes s ≡ changes_text changes) }
{
    let text = format!(in alloc; "changes {changes}\n")?;
    Ok(text)
}

/// The toggle, the indicator, the location and the clock of a machine.
#[derive(Clone, Copy)]
struct Flags<'a>(&'a World);

impl fmt::Display for Flags<'_> {
    ghost output = { λ f. Some (flags_text f.0.now) };

    #[tactic(auto, unfolding(crate::specs::Show::flags_text))]
    fn fmt<W: fmt::Write>(&self, f: &mut fmt::Formatter<W>) -> fmt::Result {
        let world = self.0;
        let (over, cmp) = (world.over().name(), world.cmp().name());
        let position = position_of(world);
        write!(f, "over {over} cmp {cmp} loc {position}\n")
    }
}

/// A register and what it holds.
#[derive(Clone, Copy)]
struct Register(Reg, Word);

impl fmt::Display for Register {
    ghost output = { λ r. Some (value_text r.0 r.1) };

    fn fmt<W: fmt::Write>(&self, f: &mut fmt::Formatter<W>) -> fmt::Result {
        let word = self.1;
        match self.0 {
            Reg::A | Reg::X => write!(f, "{word}"),
            Reg::I1 | Reg::I2 | Reg::I3 | Reg::I4 | Reg::I5 | Reg::I6 | Reg::J => {
                write!(f, "{}", Short(word))
            }
        }
    }
}

/// The line of a register.
#[derive(Clone, Copy)]
struct RegisterLine<'a>(&'a World, Reg);

impl fmt::Display for RegisterLine<'_> {
    ghost output = { λ l. Some (register_line l.0.now l.1) };

    fn fmt<W: fmt::Write>(&self, f: &mut fmt::Formatter<W>) -> fmt::Result {
        let name = self.1.name();
        let value = Register(self.1, self.0.register(self.1));
        write!(f, "{name:<2} {value}\n")
    }
}

/// The lines of the registers.
#[derive(Clone, Copy)]
struct Registers<'a>(&'a World);

impl fmt::Display for Registers<'_> {
    ghost output = { λ s. Some (flat_map (register_line s.0.now) all_registers) };

    fn fmt<W: fmt::Write>(&self, f: &mut fmt::Formatter<W>) -> fmt::Result {
        for register in Reg::ALL {
            let line = RegisterLine(self.0, register);
            write!(f, "{line}")?;
        }
        Ok(())
    }
}

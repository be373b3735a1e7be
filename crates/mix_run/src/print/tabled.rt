//! A run that is told in a table: a row for each step, or for each that altered a part of the machine.
ghost use Rattle.std.specs.Prelude.{◌≡◌, ◌<◌, ◌-◌, ◌^◌, ℕ, List, IfOk};
ghost use Rattle.mix_run.specs.Prelude.{counted, steps_of, Writes};
ghost use Rattle.mix_run.specs.PrintSteps.{HasStepped};
ghost use Rattle.mix_run.specs.StepTable.{StepWalks, tabled_run, unwatched};

use crate::fault::ToolFault;
use crate::print::options::PrintOptions;
use crate::print::steps::{RunEnd, Stepped};
use crate::print::trace::quiet_step;
use crate::table::{Field, Table, TableFormat};
use mix_machine::{Change, Mark, MixFault, Old, Part, World};
use mix_refused::Memory;
use mix_session::change_text;
use mix_stream::{Out, write_all};
use mix_word::{Cmp, Reg};
use mixal_asm::Program;
use std::alloc::Global;
use undo_core::Kept;

const TRACE: &[&str] = &[
    "change",
    "line",
    "location",
    "instruction",
    "A",
    "X",
    "I1",
    "I2",
    "I3",
    "I4",
    "I5",
    "I6",
    "J",
    "overflow",
    "comparison",
    "clock",
];

const WRITES: &[&str] = &["change", "line", "location", "before", "after"];

/// A table of steps: its form, and the part of the machine whose changes it has, if it has not all steps.
#[derive(Clone, Copy)]
pub(crate) struct StepTable {
    pub(crate) format: TableFormat,
    pub(crate) part: Option<Part>,
}

// A table under way: of which program and part it is, its rows, the number of the next step, and
// room for what that overwrites.
#[derive(Drop)]
struct Rows<'a> {
    program: &'a Program,
    part: Option<Part>,
    table: Table,
    number: u64,
    kept: Kept<Old>,
}

/// Does steps, up to a halt or a fault, and so many at most, and writes their table, each row as soon as its step is done. It keeps nothing of the steps.
pub(super) fn write_table<W: Out>(
    alloc: Global,
    program: &Program,
    asked: &StepTable,
    options: PrintOptions,
    world: &mut World,
    out: &mut W,
) -> Result<Stepped, ToolFault>
    requires { W.failed out.old < 2 ^ 64 - 1 }
    ensures { (text : List ℕ) × (let run = tabled_run text options world.old in
        Writes run.bytes (λ s. (s.end ≡ run.end) × (s.conflicts ≡ counted run.met) × (world.new ≡ run.world)) result
        (W.told out.old) (W.failed out.old) (W.told out.new) (W.failed out.new)) }
{
    let (names, columns) = match asked.part {
        None => (TRACE, "rrrlrrrrrrrrrccr"),
        Some(_) => (WRITES, "rrrrr"),
    };
    let mut before = Vec::new(alloc);
    let table = Table::begin(alloc, asked.format, names, columns, &mut before)?;
    write_all(out, &before)?;
    let mut rows = Rows {
        program,
        part: asked.part,
        table,
        number: 0,
        kept: Kept::new(alloc),
    };
    let end = write_rows(alloc, &mut rows, options, world, out)?;
    let mut after = Vec::new(alloc);
    rows.table.end(&mut after)?;
    write_all(out, &after)?;
    Ok(Stepped::alone(end))
}

// Steps, each with its row.
fn write_rows<W: Out>(
    alloc: Global,
    rows: &mut Rows<'_>,
    options: PrintOptions,
    world: &mut World,
    out: &mut W,
) -> Result<RunEnd, ToolFault>
    requires { W.failed out.old < 2 ^ 64 - 1 }
    ensures { let run = steps_of (unwatched options) world.old in
        (text : List ℕ) × Writes text (λ end. (end ≡ run.end) × (world.new ≡ run.world)) result
        (W.told out.old) (W.failed out.old) (W.told out.new) (W.failed out.new) }
{
    let mut left = options.steps;
    while left > 0 {
        let mut text = Vec::new(alloc);
        let end = add_step(alloc, rows, world, &mut text)?;
        write_all(out, &text)?;
        match end {
            None => left -= 1,
            Some(end) => return Ok(end),
        }
    }
    Ok(RunEnd::UsedUp)
}

// The next step, and its row, if it has one; its end, if it ends the run.
fn add_step(
    alloc: Global,
    rows: &mut Rows<'_>,
    world: &mut World,
    text: &mut Vec<u8>,
) -> Result<Option<RunEnd>, Memory>
    ensures { IfOk result (λ end. StepWalks world.old world.new end) }
{
    let halts = world.next_is_halt();
    rows.number = rows.number.saturating_add(1);
    let made = match rows.part {
        None => add_traced(alloc, rows, world, text)?,
        Some(part) => add_altered(alloc, rows, &part, world, text)?,
    };
    match made {
        Some(fault) => Ok(Some(RunEnd::Faulted(fault))),
        None if halts => Ok(Some(RunEnd::Halted)),
        None => Ok(None),
    }
}

// A step, and its row: its number, the line and the location of its instruction, and what it left.
fn add_traced(
    alloc: Global,
    rows: &mut Rows<'_>,
    world: &mut World,
    text: &mut Vec<u8>,
) -> Result<Option<MixFault>, Memory>
    ensures { IfOk result (HasStepped world.old world.new) }
{
    let loc = world.loc();
    let instruction = change_text(alloc, &Change::Step, world)?;
    match quiet_step(world, &mut rows.kept)? {
        None => {}
        Some(fault) => return Ok(Some(fault)),
    }
    let fields = [
        Field::number(u128::from(rows.number)),
        Field::line(rows.program, loc),
        Field::number(u128::from(loc)),
        Field::Text(instruction.as_str()),
        Field::signed(world.register(Reg::A)),
        Field::signed(world.register(Reg::X)),
        Field::signed(world.register(Reg::I1)),
        Field::signed(world.register(Reg::I2)),
        Field::signed(world.register(Reg::I3)),
        Field::signed(world.register(Reg::I4)),
        Field::signed(world.register(Reg::I5)),
        Field::signed(world.register(Reg::I6)),
        Field::signed(world.register(Reg::J)),
        mark_field(&Mark::Toggle(world.over())),
        mark_field(&Mark::Indicator(world.cmp())),
        Field::number(u128::from(world.clock())),
    ];
    rows.table.add_row(alloc, &fields, text)?;
    Ok(None)
}

// A step, and its row if it altered a part: what that held before and after it.
fn add_altered(
    alloc: Global,
    rows: &mut Rows<'_>,
    part: &Part,
    world: &mut World,
    text: &mut Vec<u8>,
) -> Result<Option<MixFault>, Memory>
    ensures { IfOk result (HasStepped world.old world.new) }
{
    let (loc, before) = (world.loc(), world.mark(*part));
    match quiet_step(world, &mut rows.kept)? {
        None => {}
        Some(fault) => return Ok(Some(fault)),
    }
    let after = world.mark(*part);
    if !before.is_same(after) {
        let fields = [
            Field::number(u128::from(rows.number)),
            Field::line(rows.program, loc),
            Field::number(u128::from(loc)),
            mark_field(&before),
            mark_field(&after),
        ];
        rows.table.add_row(alloc, &fields, text)?;
    }
    Ok(None)
}

// What a part holds.
fn mark_field(mark: &Mark) -> Field<'static> {
    match mark {
        Mark::Word(word) => Field::signed(*word),
        Mark::Toggle(over) => Field::Text(if *over { "on" } else { "off" }),
        Mark::Indicator(Cmp::Less) => Field::Text("L"),
        Mark::Indicator(Cmp::Equal) => Field::Text("E"),
        Mark::Indicator(Cmp::Greater) => Field::Text("G"),
        Mark::Location(loc) => Field::number(u128::from(*loc)),
        Mark::Time(time) => Field::number(u128::from(*time)),
    }
}

//! What a value is as a number.

ghost use Rattle.std.specs.Prelude.{◌≡◌};
ghost use Rattle.dap_points.specs.Comparison.{indicator_number, part_number, worth_number};

use dap_asked::Worth;
use mix_machine::{Cmp, Part, World};

/// The word of a W-value, or what a part holds; -0 is 0.
pub(crate) fn worth_number(world: &World, worth: Worth) -> i64
    ensures { result ≡ worth_number world.now worth }
{
    match worth {
        Worth::Word(word) => i64::from(word.number()),
        Worth::Held(part) => part_number(world, part),
    }
}

fn part_number(world: &World, part: Part) -> i64
    ensures { result ≡ part_number world.now part }
{
    match part {
        Part::Register(register) => i64::from(world.register(register).number()),
        Part::Over if world.over() => 1,
        Part::Cmp => indicator_number(world.cmp()),
        Part::Loc => i64::from(world.loc()),
        Part::Clock => world.clock() as i64,
        Part::Cell(place) => i64::from(world.cell(place).number()),
        Part::Over | Part::Unit(_) => 0,
    }
}

fn indicator_number(cmp: Cmp) -> i64
    ensures { result ≡ indicator_number cmp }
{
    match cmp {
        Cmp::Less => -1,
        Cmp::Equal => 0,
        Cmp::Greater => 1,
    }
}

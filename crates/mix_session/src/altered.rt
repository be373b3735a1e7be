//! What differs between two states of the machine, as values: the parts that differ.

ghost use Rattle.std.specs.Prelude.{◌≡◌, ◌<◌, ◌++◌, ◌∷◌, [], Some, Ok, OnOk, IfOk};
ghost use Rattle.std.specs.List.{filter};
ghost use Rattle.undo_core.specs.Replay.{put_back};
ghost use Rattle.mix_machine.specs.Prelude.{does, put_value};
ghost use Rattle.mix_session.specs.Altered.{count_of, part_of, numbered, with_numbered, is_altered, alterations, altered_by};
ghost use Rattle.mix_session.specs.Named.{Covers, HoldsAll};

mod near;
pub(crate) mod unit;

use crate::show::all::unit_at;
use crate::show::cells::place_at;
use mix_machine::{Change, Old, Part, Place, Reg, UnitNo, World};
use mix_word::{CELLS, UNITS};
use near::{Named, Numbers};
use std::alloc::{AllocError, Global};
use undo_core::{Memory, Values};

/// A part of the machine, of those that an item of `show diff` tells of.
#[derive(Clone, Copy)]
pub enum Altered {
    Register(Reg),
    Over,
    Cmp,
    Loc,
    Clock,
    Cell(Place),
    Break(Place),
    Unit(UnitNo),
}

// The parts that have no number; each step alters the last two.
#[rattlefmt::skip]
const UNNUMBERED: [Altered; 13] = [
    Altered::Register(Reg::A), Altered::Register(Reg::X),
    Altered::Register(Reg::I1), Altered::Register(Reg::I2), Altered::Register(Reg::I3),
    Altered::Register(Reg::I4), Altered::Register(Reg::I5), Altered::Register(Reg::I6),
    Altered::Register(Reg::J), Altered::Over, Altered::Cmp,
    Altered::Loc, Altered::Clock,
];

// A kind of parts that have numbers.
#[derive(Clone, Copy)]
enum Kind {
    Cells,
    Breaks,
    Units,
}

impl Kind {
    // How many there are.
    fn count(self) -> u16
        ensures { result ≡ count_of self }
    {
        match self {
            Kind::Cells | Kind::Breaks => CELLS,
            Kind::Units => u16::from(UNITS),
        }
    }

    // The one with a number.
    fn part(self, number: u16) -> Altered
        requires { number < count_of self }
        ensures { result ≡ part_of self number }
    {
        match self {
            Kind::Cells => Altered::Cell(place_at(number)),
            Kind::Breaks => Altered::Break(place_at(number)),
            Kind::Units => Altered::Unit(unit_at(number as u8)),
        }
    }
}

/// Two states of the machine.
#[derive(Clone, Copy)]
pub(crate) struct Worlds<'a> {
    pub before: &'a World,
    pub after: &'a World,
}

/// The parts that differ between two states of the machine, in the order of `show diff`. Only out of memory refuses it.
pub fn alterations(alloc: Global, before: &World, after: &World) -> Result<Vec<Altered>, Memory>
    ensures { IfOk result (λ parts. parts.items ≡ alterations before.now after.now) }
{
    altered_among(alloc, &UNNUMBERED, Named::ALL, Worlds { before, after })
}

/// The parts that a change altered between the states before and after it, of which its line tells: of a step all but the location and the
/// clock, which each step alters. Only out of memory refuses it.
pub fn altered_by(
    alloc: Global,
    change: &Change,
    before: &World,
    after: &World,
) -> Result<Vec<Altered>, Memory>
    ensures { IfOk result (λ parts. parts.items ≡ altered_by change.now before.now after.now) }
{
    altered_in(alloc, change, Named::ALL, Worlds { before, after })
}

/// The same of a change that overwrote these values, which name what may differ.
pub(crate) fn altered_by_kept(
    alloc: Global,
    change: &Change,
    kept: &Values<'_, Old>,
    worlds: Worlds<'_>,
) -> Result<Vec<Altered>, Memory>
    requires given { does worlds.before.now change.now ≡ Ok worlds.after.now }
    requires back { put_back put_value kept.now worlds.after.now ≡ Some worlds.before.now }
    ensures { IfOk result (λ parts. parts.items ≡ altered_by change.now worlds.entry.before.now worlds.entry.after.now) }
{
    let (_before, _after) = (worlds.before.mark(Part::Loc), worlds.after.mark(Part::Loc));
    altered_in(alloc, change, Named::by(kept), worlds)
}

// The same, where of what has numbers no others differ than these.
fn altered_in(
    alloc: Global,
    change: &Change,
    named: Named,
    worlds: Worlds<'_>,
) -> Result<Vec<Altered>, Memory>
    requires { HoldsAll named worlds.before.now worlds.after.now }
    ensures { IfOk result (λ parts. parts.items ≡ altered_by change.now worlds.entry.before.now worlds.entry.after.now) }
{
    match change {
        Change::Step => altered_among(alloc, &UNNUMBERED[..11], named, worlds),
        _ => altered_among(alloc, &UNNUMBERED, named, worlds),
    }
}

// What differs of these parts and of those that have numbers, of which no others differ than these.
fn altered_among(
    alloc: Global,
    unnumbered: &[Altered],
    named: Named,
    worlds: Worlds<'_>,
) -> Result<Vec<Altered>, Memory>
    requires { HoldsAll named worlds.before.now worlds.after.now }
    ensures { IfOk result (λ parts. parts.items ≡ filter (is_altered worlds.entry.before.now worlds.entry.after.now) (with_numbered unnumbered.now)) }
{
    let mut parts = Vec::new(alloc);
    add_each(&mut parts, unnumbered, worlds)?;
    add_numbered(&mut parts, Kind::Cells, named.cells, worlds)?;
    add_numbered(&mut parts, Kind::Breaks, named.breaks, worlds)?;
    add_numbered(&mut parts, Kind::Units, named.units, worlds)?;
    Ok(parts)
}

// Appends what differs of some parts.
fn add_each(
    parts: &mut Vec<Altered>,
    among: &[Altered],
    worlds: Worlds<'_>,
) -> Result<(), AllocError>
    ensures { OnOk result (parts.new.items ≡ parts.old.items ++ filter (is_altered worlds.entry.before.now worlds.entry.after.now) among.now) }
{
    for part in among {
        add(parts, *part, worlds)?;
    }
    Ok(())
}

// Appends what differs of the parts of a kind, of which no others differ than these.
#[tactic(auto, unfolding(crate::specs::Altered::numbered))]
fn add_numbered(
    parts: &mut Vec<Altered>,
    kind: Kind,
    numbers: Numbers,
    worlds: Worlds<'_>,
) -> Result<(), AllocError>
    requires { Covers kind numbers worlds.before.now worlds.after.now }
    ensures { OnOk result (parts.new.items ≡ parts.old.items ++ filter (is_altered worlds.entry.before.now worlds.entry.after.now) (numbered kind)) }
{
    for number in numbers.first..numbers.end {
        add(parts, kind.part(number), worlds)?;
    }
    Ok(())
}

// Appends a part if it differs.
fn add(parts: &mut Vec<Altered>, part: Altered, worlds: Worlds<'_>) -> Result<(), AllocError>
    ensures { OnOk result (parts.new.items ≡ parts.old.items ++ filter (is_altered worlds.entry.before.now worlds.entry.after.now) (part ∷ [])) }
{
    if is_altered(&part, worlds.before, worlds.after) {
        parts.push(part)?;
    }
    Ok(())
}

// Whether a part differs.
fn is_altered(part: &Altered, before: &World, after: &World) -> bool
    ensures { result ≡ is_altered before.now after.now part.now }
{
    match part {
        Altered::Register(register) => !before
            .register(*register)
            .is_same(after.register(*register)),
        Altered::Over => before.over() != after.over(),
        Altered::Cmp => !before.mark(Part::Cmp).is_same(after.mark(Part::Cmp)),
        Altered::Loc => before.loc() != after.loc(),
        Altered::Clock => before.clock() != after.clock(),
        Altered::Cell(place) => !before.cell(*place).is_same(after.cell(*place)),
        Altered::Break(place) => before.is_break(*place) != after.is_break(*place),
        Altered::Unit(number) => !before.unit(*number).is_same(after.unit(*number)),
    }
}

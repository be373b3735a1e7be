//! The scopes of variables, by their references, and which part of the machine a variable is.

ghost use Rattle.std.specs.Prelude.{◌≡◌, Some, None, nat_lt, if◌then◌else◌};
ghost use Rattle.mix_word.specs.Uses.{unit_count};
ghost use Rattle.dap_asked.specs.Scope.{scope_of, flag_named, cell_of_page, unit_named, part_of};

use mix_lines::number;
use mix_machine::{Part, Place, Reg, UnitNo};

/// The reference of the registers.
pub(crate) const REGISTERS: u64 = 1;

/// The reference of the flags.
pub(crate) const FLAGS: u64 = 2;

/// The reference of the units.
pub(crate) const ALL_UNITS: u64 = 3;

/// The reference of the memory.
pub(crate) const MEMORY: u64 = 4;

/// The reference of what unit 0 has written; those of the others follow.
pub const UNITS: u64 = 100;

/// The reference of the first page of memory; those of the others follow.
pub const PAGES: u64 = 1000;

/// How many cells a page of memory has.
pub const PAGE: u16 = 100;

/// What a variable belongs to.
#[derive(Clone, Copy)]
pub enum Scope {
    Registers,
    Flags,
    Units,
    Memory,
    Unit(UnitNo),
    Page(u16),
}

/// The scope of a reference.
#[tactic(auto, unfolding(crate::specs::Scope::scope_of))]
pub fn scope_of(reference: u64) -> Option<Scope>
    ensures { result ≡ scope_of reference }
{
    match reference {
        REGISTERS => Some(Scope::Registers),
        FLAGS => Some(Scope::Flags),
        ALL_UNITS => Some(Scope::Units),
        MEMORY => Some(Scope::Memory),
        1000..=1039 => Some(Scope::Page((reference - PAGES) as u16)),
        _ => Some(Scope::Unit(unit_of(reference.checked_sub(UNITS)?)?)),
    }
}

/// The part of the machine that the variable of a scope with a name is, as the scope tells its names.
#[tactic(auto, unfolding(crate::specs::Scope::part_of))]
pub(crate) fn part_of(scope: Scope, name: &str) -> Option<Part>
    ensures { result ≡ part_of scope name.now }
{
    match scope {
        Scope::Registers => Some(Part::Register(Reg::named(name.as_bytes())?)),
        Scope::Flags => flag_named(name),
        Scope::Units => unit_named(name, number(name.as_bytes())?),
        Scope::Page(page) => cell_of_page(page, name, number(name.as_bytes())?),
        Scope::Memory | Scope::Unit(_) => None,
    }
}

/// A flag by its name, the location or the clock.
pub(crate) fn flag_named(name: &str) -> Option<Part>
    ensures { result ≡ flag_named name.now }
{
    if name == "over" {
        Some(Part::Over)
    } else if name == "cmp" {
        Some(Part::Cmp)
    } else if name == "loc" {
        Some(Part::Loc)
    } else if name == "clock" {
        Some(Part::Clock)
    } else {
        None
    }
}

// A cell of a page by its number, which its name gives in four digits.
fn cell_of_page(page: u16, name: &str, number: u64) -> Option<Part>
    ensures { result ≡ cell_of_page page name.now number }
{
    let place = u16::try_from(number).ok().and_then(Place::of)?;
    if name.len() == 4 && place.number() / PAGE == page {
        Some(Part::Cell(place))
    } else {
        None
    }
}

// A unit by its number, which its name gives in no more digits than it takes.
fn unit_named(name: &str, number: u64) -> Option<Part>
    ensures { result ≡ unit_named name.now number }
{
    let digits = if number < 10 { 1 } else { 2 };
    let unit = unit_of(number)?;
    if name.len() == digits {
        Some(Part::Unit(unit))
    } else {
        None
    }
}

// The unit of this number.
fn unit_of(number: u64) -> Option<UnitNo>
    ensures { result ≡ (if nat_lt number unit_count then Some number else None) }
{
    u8::try_from(number).ok().and_then(UnitNo::of)
}

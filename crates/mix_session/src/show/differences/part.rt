//! The texts of the parts of a machine.

ghost use Rattle.std.specs.Prelude.{Some};
ghost use Rattle.mix_session.specs.Differences.{part_text, held_text};

use crate::altered::Altered;
use crate::keyword::Keyword;
use crate::show::Register;
use mix_machine::World;
use mix_word::Location;
use std::fmt;

/// A part by its name.
#[derive(Clone, Copy)]
pub(super) struct Name(pub Altered);

impl fmt::Display for Name {
    ghost output = { λ n. Some (part_text n.0) };

    fn fmt<W: fmt::Write>(&self, f: &mut fmt::Formatter<W>) -> fmt::Result {
        match self.0 {
            Altered::Register(register) => write!(f, "{}", register.name()),
            Altered::Over => write!(f, "over"),
            Altered::Cmp => write!(f, "cmp"),
            Altered::Loc => write!(f, "loc"),
            Altered::Clock => write!(f, "clock"),
            Altered::Cell(place) => write!(f, "{}", Location(place.number())),
            Altered::Break(place) => write!(f, "break {}", Location(place.number())),
            Altered::Unit(unit) => write!(f, "unit {}", unit.number()),
        }
    }
}

/// What a part of a machine holds, as an item of `show diff` has it; nothing of a unit, of which is told what of it differs.
#[derive(Clone, Copy)]
pub struct Held<'a>(pub &'a World, pub Altered);

impl fmt::Display for Held<'_> {
    ghost output = { λ h. Some (held_text h.0.now h.1) };

    fn fmt<W: fmt::Write>(&self, f: &mut fmt::Formatter<W>) -> fmt::Result {
        let world = self.0;
        match self.1 {
            Altered::Register(register) => {
                write!(f, "{}", Register(register, world.register(register)))
            }
            Altered::Over => write!(f, "{}", world.over().name()),
            Altered::Cmp => write!(f, "{}", world.cmp().name()),
            Altered::Loc => write!(f, "{}", Location(world.loc())),
            Altered::Clock => write!(f, "{}", world.clock()),
            Altered::Cell(place) => write!(f, "{}", world.cell(place)),
            Altered::Break(place) => write!(f, "{}", world.is_break(place).name()),
            Altered::Unit(_) => Ok(()),
        }
    }
}

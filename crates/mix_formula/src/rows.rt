//! The lines of a program that have a formula, and what is measured of them.
ghost use Rattle.std.specs.Prelude.{◌≡◌};
ghost use Rattle.mix_formula.specs.Rows.{formula_in};

use crate::text::bracket_of;

/// A line of a program with its formula in square brackets.
#[derive(Clone, Copy)]
pub struct Row<'a> {
    /// Its number in the source.
    pub line: usize,
    /// Its bytes, without its line end.
    pub text: &'a [u8],
    /// How often it was executed.
    pub count: u64,
    /// How long that took altogether, in u.
    pub time: u128,
}

/// The formula of a line; an empty one if it has none.
#[tactic(auto, unfolding(crate::specs::Rows::formula_in))]
pub(crate) fn formula_in(line: &[u8]) -> &[u8]
    ensures { result.now ≡ formula_in line.now }
{
    match bracket_of(line) {
        Some(formula) => formula,
        None => &[],
    }
}

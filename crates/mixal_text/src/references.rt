//! Future references (1.3.2): an A-part that is dF, or a symbol that is not defined yet.
ghost use Rattle.std.specs.Prelude.{◌≡◌, IfSome, MatchOption, Some, None};
ghost use Rattle.mixal_text.specs.Address.{IsFuture, reference_with, value_of_a_part};

use crate::addresses::APart;
use crate::local::{Direction, Local};
use crate::names::Names;
use crate::operator::split_operator;
use crate::symbol::Symbol;

/// The future reference that an atom is, where no operator begins what follows it.
pub(crate) fn reference<'a, N: Names>(atom: &[u8], rest: &[u8], names: &N) -> Option<APart<'a>>
    ensures is { MatchOption result
        (reference_with (N.names names.now) atom.now rest.now ≡ None)
        (λ a. reference_with (N.names names.now) atom.now rest.now ≡ Some (value_of_a_part a)) }
    ensures future { IfSome result (λ a. IsFuture (N.names names.now) (value_of_a_part a)) }
{
    if split_operator(rest).is_some() {
        return None;
    }
    match Local::of(atom) {
        Some(local) => match local.direction {
            Direction::Forward => Some(APart::Ahead(local.digit)),
            Direction::Here | Direction::Backward => None,
        },
        None => {
            let symbol = Symbol::of(atom)?;
            match names.value(&symbol) {
                Some(_) => None,
                None => Some(APart::Name(symbol)),
            }
        }
    }
}

//! The value of a name as it is given: NAME=VALUE.
ghost use Rattle.std.specs.Prelude.{◌≡◌, MatchOption, None, Some};
ghost use Rattle.mix_formula.specs.Given.{given_of};
ghost use Rattle.mix_formula.specs.Prelude.{named, is_name};

use crate::names::Named;
use crate::text::{is_name, split_word};
use crate::value::{Value, value_of};

/// The name and the value of a word as `N=10`: the value is a formula without names. None for every
/// other word.
#[tactic(auto, unfolding(crate::specs::Given::given_of))]
pub fn given_of(word: &[u8]) -> Option<Named>
    ensures { MatchOption result (given_of word.now ≡ None) (λ given. given_of word.now ≡ Some (named given)) }
{
    let (name, rest) = split_word(word);
    match rest {
        [b'=', formula @ ..] if is_name(name) => match value_of(formula, &[]) {
            Value::Known(value) => Some(Named {
                name,
                value,
                line: None,
            }),
            Value::Unknown | Value::Unreadable(_) | Value::TooLarge => None,
        },
        _ => None,
    }
}

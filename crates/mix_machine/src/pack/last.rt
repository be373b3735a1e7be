//! The last value of units, and what is left before it.
ghost use Rattle.std.specs.Prelude.{◌≡◌, ℕ, ◌++◌, [], ◌∷◌, List, Option, None, MatchOption, length, reverse};
ghost use Rattle.mix_machine.specs.Pack.{in_pair, last_of, LastValue, seen};

use crate::old::Old;
use crate::pack::anchor::Anchor;
use undo_core::Last;

/// A value with all of these units left, and one more after them.
#[inline(always)]
pub(crate) fn with_more(value: Old, before: &[u32], more: u32, anchor: Anchor) -> Last<Old, Anchor>
    ensures is { seen before.now result ≡ last_of value anchor (more ∷ reverse before.now) }
    ensures left { result.left ≡ length before.now }
{
    Last {
        value,
        left: before.len(),
        more: Some(more),
        anchor,
    }
}

/// A value with all of these units left.
#[inline(always)]
pub(crate) fn alone(value: Old, rest: &[u32], anchor: Anchor) -> Last<Old, Anchor>
    ensures value { result.value ≡ value }
    ensures left { result.left ≡ length rest.now }
    ensures more { result.more ≡ None }
    ensures anchor { result.anchor ≡ anchor }
{
    Last {
        value,
        left: rest.len(),
        more: None,
        anchor,
    }
}

/// The last two units, and those before them.
#[inline(always)]
pub(crate) fn last_two(units: &[u32]) -> Option<(u32, u32, &[u32])>
    ensures none { (says : ℕ → ℕ → List ℕ → Option LastValue) → MatchOption result (in_pair says (reverse units.now) ≡ None) (λ _. Unit {0}) }
    ensures some { MatchOption result (Unit {0}) (λ r. units.now ≡ (r.2.now ++ r.0 ∷ []) ++ r.1 ∷ []) }
{
    let (last, rest) = units.split_last()?;
    let (first, rest) = rest.split_last()?;
    Some((*first, *last, rest))
}

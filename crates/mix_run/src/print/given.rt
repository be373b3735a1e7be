//! The values that are given to names on a command line, as `N=10,A=1`.
ghost use Rattle.std.specs.Prelude.{◌≡◌, ◌∷◌, IfOk, option_copied, option_map, position};
ghost use Rattle.std.specs.List.{slice_split};
ghost use Rattle.mix_formula.specs.Names.{all_named};
ghost use Rattle.mix_views.specs.Analysis.{given_in};
ghost use Rattle.mixal_text.specs.Prelude.{is_comma, pieces_of};
ghost use Rattle.mix_run.specs.Counted.{given_by};

use mix_formula::{Named, given_of};
use mix_refused::Memory;
use std::alloc::Global;

/// The values that a text gives, if it has nothing else; an empty one gives none.
#[tactic(auto, unfolding(crate::specs::Counted::given_by))]
pub(super) fn given_by<'a>(alloc: Global, text: &'a [u8]) -> Result<Option<Vec<Named<'a>>>, Memory>
    ensures { IfOk result (λ given. option_map (λ values. all_named values.items) given ≡ given_by text.entry.now) }
{
    if text.is_empty() {
        Ok(Some(Vec::new(alloc)))
    } else {
        given_in(alloc, text)
    }
}

// The values between the commas of a text, if there is one in each place.
#[tactic(auto, using(crate::proofs::GivenLemmas::given))]
fn given_in<'a>(alloc: Global, text: &'a [u8]) -> Result<Option<Vec<Named<'a>>>, Memory>
    ensures { IfOk result (λ given. option_map (λ values. all_named values.items) given ≡ given_in (slice_split is_comma text.entry.now)) }
{
    let mut given = Vec::new(alloc);
    let mut rest = Some(text);
    while let Some(pieces) = rest {
        let (piece, more) = split_piece(pieces);
        match given_of(piece) {
            None => return Ok(None),
            Some(value) => given.push(value)?,
        }
        rest = more;
    }
    Ok(Some(given))
}

// What is before the first comma of a text, and what follows it, if there is one.
#[tactic(auto, using(mixal_text::proofs::PartLemmas::pieces))]
fn split_piece(text: &[u8]) -> (&[u8], Option<&[u8]>)
    ensures { slice_split is_comma text.now ≡ result.0.now ∷ pieces_of is_comma (option_copied result.1) }
{
    match comma_in(text) {
        Some(end) => (&text[..end], Some(&text[end + 1..])),
        None => (text, None),
    }
}

fn comma_in(text: &[u8]) -> Option<usize>
    ensures { result ≡ position is_comma text.now }
{
    text.iter().position(|byte| *byte == b',')
}

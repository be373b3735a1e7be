//! What a file may hold to be replaced: no text is lost that was not saved before, or that is of another kind.

ghost use Rattle.std.specs.Prelude.{◌≡◌, IfOk, is_ok};
ghost use Rattle.mix_machine.specs.units.deck.Deck.{deck_of};
ghost use Rattle.mix_run.specs.Opening.{is_bundle, may_go};

use crate::bundle::parts_of;
use mix_machine::Units;
use mix_refused::{Memory, Refused};
use std::alloc::Global;

/// How a picture of a map begins.
pub(crate) const PICTURE: &[u8] =
    b"<?xml version=\"1.0\" encoding=\"UTF-8\"?>\n<svg xmlns=\"http://www.w3.org/2000/svg\" viewBox=\"0 0 760 ";

/// What a file may hold to be replaced, if it is not empty.
#[derive(Clone, Copy)]
pub enum Replaces {
    Anything,
    /// Nothing but what was saved before.
    Nothing,
    /// A bundle, or what was saved before.
    Bundle,
    /// A deck.
    Deck,
    /// A picture of a map.
    Picture,
}

// Whether a text is a bundle: something follows its source.
#[tactic(auto, unfolding(crate::specs::Opening::is_bundle))]
fn is_bundle(text: &[u8]) -> bool
    ensures { result ≡ is_bundle text.now }
{
    parts_of(text).source.len() < text.len()
}

fn is_deck(alloc: Global, text: &[u8]) -> Result<bool, Memory>
    ensures { IfOk result (λ is. is ≡ is_ok (deck_of text.now)) }
{
    match Units::read(alloc, text) {
        Ok(_) => Ok(true),
        Err(Refused::Fault(_)) => Ok(false),
        Err(Refused::Memory) => Err(Memory),
    }
}

/// Whether a file may be replaced that holds this text; an empty one always may. Memory may be refused.
pub fn may_go(alloc: Global, over: Replaces, text: &[u8]) -> Result<bool, Memory>
    ensures { IfOk result (λ may. may ≡ may_go over text.now) }
{
    if text.is_empty() {
        return Ok(true);
    }
    match over {
        Replaces::Anything => Ok(true),
        Replaces::Nothing => Ok(false),
        Replaces::Bundle => Ok(is_bundle(text)),
        Replaces::Deck => is_deck(alloc, text),
        Replaces::Picture => Ok(text.starts_with(PICTURE)),
    }
}

//! What a launch loads.

ghost use Rattle.std.specs.Prelude.{◌≡◌, IfOk, Ok, Err};
ghost use Rattle.std.specs.Option.{option_map};
ghost use Rattle.mixal_asm.specs.Assembly.{assembly};
ghost use Rattle.mix_machine.specs.units.deck.Deck.{deck_of};
ghost use Rattle.mix_refused.specs.Refused.{IfFault};
ghost use Rattle.mix_dap.specs.Launch.{or_source, or_deck, units_launched, cards_launched, typed_launched, deck_in, launched_of, source_of};

use crate::launch::Texts;
use dap_asked::Fault;
use mix_files::parts_of;
use mix_machine::Units;
use mix_refused::Refused;
use mix_session::Session;
use mixal_asm::{Program, assemble};
use std::alloc::Global;

/// The session of the texts of a launch.
#[tactic(auto, unfolding(crate::specs::Launch::launched))]
pub(crate) fn session_of(alloc: Global, texts: &Texts) -> Result<Session, Refused<Fault>>
    ensures ok { IfOk result (λ s. launched_of texts.now ≡ Ok s) }
    ensures fault { IfFault result (λ f. launched_of texts.now ≡ Err f) }
{
    let program = program_of(alloc, source_of(texts))?;
    let (cards, typed) = (texts.cards.as_deref(), texts.typed.as_deref());
    let units = units_of(alloc, deck_in(texts), cards, typed)?;
    Ok(Session::open(alloc, program, units)?)
}

/// The source of a launch.
pub(crate) fn source_of(texts: &Texts) -> &[u8]
    ensures { result.now ≡ source_of texts.now }
{
    parts_of(&texts.source).source
}

// Its deck: that of the bundle, unless there is another.
fn deck_in(texts: &Texts) -> &[u8]
    ensures { result.now ≡ deck_in texts.now }
{
    match &texts.deck {
        Some(deck) => deck,
        None => parts_of(&texts.source).deck,
    }
}

fn program_of(alloc: Global, source: &[u8]) -> Result<Program, Refused<Fault>>
    ensures ok { IfOk result (λ p. or_source (assembly source.now) ≡ Ok p) }
    ensures fault { IfFault result (λ f. or_source (assembly source.now) ≡ Err f) }
{
    match assemble(alloc, source) {
        Ok(program) => Ok(program),
        Err(Refused::Fault(fault)) => Err(Refused::Fault(Fault::Source(fault))),
        Err(Refused::Memory) => Err(Refused::Memory),
    }
}

// The units of a deck, with the cards of a text and what another gives to be typed, where there are any.
#[tactic(auto, unfolding(crate::specs::Launch::units_launched))]
fn units_of(
    alloc: Global,
    deck: &[u8],
    cards: Option<&[u8]>,
    typed: Option<&[u8]>,
) -> Result<Units, Refused<Fault>>
    ensures ok { IfOk result (λ us. units_launched deck.now (option_map (λ c. c.now) cards.entry) (option_map (λ t. t.now) typed.entry) ≡ Ok us) }
    ensures fault { IfFault result (λ f. units_launched deck.now (option_map (λ c. c.now) cards.entry) (option_map (λ t. t.now) typed.entry) ≡ Err f) }
{
    let units = with_deck(alloc, deck)?;
    let units = with_cards(alloc, units, cards)?;
    with_typed(alloc, units, typed)
}

fn with_deck(alloc: Global, deck: &[u8]) -> Result<Units, Refused<Fault>>
    ensures ok { IfOk result (λ us. or_deck (deck_of deck.now) ≡ Ok us) }
    ensures fault { IfFault result (λ f. or_deck (deck_of deck.now) ≡ Err f) }
{
    match Units::read(alloc, deck) {
        Ok(units) => Ok(units),
        Err(Refused::Fault(fault)) => Err(Refused::Fault(Fault::Deck(fault))),
        Err(Refused::Memory) => Err(Refused::Memory),
    }
}

fn with_cards(alloc: Global, units: Units, cards: Option<&[u8]>) -> Result<Units, Refused<Fault>>
    ensures ok { IfOk result (λ us. cards_launched units (option_map (λ c. c.now) cards.entry) ≡ Ok us) }
    ensures fault { IfFault result (λ f. cards_launched units (option_map (λ c. c.now) cards.entry) ≡ Err f) }
{
    let Some(cards) = cards else {
        return Ok(units);
    };
    match units.with_cards(alloc, cards) {
        Ok(units) => Ok(units),
        Err(Refused::Fault(fault)) => Err(Refused::Fault(Fault::Cards(fault))),
        Err(Refused::Memory) => Err(Refused::Memory),
    }
}

fn with_typed(alloc: Global, units: Units, typed: Option<&[u8]>) -> Result<Units, Refused<Fault>>
    ensures ok { IfOk result (λ us. typed_launched units (option_map (λ t. t.now) typed.entry) ≡ Ok us) }
    ensures fault { IfFault result (λ f. typed_launched units (option_map (λ t. t.now) typed.entry) ≡ Err f) }
{
    let Some(typed) = typed else {
        return Ok(units);
    };
    match units.with_typewriter(alloc, typed) {
        Ok(units) => Ok(units),
        Err(Refused::Fault(fault)) => Err(Refused::Fault(Fault::Typed(fault))),
        Err(Refused::Memory) => Err(Refused::Memory),
    }
}

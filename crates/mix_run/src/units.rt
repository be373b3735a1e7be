//! The units that a run begins with: those of a deck, and the lines of texts for the card reader and the typewriter.
ghost use Rattle.std.specs.Prelude.{◌≡◌, ◌≢◌, ◌<◌, ◌+◌, ◌-◌, ◌^◌, ℕ, List, Some, Err, IfOk, drop, false, true};
ghost use Rattle.mix_machine.specs.units.deck.Deck.{deck_of, cards_of, typewriter_of, max_deck_bytes};
ghost use Rattle.mix_stream.specs.Stream.{ConsumesAtMost, CountsFailure};
ghost use Rattle.mix_run.specs.UnitsRead.{GivesUnits, deck_given, units_in};

use crate::bundle::copy_of;
use crate::fault::ToolFault;
use mix_machine::{MAX_DECK_BYTES, Units};
use mix_refused::Refused;
use mix_stream::{In, read_up_to};
use std::alloc::Global;

/// The units of a deck, or why there are none. Of a longer deck its first 33,554,433 bytes say the same.
pub fn units_of(alloc: Global, deck: &[u8]) -> Result<Units, ToolFault>
    ensures units { GivesUnits (deck_of deck.now) result }
    ensures only { result ≢ Err ToolFault.Read }
{
    match Units::read(alloc, deck) {
        Err(Refused::Memory) => Err(ToolFault::Memory),
        Err(Refused::Fault(fault)) => Err(ToolFault::Deck(fault)),
        Ok(units) => Ok(units),
    }
}

/// A deck that was read: its text, and the units that it fills.
#[derive(Drop)]
pub(crate) struct Deck {
    pub text: Vec<u8>,
    pub units: Units,
}

/// A deck that is read up to one byte more than it may have.
pub(crate) fn read_deck<D: In>(alloc: Global, deck: &mut D) -> Result<Deck, ToolFault>
    requires { D.failed deck.old < 2 ^ 64 - 1 }
    ensures units { (d : List ℕ) → D.rest deck.old ≡ Some d → GivesUnits (deck_of d) (units_in result) }
    ensures text { (d : List ℕ) → D.rest deck.old ≡ Some d → IfOk result (λ k. k.text.items ≡ d) }
    ensures whole { (d : List ℕ) → D.rest deck.old ≡ Some d → IfOk result (λ _. D.rest deck.new ≡ Some (drop (max_deck_bytes + 1) d)) }
    ensures read { CountsFailure (result ≡ Err ToolFault.Read) (D.failed deck.old) (D.failed deck.new) }
    ensures deck { ConsumesAtMost (D.rest deck.old) (D.rest deck.new) (max_deck_bytes + 1) }
    ensures only { result ≢ Err ToolFault.Write }
{
    let text = read_up_to(alloc, deck, MAX_DECK_BYTES + 1)?;
    match units_of(alloc, &text) {
        Ok(units) => Ok(Deck { text, units }),
        Err(fault) => Err(fault),
    }
}

// A deck that is a text already.
fn own_deck(alloc: Global, own: &[u8]) -> Result<Deck, ToolFault>
    ensures units { GivesUnits (deck_of own.now) (units_in result) }
    ensures text { IfOk result (λ k. k.text.items ≡ own.now) }
    ensures only { result ≢ Err ToolFault.Read }
{
    let text = copy_of(alloc, own)?;
    match units_of(alloc, own) {
        Ok(units) => Ok(Deck { text, units }),
        Err(fault) => Err(fault),
    }
}

/// A deck that is read if it is given, and otherwise that of a text.
pub(crate) fn given_deck<D: In>(
    alloc: Global,
    own: &[u8],
    deck: &mut D,
    given: bool,
) -> Result<Deck, ToolFault>
    requires { D.failed deck.old < 2 ^ 64 - 1 }
    ensures units { (d : List ℕ) → D.rest deck.old ≡ Some d → GivesUnits (deck_of (deck_given given own.now d)) (units_in result) }
    ensures text { (d : List ℕ) → D.rest deck.old ≡ Some d → IfOk result (λ k. k.text.items ≡ deck_given given own.now d) }
    ensures whole { (d : List ℕ) → D.rest deck.old ≡ Some d → given ≡ true → IfOk result (λ _. D.rest deck.new ≡ Some (drop (max_deck_bytes + 1) d)) }
    ensures read { CountsFailure (result ≡ Err ToolFault.Read) (D.failed deck.old) (D.failed deck.new) }
    ensures deck { ConsumesAtMost (D.rest deck.old) (D.rest deck.new) (max_deck_bytes + 1) }
    ensures unread { given ≡ false → deck.new ≡ deck.old }
    ensures only { result ≢ Err ToolFault.Write }
{
    if given {
        read_deck(alloc, deck)
    } else {
        own_deck(alloc, own)
    }
}

/// The units of a deck that is read if it is given, and otherwise of a text.
pub fn given_units<D: In>(
    alloc: Global,
    own: &[u8],
    deck: &mut D,
    given: bool,
) -> Result<Units, ToolFault>
    requires { D.failed deck.old < 2 ^ 64 - 1 }
    ensures units { (d : List ℕ) → D.rest deck.old ≡ Some d → GivesUnits (deck_of (deck_given given own.now d)) result }
    ensures whole { (d : List ℕ) → D.rest deck.old ≡ Some d → given ≡ true → IfOk result (λ _. D.rest deck.new ≡ Some (drop (max_deck_bytes + 1) d)) }
    ensures read { CountsFailure (result ≡ Err ToolFault.Read) (D.failed deck.old) (D.failed deck.new) }
    ensures deck { ConsumesAtMost (D.rest deck.old) (D.rest deck.new) (max_deck_bytes + 1) }
    ensures unread { given ≡ false → deck.new ≡ deck.old }
    ensures only { result ≢ Err ToolFault.Write }
{
    if given {
        match read_deck(alloc, deck) {
            Ok(deck) => Ok(deck.units),
            Err(fault) => Err(fault),
        }
    } else {
        units_of(alloc, own)
    }
}

/// Units with the cards of a text in place of those of unit 16, or why there are none; its first 33,554,433 bytes say the same.
pub fn with_cards(alloc: Global, units: Units, text: &[u8]) -> Result<Units, ToolFault>
    ensures units { GivesUnits (cards_of units text.now) result }
    ensures only { result ≢ Err ToolFault.Read }
{
    match units.with_cards(alloc, text) {
        Err(Refused::Memory) => Err(ToolFault::Memory),
        Err(Refused::Fault(fault)) => Err(ToolFault::Deck(fault)),
        Ok(units) => Ok(units),
    }
}

/// Units with the lines of a text in place of the blocks of unit 19, in the same way.
pub fn with_typewriter(alloc: Global, units: Units, text: &[u8]) -> Result<Units, ToolFault>
    ensures units { GivesUnits (typewriter_of units text.now) result }
    ensures only { result ≢ Err ToolFault.Read }
{
    match units.with_typewriter(alloc, text) {
        Err(Refused::Memory) => Err(ToolFault::Memory),
        Err(Refused::Fault(fault)) => Err(ToolFault::Deck(fault)),
        Ok(units) => Ok(units),
    }
}

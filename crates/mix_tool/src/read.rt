//! The units that a run begins with, read from its texts, each where it is needed.

ghost use Rattle.std.specs.Prelude.{◌≡◌, ◌≢◌, ℕ, List, Some, Err, is_some};
ghost use Rattle.mix_run.specs.Prelude.{GivesUnits};
ghost use Rattle.mix_tool.specs.Plan.{AreFresh, rest_of};
ghost use Rattle.mix_tool.specs.Run.{Given, number_of, units_asked, with_text};

use crate::texts::Texts;
use mix_machine::{MAX_DECK_BYTES, Units};
use mix_plan::RunPlan;
use mix_refused::Refused;
use mix_run::{ToolFault, given_units, with_cards, with_typewriter};
use mix_stream::{In, read_up_to};
use std::alloc::Global;

/// A unit whose lines may be read from a text of their own.
#[derive(Clone, Copy)]
pub(crate) enum TextUnit {
    Cards,
    Typewriter,
}

// Units with the lines of a text for one of them, if it is given.
fn units_with_text<T: In>(
    alloc: Global,
    units: Units,
    unit: TextUnit,
    given: bool,
    text: &mut T,
) -> Result<Units, ToolFault>
    requires { T.failed text.old ≡ 0 }
    ensures units { (t : List ℕ) → T.rest text.old ≡ Some t → GivesUnits (with_text (number_of unit) (Ok units) given t) result }
    ensures only { result ≢ Err ToolFault.Write }
{
    if !given {
        return Ok(units);
    }
    match read_up_to(alloc, text, MAX_DECK_BYTES + 1) {
        Err(Refused::Memory) => Err(ToolFault::Memory),
        Err(Refused::Fault(_)) => Err(ToolFault::Read),
        Ok(text) => match unit {
            TextUnit::Cards => with_cards(alloc, units, &text),
            TextUnit::Typewriter => with_typewriter(alloc, units, &text),
        },
    }
}

/// The units that a run begins with: the deck is read, then the cards, then the lines for the typewriter, each only if it is named, and when what
/// was read before it is accepted.
pub(crate) fn units_of_run<R: In>(
    alloc: Global,
    plan: &RunPlan,
    own: &[u8],
    texts: &mut Texts<R>,
) -> Result<Units, ToolFault>
    requires { AreFresh R.failed texts.old }
    ensures units { (given : Given) → rest_of R.rest texts.old.deck.reader ≡ Some given.deck → rest_of R.rest texts.old.cards.reader ≡ Some given.cards
        → rest_of R.rest texts.old.typewriter.reader ≡ Some given.typewriter → GivesUnits (units_asked plan.now own.now given) result }
    ensures only { result ≢ Err ToolFault.Write }
{
    let units = match given_units(alloc, own, &mut texts.deck, plan.devices.is_some()) {
        Err(fault) => return Err(fault),
        Ok(units) => units,
    };
    let (cards, given) = (TextUnit::Cards, plan.cards.is_some());
    let units = match units_with_text(alloc, units, cards, given, &mut texts.cards) {
        Err(fault) => return Err(fault),
        Ok(units) => units,
    };
    let (lines, given) = (TextUnit::Typewriter, plan.typewriter.is_some());
    units_with_text(alloc, units, lines, given, &mut texts.typewriter)
}

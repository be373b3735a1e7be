//! The states in which the machine is at a location, the last one first.

ghost use Rattle.std.specs.Prelude.{◌≡◌, ◌+◌, ◌++◌, ◌==◌, IfOk, OnOk, length};
ghost use Rattle.mix_session.specs.Passages.{passage_if, passages_back};
ghost use Rattle.mix_session.specs.Tally.{location_in};

use crate::tally::{before, location_in};
use crate::timeline::earlier;
use mix_machine::{Mark, Part, Place, World, mark_law};
use std::alloc::{AllocError, Global};
use undo_core::{Journal, Memory};

/// The states in which the machine is at a location, of those up to now: how many changes led to each, the last one first. The changes are gone
/// over from the last one backwards, by what the journal keeps: nothing is run anew.
pub(crate) fn passages_of(
    alloc: Global,
    journal: &Journal<World>,
    place: Place,
) -> Result<Vec<usize>, Memory>
    ensures { IfOk result (λ list. list.items ≡ passages_back journal.now place (length journal.now.changes + 1)) }
{
    mark_law();
    let mut list = Vec::new(alloc);
    let mut location = journal.state().mark(Part::Loc);
    let mut past = journal.past();
    let mut number = journal.done();
    add_passage(&mut list, number, place, &location)?;
    while number > 0 {
        number -= 1;
        let kept = earlier(journal, &mut past, number);
        let was = before(&kept, &Part::Loc, &location);
        add_passage(&mut list, number, place, &was)?;
        location = was;
    }
    Ok(list)
}

// Adds the state of a number, if this mark of its location says that it is one of them.
fn add_passage(
    list: &mut Vec<usize>,
    number: usize,
    place: Place,
    location: &Mark,
) -> Result<(), AllocError>
    ensures { OnOk result (list.new.items ≡ list.old.items ++ passage_if (location_in location.now == place) number) }
{
    if location_in(location) == place.number() {
        list.push(number)?;
    }
    Ok(())
}

//! How often each instruction was executed, and how long that took.

ghost use Rattle.std.specs.Prelude.{◌≡◌, ◌<◌, ◌≤◌, ℕ, IfOk, length, replicate, slice_set};
ghost use Rattle.mix_machine.specs.Part.{mark_before};
ghost use Rattle.mix_session.specs.Counts.{is_step, tally_at, tally_of_all};
ghost use Rattle.mix_session.specs.Tally.{HasRoom, no_tally, tally_in, with_one, location_in, time_in};

use crate::timeline::earlier;
use mix_machine::{Change, Mark, Old, Part, World, mark_before, mark_law};
use mix_word::CELLS;
use std::alloc::{AllocError, Global};
use undo_core::{Journal, Memory, Values};

/// How often something was executed, and how long that took in u.
#[derive(Clone, Copy)]
pub struct Tally {
    pub count: u64,
    pub time: u128,
}

impl Tally {
    const NONE: Tally = Tally { count: 0, time: 0 };

    // One execution more, that took so long.
    fn with_one(self, time: u64) -> Tally
        requires { HasRoom self }
        ensures { result ≡ with_one self time }
    {
        Tally {
            count: self.count + 1,
            time: self.time + u128::from(time),
        }
    }
}

/// The tallies of the cells by their numbers, and of all of them together.
#[derive(Drop)]
pub struct Tallies {
    pub cells: Vec<Tally>,
    pub all: Tally,
}

/// The tally of a cell, of those that `Session::counts` gives; of a cell that is none nothing is counted.
pub fn tally_in(tallies: &[Tally], number: u16) -> Tally
    ensures { result ≡ tally_in tallies.now number }
{
    match tallies.get(usize::from(number)) {
        None => Tally::NONE,
        Some(tally) => *tally,
    }
}

/// The tallies of the changes done. They are gone over from the last one backwards, by what the journal keeps: nothing is run anew.
pub(crate) fn tallies_of(alloc: Global, journal: &Journal<World>) -> Result<Tallies, Memory>
    ensures cells { IfOk result (λ tallies. (p : ℕ) → p < 4000 → tally_in tallies.cells.items p ≡ tally_at journal.now p) }
    ensures all { IfOk result (λ tallies. tallies.all ≡ tally_of_all journal.now) }
{
    mark_law();
    let mut cells = no_tallies(alloc, usize::from(CELLS))?;
    let mut all = Tally::NONE;
    let mut location = journal.state().mark(Part::Loc);
    let mut clock = journal.state().mark(Part::Clock);
    let changes = journal.changes();
    let mut past = journal.past();
    let mut number = journal.done();
    while number > 0 {
        number -= 1;
        let kept = earlier(journal, &mut past, number);
        let (place, start) = (
            before(&kept, &Part::Loc, &location),
            before(&kept, &Part::Clock, &clock),
        );
        if is_step(changes.at(number)) {
            let time = time_in(&clock).saturating_sub(time_in(&start));
            all = all.with_one(time);
            add_one(&mut cells, location_in(&place), time);
        }
        (location, clock) = (place, start);
    }
    Ok(Tallies { cells, all })
}

// So many tallies of nothing.
fn no_tallies(alloc: Global, count: usize) -> Result<Vec<Tally>, AllocError>
    ensures { IfOk result (λ tallies. tallies.items ≡ replicate count no_tally) }
{
    vec![in alloc; Tally::NONE; count]
}

// The mark of a part before a change that kept these values.
pub(crate) fn before(kept: &Values<'_, Old>, part: &Part, mark: &Mark) -> Mark
    ensures { result ≡ mark_before kept.now part.now mark.now }
{
    mark_before(kept, *part, *mark)
}

pub(crate) fn is_step(change: Change) -> bool
    ensures { result ≡ is_step change }
{
    matches!(change, Change::Step)
}

// The location that a mark says.
pub(crate) fn location_in(mark: &Mark) -> u16
    ensures { result ≡ location_in mark.now }
{
    match mark {
        Mark::Location(location) => *location,
        Mark::Word(_) | Mark::Toggle(_) | Mark::Indicator(_) | Mark::Time(_) => 0,
    }
}

// The time that a mark says.
fn time_in(mark: &Mark) -> u64
    ensures { result ≡ time_in mark.now }
{
    match mark {
        Mark::Time(time) => *time,
        Mark::Word(_) | Mark::Toggle(_) | Mark::Indicator(_) | Mark::Location(_) => 0,
    }
}

// One execution more in a cell, that took so long; none where there is no such cell.
fn add_one(tallies: &mut [Tally], number: u16, time: u64)
    requires { number < length tallies.old → HasRoom (tally_in tallies.old number) }
    ensures cell { number < length tallies.old → tallies.new ≡ slice_set tallies.old number (with_one (tally_in tallies.old number) time) }
    ensures len { length tallies.new ≡ length tallies.old }
    ensures past { length tallies.old ≤ number → tallies.new ≡ tallies.old }
{
    let at = usize::from(number);
    if at < tallies.len() {
        tallies[at] = tallies[at].with_one(time);
    }
}

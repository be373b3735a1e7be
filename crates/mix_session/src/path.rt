//! Where the instructions were executed in the course of the changes: how often each of them, column by column.

ghost use Rattle.std.specs.Prelude.{◌≡◌, ◌<◌, ◌≤◌, ◌+◌, ◌^◌, IfOk, IfSome, get_or, length, replicate, slice_set};
ghost use Rattle.mix_session.specs.Path.{column_of, key_of, IsPath};

use crate::tally::{before, is_step, location_in};
use crate::timeline::earlier;
use mix_machine::{Change, Part, World, mark_law};
use mix_word::CELLS;
use std::alloc::{AllocError, Global};
use undo_core::{Journal, Memory};

/// A range of the changes done, in columns of the same width.
#[derive(Clone, Copy)]
pub struct Span {
    /// How many changes there are before it.
    pub from: usize,
    /// How many there are up to its last one.
    pub until: usize,
    /// How many columns there are.
    pub columns: u16,
}

impl Span {
    // The column of the change after the first ones, where it is one of the range.
    #[tactic(auto, using(crate::proofs::PathLemmas::column_small))]
    fn column_of(self, number: usize) -> Option<usize>
        ensures is { result ≡ column_of self number }
        ensures small { IfSome result (λ column. column ≤ 65535) }
    {
        if self.from <= number && number < self.until {
            let (into, width) = (number - self.from, self.until - self.from);
            let column = into as u128 * u128::from(self.columns) / width as u128;
            Some(column as usize)
        } else {
            None
        }
    }

    // Which count is that of a step of the range that was done at a cell.
    fn key_of(self, change: Change, number: usize, place: u16) -> Option<usize>
        ensures { result ≡ key_of self change number place }
    {
        if is_step(change) && place < CELLS {
            let column = self.column_of(number)?;
            Some(column * usize::from(CELLS) + usize::from(place))
        } else {
            None
        }
    }
}

/// How often the instruction of each cell was executed by the changes of each column: counts of all cells, column after column. The changes are
/// gone over from the last one backwards, by what the journal keeps: nothing is run anew.
pub(crate) fn path_of(
    alloc: Global,
    journal: &Journal<World>,
    span: Span,
) -> Result<Vec<u64>, Memory>
    ensures { IfOk result (λ counts. IsPath journal.now span counts.items) }
{
    mark_law();
    let mut counts = no_counts(alloc, usize::from(span.columns) * usize::from(CELLS))?;
    let mut location = journal.state().mark(Part::Loc);
    let changes = journal.changes();
    let mut past = journal.past();
    let mut number = journal.done();
    while number > span.from {
        number -= 1;
        let kept = earlier(journal, &mut past, number);
        let place = before(&kept, &Part::Loc, &location);
        if let Some(key) = span.key_of(changes.at(number), number, location_in(&place)) {
            count_one(&mut counts, key);
        }
        location = place;
    }
    Ok(counts)
}

// So many counts of nothing.
fn no_counts(alloc: Global, count: usize) -> Result<Vec<u64>, AllocError>
    ensures { IfOk result (λ counts. counts.items ≡ replicate count 0) }
{
    vec![in alloc; 0u64; count]
}

// One more of a count, where there is one of this number.
fn count_one(counts: &mut [u64], key: usize)
    requires { key < length counts.old → get_or counts.old key 0 + 1 < 2 ^ 64 }
    ensures one { key < length counts.old → counts.new ≡ slice_set counts.old key (get_or counts.old key 0 + 1) }
    ensures len { length counts.new ≡ length counts.old }
    ensures past { length counts.old ≤ key → counts.new ≡ counts.old }
{
    if key < counts.len() {
        counts[key] = counts[key] + 1;
    }
}

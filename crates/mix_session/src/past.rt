//! What is asked of the changes: the machine after each of them, what each did, how often each instruction was executed, and where,
//! which of them altered a part, and after which of them the machine is at a location.

ghost use Rattle.std.specs.Prelude.{◌≡◌, ◌<◌, ◌+◌, ℕ, IfErr, IfOk, length, min, string_bytes, take};
ghost use Rattle.mix_session.specs.Prelude.{all_changes, world_at, change_line, change_text, tally_at, tally_of_all, change_numbered, conflict_after, passages_back, IsPath, tally_in, writes_back};

use crate::altered::Worlds;
use crate::conflicts::conflict_after;
use crate::moments::Moments;
use crate::passages::passages_of;
use crate::path::{Span, path_of};
use crate::session::Session;
use crate::show::changes;
use crate::tally::{Tallies, tallies_of};
use crate::timeline;
use crate::writes::{Write, writes_of};
use mix_machine::{Change, Conflict, Part, Place, World};
use std::alloc::Global;
use undo_core::Memory;

impl Session {
    /// The machine after the first so many of all changes, those done and those that stand ahead; after all of them where there are fewer. Only
    /// out of memory refuses it.
    pub fn world_at(&self, alloc: Global, number: usize) -> Result<World, Memory>
        ensures { IfOk result (λ w. w ≡ world_at self.now.timeline number) }
    {
        timeline::world_at(alloc, self.journal(), number)
    }

    /// The machine at one moment after another, at first after the changes done. Only out of memory refuses it.
    pub fn moments(&self, alloc: Global) -> Result<Moments<'_>, Memory>
        ensures { IfOk result (λ m. m.of ≡ self.now.timeline) }
    {
        Moments::of(alloc, self.journal())
    }

    /// The change of a number, counted from 1, of those done and those that stand ahead; none where there is no such number.
    pub fn change_at(&self, number: usize) -> Option<Change>
        ensures { result ≡ change_numbered self.now.timeline number }
    {
        match number {
            0 => None,
            _ => self.journal().all().get(number - 1),
        }
    }

    /// With which cell of which transfer under way before it the change after the first so many of all conflicts, of those done and those that
    /// stand ahead; none where there is no such change, which takes no memory.
    pub fn conflict_after(&self, alloc: Global, number: usize) -> Result<Option<Conflict>, Memory>
        ensures is { IfOk result (λ conflict. conflict ≡ conflict_after self.now.timeline number) }
        ensures memory { IfErr result (λ _. number < length (all_changes self.now.timeline)) }
    {
        conflict_after(alloc, self.journal(), number)
    }

    /// How often the instruction of each cell was executed by the changes done, and how long that took; and the same of all cells. Only out of
    /// memory refuses it.
    pub fn counts(&self, alloc: Global) -> Result<Tallies, Memory>
        ensures cells { IfOk result (λ tallies. (p : ℕ) → p < 4000 → tally_in tallies.cells.items p ≡ tally_at self.now.timeline p) }
        ensures all { IfOk result (λ tallies. tallies.all ≡ tally_of_all self.now.timeline) }
    {
        tallies_of(alloc, self.journal())
    }

    /// How often the instruction of each cell was executed by the changes of each column of a range: counts of 4,000 cells, column after column.
    /// Only out of memory refuses it.
    pub fn path(&self, alloc: Global, span: Span) -> Result<Vec<u64>, Memory>
        ensures { IfOk result (λ counts. IsPath self.now.timeline span counts.items) }
    {
        path_of(alloc, self.journal(), span)
    }

    /// The changes that altered a part, of the first `until` of those done: the last one first, and at most `most` of them. Only out of memory
    /// refuses it.
    pub fn writes(
        &self,
        alloc: Global,
        part: Part,
        until: usize,
        most: usize,
    ) -> Result<Vec<Write>, Memory>
        ensures is { IfOk result (λ list. list.items ≡ take most (writes_back self.now.timeline part (min until (length self.now.timeline.changes)))) }
        ensures memory { IfErr result (λ _. (0 < most) × (0 < length self.now.timeline.changes)) }
    {
        writes_of(alloc, self.journal(), &part, until, most)
    }

    /// The states in which the machine is at a location, of those up to now: how many changes led to each, the last one first. Only out of
    /// memory refuses it.
    pub fn passages(&self, alloc: Global, place: Place) -> Result<Vec<usize>, Memory>
        ensures { IfOk result (λ list. list.items ≡ passages_back self.now.timeline place (length self.now.timeline.changes + 1)) }
    {
        passages_of(alloc, self.journal(), place)
    }
}

/// What a change does to a machine, as `show last` has it: of a step, the instruction at the location. Only out of memory refuses it.
pub fn change_text(alloc: Global, change: &Change, before: &World) -> Result<String, Memory>
    ensures { IfOk result (λ s. string_bytes s ≡ change_text before.now change.now) }
{
    Ok(changes::change_text(alloc, change, before)?)
}

/// The line of a change of a number, as `trace` and `show last` have it: what it did to a machine, and what it altered. Only out of memory
/// refuses it.
pub fn change_line(
    alloc: Global,
    number: u64,
    change: &Change,
    before: &World,
    after: &World,
) -> Result<Vec<u8>, Memory>
    ensures { IfOk result (λ text. text.items ≡ change_line number change.now before.now after.now) }
{
    changes::line_between(alloc, number as usize, change, Worlds { before, after })
}

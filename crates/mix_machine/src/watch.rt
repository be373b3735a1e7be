//! What stops steps that are done one after the other.
ghost use Rattle.std.specs.Prelude.{◌≡◌, None, Some, not, length, replicate, false, true, slice_set, if◌then◌else◌};
ghost use Rattle.mix_machine.specs.Part.{is_same_mark};
ghost use Rattle.mix_machine.specs.Watch.{is_other, stops_at, with_all, with_location};

use crate::breakpoints::Breakpoints;
use crate::part::{Mark, Part};
use crate::world::World;
use mix_word::{Place, Word};
use std::marker::Model;

/// A part of the machine, and its mark, as it was seen before some steps.
#[derive(Clone, Copy)]
pub struct Seen {
    pub part: Part,
    pub mark: Mark,
}

// Whether the mark of a part is another at a machine than was seen.
#[inline(always)]
fn is_other(seen: &Seen, world: &World) -> bool
    ensures { result ≡ is_other (Some seen.now) world.now }
{
    match seen.part {
        Part::Cell(place) => is_other_word(&seen.mark, world.cell(place)),
        Part::Register(r) => is_other_word(&seen.mark, world.register(r)),
        Part::Over | Part::Cmp | Part::Unit(_) | Part::Loc | Part::Clock => {
            is_other_apart(seen, world)
        }
    }
}

// The same of any part. (Apart, so that a step reads no more of a mark than a cell's or a register's.)
#[inline(never)]
fn is_other_apart(seen: &Seen, world: &World) -> bool
    ensures { result ≡ is_other (Some seen.now) world.now }
{
    !seen.mark.is_same(world.mark(seen.part))
}

// (a cell and a register are looked at as the words that they are, which is quicker)
#[inline(always)]
fn is_other_word(mark: &Mark, word: Word) -> bool
    ensures { result ≡ not (is_same_mark mark.now (Mark.Word word)) }
{
    match *mark {
        Mark::Word(seen) => !seen.is_same(word),
        Mark::Toggle(_) | Mark::Indicator(_) | Mark::Location(_) | Mark::Time(_) => true,
    }
}

/// What stops steps that are done one after the other: some locations, or a part that comes to
/// another mark.
#[derive(Drop)]
pub struct Watch {
    locations: Breakpoints,
    seen: Option<Seen>,
}

impl Model for Watch {
    ghost use Rattle.mix_machine.specs.Watch.{WatchState};

    ghost Value = { WatchState };

    ghost view = { λ w. record { locations = w.locations; seen = w.seen } };
}

impl Watch {
    /// The breakpoints of a machine, or none of them, and no part.
    pub fn of(world: &World, breaks: bool) -> Watch
        ensures is { result ≡ record { locations = if breaks then world.now.breaks else replicate 4000 false; seen = None } }
        ensures long { length world.now.breaks ≡ 4000 }
    {
        // (the proof knows the ranges of the machine where a field of it is named)
        let _ = &world.loc;
        Watch {
            locations: if breaks {
                world.breaks.copied()
            } else {
                Breakpoints::none()
            },
            seen: None,
        }
    }

    /// A part, in the place of another.
    pub fn see(&mut self, seen: Seen)
        ensures { self.new ≡ record self.old { seen = Some seen } }
    {
        self.seen = Some(seen);
    }

    /// A location more.
    pub fn add(&mut self, place: Place)
        ensures { self.new ≡ record self.old { locations = slice_set self.old.locations place true } }
    {
        self.locations.set(place, true);
    }

    /// A location more, 0 to 4000, if it is given and there is a cell.
    pub fn add_location(&mut self, location: Option<u16>)
        ensures { self.new ≡ record self.old { locations = with_location location self.old.locations } }
    {
        match location {
            Some(location) => match Place::of(location) {
                Some(place) => self.add(place),
                None => {}
            },
            None => {}
        }
    }

    /// Some locations more.
    pub fn add_all(&mut self, places: &[Place])
        ensures { self.new ≡ record self.old { locations = with_all places.now self.old.locations } }
    {
        for place in places {
            self.add(*place);
        }
    }
}

impl Watch {
    /// Whether it stops steps at a machine.
    #[inline(always)]
    pub(crate) fn stops(&self, world: &World) -> bool
        ensures { result ≡ stops_at self.now world.now }
    {
        match Place::of(world.loc) {
            Some(place) => {
                if self.locations.get(place) {
                    return true;
                }
            }
            None => {}
        }
        match &self.seen {
            Some(seen) => is_other(seen, world),
            None => false,
        }
    }
}

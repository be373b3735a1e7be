//! The cell that a store overwrites, and the location and the clock before it.
ghost use Rattle.std.specs.Prelude.{◌≡◌, ◌+◌, ◌<◌, ◌≤◌, ◌/◌, ◌%◌, ◌++◌, [], ◌∷◌, MatchOption, vec_len, vec_capacity};
ghost use Rattle.mix_machine.specs.declared.old.Old.TheVariants as old;
ghost use Rattle.mix_machine.specs.Pack.{said};

use crate::old::Old;
use crate::pack::anchor::Anchor;
use crate::pack::appending::cell;
use crate::pack::headers::{is_same, store_header};
use crate::pack::moved::append_moment;
use crate::pack::parts::long_bits;
use mix_word::{Place, Word};
use std::marker::Model;
use undo_core::PackAll;

/// A cell before a step, and the location and the clock.
#[derive(Drop)]
pub(crate) struct Stored {
    place: Place,
    word: Word,
    from: Anchor,
    to: Anchor,
}

impl Model for Stored {
    ghost use Rattle.std.specs.Prelude.{List, [], ◌∷◌, ◌≤◌};
    ghost use Rattle.mix_machine.specs.declared.old.Old.{Old};
    ghost use Rattle.mix_machine.specs.declared.old.Old.TheVariants as old;

    ghost Value = { List Old };

    ghost view = { λ s. old.Cell s.place s.word ∷ old.Loc s.from.loc ∷ old.Clock s.from.clock ∷ [] };

    ghost invariant = { λ s. s.from.loc ≤ 4000 };
}

impl Stored {
    /// A step from one place and time to another, before which a cell held this word.
    #[inline(always)]
    pub(crate) fn of(place: Place, word: Word, from: Anchor, to: Anchor) -> Stored
        requires { from.loc ≤ 4000 }
        ensures { result ≡ old.Cell place word ∷ old.Loc from.loc ∷ old.Clock from.clock ∷ [] }
    {
        Stored {
            place,
            word,
            from,
            to,
        }
    }
}

impl PackAll<Old> for Stored {
    ghost values = { λ s. s };

    #[inline(always)]
    fn count(&self) -> usize {
        // (the proof knows the values where a field of it is named)
        let _ = &self.from;
        3
    }

    #[inline(always)]
    fn pack_all(&self, units: &mut Vec<u32>, anchor: &mut Anchor) {
        append_store(self.place, self.word, self.from, self.to, units, anchor);
    }
}

// A cell, the location and the clock: in one header after the word, where it is known what stood there before, and the step was a store.
#[inline(always)]
fn append_store(
    place: Place,
    word: Word,
    from: Anchor,
    to: Anchor,
    units: &mut Vec<u32>,
    anchor: &mut Anchor,
)
    requires loc { from.loc ≤ 4000 }
    requires room { vec_len units.old + 9 ≤ vec_capacity units.old }
    ensures said { said anchor.new units.new.items ≡ said anchor.old units.old.items ++ old.Cell place word ∷ old.Loc from.loc ∷ old.Clock from.clock ∷ [] }
    ensures len { vec_len units.new ≤ vec_len units.old + 9 }
    ensures capacity { vec_capacity units.new ≡ vec_capacity units.old }
{
    if is_same(*anchor, from) {
        if let Some(header) = store_header(place, from, to) {
            units.push_reserved(long_bits(word));
            units.push_reserved(header);
            anchor.set(to);
            return;
        }
    }
    cell(place, word, units);
    append_moment(from, to, units, anchor);
}

/// The place of the cell that a store overwrote, by the payload of its header, where its word stands before it, and all three values may be
/// taken off and none has been.
#[inline(always)]
pub(crate) fn store_of(payload: u32, before: usize, most: usize) -> Option<Place>
    ensures store { MatchOption result (Unit {0}) (λ place. (payload % 2 ≡ 0) × (payload / 2 % 4096 ≡ place) × (place < 4000)) }
    ensures within { MatchOption result (Unit {0}) (λ _. (0 < before) × (2 < most)) }
{
    if payload % 2 != 0 || before == 0 || most < 3 {
        return None;
    }
    Place::of((payload / 2 % 4096) as u16)
}

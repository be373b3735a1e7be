//! Where changes end whose values do not say it, and how many values the last change keeps.
ghost use Rattle.std.specs.Prelude.{◌≡◌, ◌+◌, ◌-◌, ◌<◌, ◌≤◌, ◌++◌, [], ◌∷◌, false, length, drop, reverse, vec_len, vec_capacity, OnOk};
ghost use Rattle.undo_core.specs.Counts.{ArePlaces, is_place, newest_place, open_in, places_after, places_below};

use crate::pack::Pack;
use crate::undo::Undo;
use crate::values::Backwards;
use std::alloc::AllocError;

/// Makes room for the place of a change, if no value of it says its end: most changes ask for none.
#[inline(always)]
pub(crate) fn reserve_place<S: Undo>(
    places: &mut Vec<usize>,
    change: &S::Change,
) -> Result<(), AllocError>
    ensures items { places.new.items ≡ places.old.items }
    ensures room { OnOk result (S.ends change.now ≡ false → vec_len places.new < vec_capacity places.new) }
{
    if !S::ends(change) {
        places.reserve(1)?;
    }
    Ok(())
}

/// Notes the place at which a change ends, where no value of it says its end. There is room for it then.
#[inline(always)]
pub(crate) fn note_end<S: Undo>(places: &mut Vec<usize>, change: &S::Change, end: usize)
    requires { S.ends change.now ≡ false → vec_len places.old < vec_capacity places.old }
    ensures { places.new.items ≡ places_after (S.ends change.now) end places.old.items }
{
    if !S::ends(change) {
        places.push_reserved(end);
    }
}

/// Whether so many values are the last place.
#[inline(always)]
pub(crate) fn is_last_place(places: &[usize], count: usize) -> bool
    ensures { result ≡ is_place count (reverse places.now) }
{
    match places.split_last() {
        Some((place, _)) => *place == count,
        None => false,
    }
}

/// Takes the last place off, if it is that of so many values.
#[inline(always)]
pub(crate) fn leave_place(places: &mut Vec<usize>, count: usize)
    ensures { reverse places.new.items ≡ places_below count (reverse places.old.items) }
{
    if is_last_place(places, count) {
        places.pop();
    }
}

/// The places before that of so many values.
pub(crate) fn before_place(places: &[usize], count: usize) -> &[usize]
    ensures { reverse result.now ≡ places_below count (reverse places.now) }
{
    match places.split_last() {
        Some((place, rest)) => { if *place == count { rest } else { places } }
        None => places,
    }
}

/// How many values the last change keeps, of so many of which none has its place.
pub(crate) fn last_part<O: Pack>(all: &Backwards<'_, O>, count: usize, places: &[usize]) -> usize
    requires count { count ≡ length all.now }
    requires some { 0 < count }
    requires places { ArePlaces (count - 1) (reverse places.now) }
    ensures { result ≡ open_in O.is_last (reverse places.now) (drop 1 (reverse all.now)) + 1 }
{
    let most = count - 1 - newest(places);
    match all.last() {
        Some((_, rest)) => rest.run(most) + 1,
        None => unreachable!(),
    }
}

// The last place, or the beginning.
#[inline(always)]
pub(crate) fn newest(places: &[usize]) -> usize
    ensures { result ≡ newest_place (reverse places.now) }
{
    match places.split_last() {
        Some((place, _)) => *place,
        None => 0,
    }
}

//! A change that was done, added to those before it.
ghost use Rattle.std.specs.Prelude.{◌≡◌, ◌+◌, ◌-◌, ◌<◌, ◌≤◌, ◌^◌, ◌++◌, [], ◌∷◌, length, take, get_or, replicate, vec_len, vec_capacity, IsTrue, OnOk, OnErr};
ghost use Rattle.undo_core.specs.Prelude.{places_after, items_of, IsRising};

use crate::places::note_end;
use crate::runs::{Run, append, count_in, cut, lengthen};
use crate::undo::Undo;
use std::alloc::AllocError;

/// Puts a change, which ends at so many values, in the place of all from the end of those done on. Out of memory, nothing is altered.
// The same as the last one where none stands ahead is what a step mostly is, and asks for no memory.
#[inline(always)]
pub(crate) fn add<S: Undo>(
    changes: &mut Vec<Run<S::Change>>,
    places: &mut Vec<usize>,
    done: usize,
    change: S::Change,
    end: usize,
) -> Result<(), AllocError>
    requires rising { IsRising 0 changes.old.items }
    requires within { done ≤ length (items_of 0 changes.old.items) }
    requires few { done < 2 ^ 63 }
    ensures rising { OnOk result (IsRising 0 changes.new.items) }
    ensures items { OnOk result (items_of 0 changes.new.items ≡ take done (items_of 0 changes.old.items) ++ change ∷ []) }
    ensures places { OnOk result (places.new.items ≡ places_after (S.ends change) end places.old.items) }
    ensures same { OnErr result (changes.new.items ≡ changes.old.items) }
    ensures same_places { OnErr result (places.new.items ≡ places.old.items) }
{
    if S::ends(&change) && is_next::<S>(changes, done, &change) {
        lengthen(changes, change, 1);
        Ok(())
    } else {
        add_apart::<S>(changes, places, done, change, end)
    }
}

// The same of any change.
#[inline(never)]
fn add_apart<S: Undo>(
    changes: &mut Vec<Run<S::Change>>,
    places: &mut Vec<usize>,
    done: usize,
    change: S::Change,
    end: usize,
) -> Result<(), AllocError>
    requires rising { IsRising 0 changes.old.items }
    requires within { done ≤ length (items_of 0 changes.old.items) }
    requires few { done < 2 ^ 63 }
    ensures rising { OnOk result (IsRising 0 changes.new.items) }
    ensures items { OnOk result (items_of 0 changes.new.items ≡ take done (items_of 0 changes.old.items) ++ change ∷ []) }
    ensures places { OnOk result (places.new.items ≡ places_after (S.ends change) end places.old.items) }
    ensures same { OnErr result (changes.new.items ≡ changes.old.items) }
    ensures same_places { OnErr result (places.new.items ≡ places.old.items) }
{
    changes.reserve(1)?;
    places.reserve(1)?;
    put_last::<S>(changes, done, change, 1);
    note_end::<S>(places, &change, end);
    Ok(())
}

/// Puts a change, done so many times, in the place of all from the end of those done on. It says its end. Out of memory, nothing is altered.
pub(crate) fn add_many<S: Undo>(
    changes: &mut Vec<Run<S::Change>>,
    done: usize,
    change: S::Change,
    many: usize,
) -> Result<(), AllocError>
    requires rising { IsRising 0 changes.old.items }
    requires within { done ≤ length (items_of 0 changes.old.items) }
    requires few { done + many < 2 ^ 64 }
    ensures rising { OnOk result (IsRising 0 changes.new.items) }
    ensures items { OnOk result (items_of 0 changes.new.items ≡ take done (items_of 0 changes.old.items) ++ replicate many change) }
    ensures same { OnErr result (changes.new.items ≡ changes.old.items) }
{
    if is_next::<S>(changes, done, &change) {
        lengthen(changes, change, many);
        return Ok(());
    }
    changes.reserve(1)?;
    put_last::<S>(changes, done, change, many);
    Ok(())
}

// Puts a change, done so many times, in the place of all from this one on. There is room for it.
fn put_last<S: Undo>(changes: &mut Vec<Run<S::Change>>, done: usize, change: S::Change, many: usize)
    requires rising { IsRising 0 changes.old.items }
    requires within { done ≤ length (items_of 0 changes.old.items) }
    requires few { done + many < 2 ^ 64 }
    requires room { vec_len changes.old < vec_capacity changes.old }
    ensures rising { IsRising 0 changes.new.items }
    ensures items { items_of 0 changes.new.items ≡ take done (items_of 0 changes.old.items) ++ replicate many change }
{
    if done < count_in(changes) {
        cut(changes, done);
    }
    if is_last::<S>(changes, &change) {
        lengthen(changes, change, many);
    } else {
        append(changes, change, many);
    }
}

// Whether a change is the same as the last one, and none stands ahead where so many are done.
#[inline(always)]
fn is_next<S: Undo>(changes: &[Run<S::Change>], done: usize, change: &S::Change) -> bool
    requires { IsRising 0 changes.now }
    ensures all { IsTrue result → length (items_of 0 changes.now) ≡ done }
    ensures some { IsTrue result → 0 < length changes.now }
    ensures same { IsTrue result → (get_or changes.now (length changes.now - 1) (record { item = change.now; end = 0 })).item ≡ change.now }
{
    done == count_in(changes) && is_last::<S>(changes, change)
}

// Whether a change is the same as the last one.
#[inline(always)]
fn is_last<S: Undo>(changes: &[Run<S::Change>], change: &S::Change) -> bool
    ensures some { IsTrue result → 0 < length changes.now }
    ensures same { IsTrue result → (get_or changes.now (length changes.now - 1) (record { item = change.now; end = 0 })).item ≡ change.now }
{
    let count = changes.len();
    count > 0 && S::is_same(&changes[count - 1].item, change)
}

//! The old values that changes keep, in units of 32 bits.
ghost use Rattle.std.specs.Prelude.{◌≡◌, ◌+◌, ◌-◌, ◌<◌, ◌≤◌, ◌^◌, ◌++◌, [], ◌∷◌, Some, IsSome, length, take, drop, reverse, MatchOption, OnOk, OnErr};
ghost use Rattle.undo_core.specs.Prelude.{newest_part, put_back};

use crate::pack::{Pack, PackAll};
use crate::undo::Undo;
use crate::values::{Backwards, Values};
use std::alloc::{AllocError, Global};
use std::marker::{Model, PhantomData};

/// A list of old values, with the room for more.
#[derive(Drop)]
pub struct Kept<O: Pack> {
    units: Vec<u32>,
    // by which the units are read
    anchor: O::Anchor,
    // how many values the units say
    count: usize,
    of: PhantomData<O>,
}

impl<O: Pack> Model for Kept<O> {
    ghost use Rattle.std.specs.Prelude.{◌≡◌, ◌-◌, ◌/◌, length, vec_len, vec_capacity};
    ghost use Rattle.undo_core.specs.Pack.{KeptList};

    ghost Value = { KeptList O };

    ghost view = { λ k. record { items = O.said k.anchor k.units.items; room = (vec_capacity k.units - vec_len k.units) / 3 } };

    ghost invariant = { λ k. k.count ≡ length (O.said k.anchor k.units.items) };
}

impl<O: Pack> Kept<O> {
    /// An empty list. It takes no memory.
    pub fn new(alloc: Global) -> Kept<O>
        ensures { result.items ≡ [] }
    {
        Kept {
            units: Vec::new(alloc),
            anchor: O::anchor(),
            count: 0,
            of: PhantomData,
        }
    }

    /// How many values there are. It takes no memory.
    #[inline(always)]
    pub fn len(&self) -> usize
        ensures count { result ≡ length self.now.items }
        ensures few { result < 2 ^ 63 }
    {
        let _units = self.units.as_slice().len();
        self.count
    }

    /// Makes room for this many more values.
    #[inline(always)]
    pub fn reserve(&mut self, more: usize) -> Result<(), AllocError>
        requires few { more < 2 ^ 32 }
        ensures items { self.new.items ≡ self.old.items }
        ensures room { OnOk result (more ≤ self.new.room) }
    {
        self.units.reserve(3 * more)
    }

    /// Appends a value. There is room for it.
    #[inline(always)]
    pub fn push_reserved(&mut self, value: O)
        requires { 0 < self.old.room }
        ensures items { self.new.items ≡ self.old.items ++ value ∷ [] }
        ensures room { self.old.room ≤ self.new.room + 1 }
    {
        value.pack(&mut self.units);
        self.count += 1;
    }

    /// Appends values that are packed together. There is room for them.
    #[inline(always)]
    pub fn append_reserved<R: PackAll<O>>(&mut self, values: &R)
        requires { length (R.values values.now) ≤ self.old.room }
        ensures items { self.new.items ≡ self.old.items ++ R.values values.now }
        ensures room { self.old.room ≤ self.new.room + length (R.values values.now) }
    {
        values.pack_all(&mut self.units, &mut self.anchor);
        self.count += values.count();
    }

    /// Appends a value.
    pub fn push(&mut self, value: O) -> Result<(), AllocError>
        ensures items { OnOk result (self.new.items ≡ self.old.items ++ value ∷ []) }
        ensures same { OnErr result (self.new.items ≡ self.old.items) }
    {
        self.reserve(1)?;
        self.push_reserved(value);
        Ok(())
    }

    /// Takes the last value off, if there is one. It takes no memory.
    #[inline(always)]
    pub fn pop(&mut self) -> Option<O>
        ensures { MatchOption result ((self.old.items ≡ []) × (self.new.items ≡ [])) (λ value. self.old.items ≡ self.new.items ++ value ∷ []) }
    {
        if self.count == 0 {
            return None;
        }
        // (before, so that nothing stands between what is taken and what is done with it)
        self.count -= 1;
        match O::take(&mut self.units, &mut self.anchor) {
            Some(value) => Some(value),
            None => unreachable!(),
        }
    }

    /// Takes all values off. It takes no memory.
    pub fn clear(&mut self)
        ensures { self.new.items ≡ [] }
    {
        self.units.clear();
        self.count = 0;
    }

    /// All values, to be read from the last one backwards. It takes no memory.
    pub fn values(&self) -> Values<'_, O>
        ensures { result ≡ self.now.items }
    {
        Values::of(self.backwards(), self.count)
    }

    // The values, to be read from the last one backwards.
    pub(crate) fn backwards(&self) -> Backwards<'_, O>
        ensures { result ≡ self.now.items }
    {
        Backwards::of(&self.units, self.anchor)
    }
}

/// Puts back the values that the last change keeps, of at most so many, and removes them: the last value, and those before it down to one that ends
/// the change before. Returns how many. It takes no memory.
#[inline(always)]
pub(crate) fn revert_part<S: Undo>(state: &mut S, kept: &mut Kept<S::Old>, most: usize) -> usize
    requires some { 0 < most }
    requires within { most ≤ length kept.old.items }
    requires fits { IsSome (put_back S.put (drop (length kept.old.items - most) kept.old.items) state.old) }
    ensures is { result ≡ newest_part S.Old.is_last most (reverse kept.old.items) }
    ensures within { result ≤ most }
    ensures back { put_back S.put (drop (length kept.old.items - result) kept.old.items) state.old ≡ Some state.new }
    ensures cut { kept.new.items ≡ take (length kept.old.items - result) kept.old.items }
{
    let part = restore_part(state, &mut kept.units, &mut kept.anchor, most);
    kept.count -= part;
    part
}

// The same of what units say.
#[inline(always)]
fn restore_part<S: Undo>(
    state: &mut S,
    units: &mut Vec<u32>,
    anchor: &mut <S::Old as Pack>::Anchor,
    most: usize,
) -> usize
    requires some { 0 < most }
    requires within { most ≤ length (S.Old.said anchor.old units.old.items) }
    requires fits { IsSome (put_back S.put (drop (length (S.Old.said anchor.old units.old.items) - most) (S.Old.said anchor.old units.old.items)) state.old) }
    ensures is { result ≡ newest_part S.Old.is_last most (reverse (S.Old.said anchor.old units.old.items)) }
    ensures within { result ≤ most }
    ensures back { put_back S.put (drop (length (S.Old.said anchor.old units.old.items) - result) (S.Old.said anchor.old units.old.items)) state.old ≡ Some state.new }
    ensures cut { S.Old.said anchor.new units.new.items ≡ take (length (S.Old.said anchor.old units.old.items) - result) (S.Old.said anchor.old units.old.items) }
{
    let mut many = 0;
    while many < most {
        many += state.restore_some(units, anchor, most - many);
        if many < most && S::Old::is_ended(units, *anchor) {
            return many;
        }
    }
    many
}

/// Puts back the last `count` values of `kept`, the last one first, and removes them. It takes no
/// memory.
#[inline(always)]
pub fn revert<S: Undo>(state: &mut S, kept: &mut Kept<S::Old>, count: usize)
    requires within { count ≤ length kept.old.items }
    requires fits { IsSome (put_back S.put (drop (length kept.old.items - count) kept.old.items) state.old) }
    ensures back { put_back S.put (drop (length kept.old.items - count) kept.old.items) state.old ≡ Some state.new }
    ensures cut { kept.new.items ≡ take (length kept.old.items - count) kept.old.items }
{
    let mut left = count;
    while left > 0 {
        left -= state.restore_some(&mut kept.units, &mut kept.anchor, left);
    }
    kept.count -= count;
}

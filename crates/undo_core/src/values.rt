//! Old values read from the last one backwards, without a copy.
ghost use Rattle.std.specs.Prelude.{◌≡◌, ◌+◌, ◌-◌, ◌≤◌, ◌++◌, [], ◌∷◌, ◌==◌, ℕ, suc, length, take, drop, reverse, MatchOption};
ghost use Rattle.undo_core.specs.Prelude.{run_of, unit_list};

use crate::pack::Pack;
use std::marker::{Model, PhantomData};

/// All values that units say.
#[derive(Drop)]
pub(crate) struct Backwards<'a, O: Pack> {
    units: &'a [u32],
    // the unit that stands after these
    more: Option<u32>,
    // by which they are read
    anchor: O::Anchor,
    of: PhantomData<O>,
}

impl<'a, O: Pack> Model for Backwards<'a, O> {
    ghost use Rattle.std.specs.Prelude.{◌++◌, List};
    ghost use Rattle.undo_core.specs.Pack.{unit_list};

    ghost Value = { List O };

    ghost view = { λ b. O.said b.anchor (b.units.now ++ unit_list b.more) };
}

impl<'a, O: Pack> Backwards<'a, O> {
    // The values that units say.
    pub(crate) fn of(units: &'a [u32], anchor: O::Anchor) -> Backwards<'a, O>
        ensures { result ≡ O.said anchor units.now }
    {
        Backwards {
            units,
            more: None,
            anchor,
            of: PhantomData,
        }
    }

    // How many of the last values, at most so many, come before one in which changes end.
    pub(crate) fn run(&self, most: usize) -> usize
        ensures is { result ≡ run_of O.is_last most (reverse self.now) }
        ensures within { result ≤ most }
    {
        let mut front = self.copied();
        let mut left = most;
        while left > 0 {
            match front.open_before() {
                None => return most - left,
                Some(rest) => front = rest,
            }
            left -= 1;
        }
        most
    }

    // Those before the last value, if there is one in which changes do not end.
    #[tactic(auto, using(crate::proofs::Ending::run_nothing, crate::proofs::Ending::run_ended, crate::proofs::Ending::run_open))]
    #[inline(always)]
    fn open_before(&self) -> Option<Backwards<'a, O>>
        ensures { MatchOption result ((most : ℕ) → run_of O.is_last most (reverse self.now) ≡ 0)
            (λ rest. (most : ℕ) → run_of O.is_last (suc most) (reverse self.now) ≡ suc (run_of O.is_last most (reverse rest))) }
    {
        match self.last() {
            None => None,
            Some((value, rest)) => { if value.is_last() { None } else { Some(rest) } }
        }
    }

    // The last value, if there is one, and those before it.
    #[inline(always)]
    pub(crate) fn last(&self) -> Option<(O, Backwards<'a, O>)>
        ensures { MatchOption result (self.now ≡ []) (λ last. self.now ≡ last.1 ++ last.0 ∷ []) }
    {
        let last = O::last(self.units, self.more, self.anchor)?;
        let front = Backwards {
            units: &self.units[..last.left],
            more: last.more,
            anchor: last.anchor,
            of: PhantomData,
        };
        Some((last.value, front))
    }

    // The same values.
    #[inline(always)]
    pub(crate) fn copied(&self) -> Backwards<'a, O>
        ensures { result ≡ self.now }
    {
        Backwards {
            units: self.units,
            more: self.more,
            anchor: self.anchor,
            of: PhantomData,
        }
    }

    // The values before the last ones, so many of them.
    pub(crate) fn before(&self, count: usize) -> Backwards<'a, O>
        requires { count ≤ length self.now }
        ensures { result ≡ take (length self.now - count) self.now }
    {
        let mut front = self.copied();
        for _ in 0..count {
            match front.last() {
                Some((_, rest)) => front = rest,
                None => unreachable!(),
            }
        }
        front
    }
}

/// The values that a change overwrote, in the order in which it overwrote them, to be read from the last one backwards.
#[derive(Drop)]
pub struct Values<'a, O: Pack> {
    // those up to the last one
    all: Backwards<'a, O>,
    len: usize,
}

impl<'a, O: Pack> Model for Values<'a, O> {
    ghost use Rattle.std.specs.Prelude.{◌-◌, ◌≤◌, List, length, drop};

    ghost Value = { List O };

    ghost view = { λ v. drop (length v.all - v.len) v.all };

    ghost invariant = { λ v. v.len ≤ length v.all };
}

impl<'a, O: Pack> Values<'a, O> {
    // The last values, so many of them.
    pub(crate) fn of(all: Backwards<'a, O>, len: usize) -> Values<'a, O>
        requires { len ≤ length all }
        ensures { result ≡ drop (length all.entry - len) all.entry }
    {
        Values { all, len }
    }

    /// The same values. It takes no memory.
    pub fn copied(&self) -> Values<'a, O>
        ensures { result ≡ self.now }
    {
        Values {
            all: self.all.copied(),
            len: self.len,
        }
    }

    /// How many values are left. It takes no memory.
    pub fn len(&self) -> usize
        ensures { result ≡ length self.now }
    {
        self.len
    }

    /// Whether none is left. It takes no memory.
    pub fn is_empty(&self) -> bool
        ensures { result ≡ (length self.now == 0) }
    {
        self.len == 0
    }

    /// Takes the last value off, if one is left. It takes no memory.
    #[inline(always)]
    pub fn pop(&mut self) -> Option<O>
        ensures { MatchOption result ((self.old ≡ []) × (self.new ≡ [])) (λ value. self.old ≡ self.new ++ value ∷ []) }
    {
        if self.len == 0 {
            return None;
        }
        match self.all.last() {
            Some((value, front)) => {
                self.all = front;
                self.len -= 1;
                Some(value)
            }
            None => unreachable!(),
        }
    }
}

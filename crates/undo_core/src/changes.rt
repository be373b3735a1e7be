//! A list of changes, as a journal keeps it.
ghost use Rattle.std.specs.Prelude.{◌≡◌, ◌==◌, ◌<◌, ◌≤◌, length, take, get_or, MatchOption};

use crate::runs::{Run, item_at};
use std::marker::Model;

/// A list of changes, the oldest one first. Equal ones that follow each other take the memory of one.
#[derive(Drop)]
pub struct Changes<'a, C: Copy> {
    runs: &'a [Run<C>],
    len: usize,
}

impl<'a, C: Copy> Model for Changes<'a, C> {
    ghost use Rattle.std.specs.Prelude.{List, ◌≤◌, length, take};
    ghost use Rattle.undo_core.specs.Runs.{items_of, IsRising};

    ghost Value = { List C };

    ghost view = { λ l. take l.len (items_of 0 l.runs.now) };

    ghost invariant = { λ l. IsRising 0 l.runs.now × (l.len ≤ length (items_of 0 l.runs.now)) };
}

impl<'a, C: Copy> Changes<'a, C> {
    ghost use Rattle.undo_core.specs.Runs.{items_of, IsRising};

    /// The first items of runs.
    pub(crate) fn of(runs: &'a [Run<C>], len: usize) -> Changes<'a, C>
        requires rising { IsRising 0 runs.now }
        requires within { len ≤ length (items_of 0 runs.now) }
        ensures { result ≡ take len (items_of 0 runs.now) }
    {
        Changes { runs, len }
    }

    /// How many changes there are.
    pub fn len(&self) -> usize
        ensures { result ≡ length self.now }
    {
        self.len
    }

    /// Whether there is none.
    pub fn is_empty(&self) -> bool
        ensures { result ≡ (length self.now == 0) }
    {
        self.len == 0
    }

    /// The change of this number, counted from 0.
    pub fn at(&self, number: usize) -> C
        requires { number < length self.now }
        ensures { result ≡ get_or self.now number result }
    {
        item_at(self.runs, number)
    }

    /// The change of this number, counted from 0, if there is one.
    pub fn get(&self, number: usize) -> Option<C>
        ensures is { MatchOption result (length self.now ≤ number) (λ change. change ≡ get_or self.now number change) }
        ensures within { MatchOption result (length self.now ≤ number) (λ _. number < length self.now) }
    {
        if number < self.len {
            Some(self.at(number))
        } else {
            None
        }
    }
}

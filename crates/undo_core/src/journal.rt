//! The changes done on a state, each of which can be taken back and done again.
ghost use Rattle.std.specs.Prelude.{◌≡◌, ◌+◌, ◌-◌, ◌<◌, ◌≤◌, ◌^◌, ◌⊎◌, ◌↔◌, ◌++◌, [], ◌∷◌, List, true, false, length, replicate, take, drop, get_or, vec_len, vec_capacity, Some, Ok, Err, IsOk, IsSome, IsTrue, OnOk, OnErr, IfOk};
ghost use Rattle.std.specs.Bool.{OnFalse};
ghost use Rattle.mix_refused.specs.Refused.{IfFault, IfMemory};
ghost use Rattle.undo_core.specs.Prelude.{Repeats, goes_unless, replay, count_kept, put_back};

use crate::adding::{add, add_many};
use crate::changes::Changes;
use crate::kept::{Kept, revert, revert_part};
use crate::past::Past;
use crate::places::{leave_place, newest, note_end, reserve_place};
use crate::runs::{Run, count_in, item_at};
use crate::undo::Undo;
use mix_refused::{Memory, Refused};
use std::alloc::Global;
use std::marker::Model;

/// The changes done on a state since its first one, and those that were taken back and stand ahead.
#[derive(Drop)]
pub struct Journal<S: Undo> {
    state: S,
    // The old values of the changes done, one change after the other.
    kept: Kept<S::Old>,
    // The changes done, and after them those ahead.
    changes: Vec<Run<S::Change>>,
    // How many are done.
    done: usize,
    // How many values were kept after each change done of which no value says its end.
    places: Vec<usize>,
}

impl<S: Undo> Model for Journal<S> {
    ghost use Rattle.std.specs.Prelude.{length, take, drop};
    ghost use Rattle.undo_core.specs.History.{History};
    ghost use Rattle.undo_core.specs.Replay.{unwound};
    ghost use Rattle.undo_core.specs.Runs.{items_of};
    ghost use Rattle.undo_core.specs.Leads.{IsStored};

    ghost Value = { History S S.Change };

    ghost view = { λ j. record { first = unwound S.put j.kept.items j.state; changes = take j.done (items_of 0 j.changes.items); ahead = drop j.done (items_of 0 j.changes.items) } };

    ghost invariant = { λ j. IsStored S.gives S.keeps S.put S.Old.is_last j.state j.kept.items j.changes.items j.places.items j.done };
}

impl<S: Undo> Journal<S> {
    ghost use Rattle.undo_core.specs.History.{HoldsOfState};

    /// A journal at its first state, with no change. It takes no memory.
    pub fn new(alloc: Global, s: S) -> Journal<S>
        ensures { result ≡ record { first = s; changes = []; ahead = [] } }
    {
        Journal {
            state: s,
            kept: Kept::new(alloc),
            changes: Vec::new(alloc),
            done: 0,
            places: Vec::new(alloc),
        }
    }

    /// Does one change more and forgets those ahead. A fault of the state, or out of memory, alters nothing;
    /// out of memory is the answer to no change that has a fault.
    // (inlined, so that a change that the caller knows, as a step, is not passed through memory)
    #[inline(always)]
    pub fn go(&mut self, change: S::Change) -> Result<(), Refused<S::Fault>>
        ensures first { self.new.first ≡ self.old.first }
        ensures stands { IsSome (replay S.gives self.old.first self.old.changes) }
        ensures changes { OnOk result (self.new.changes ≡ self.old.changes ++ change ∷ []) }
        ensures ahead { OnOk result (self.new.ahead ≡ []) }

        // The state before the change gives the one after it, or the fault.
        ensures given { OnOk result (HoldsOfState S.gives self.old (λ s.
            (t : S) × (S.gives s change ≡ Ok t) × (replay S.gives self.new.first self.new.changes ≡ Some t))) }
        ensures fault { IfFault result (λ f. HoldsOfState S.gives self.old (λ s. S.gives s change ≡ Err f)) }
        ensures last { IfMemory result (HoldsOfState S.gives self.old (λ s. IsOk (S.gives s change))) }
        ensures err { OnErr result (self.new ≡ self.old) }
    {
        let from = self.kept.len();
        self.state.apply(&change, &mut self.kept)?;
        let end = self.kept.len();
        match add::<S>(&mut self.changes, &mut self.places, self.done, change, end) {
            Ok(()) => {
                self.done += 1;
                Ok(())
            }
            Err(_) => {
                revert(&mut self.state, &mut self.kept, end - from);
                Err(Refused::Memory)
            }
        }
    }

    /// Does a change, whose values say its end, once, and again as long as the state needs no look and none stops it, so many times at most, and forgets
    /// those ahead. It returns how many times it was done, and why not once more, if that was tried and refused. Where memory is out, it may be done no time.
    #[inline(always)]
    pub fn go_many(
        &mut self,
        change: S::Change,
        most: usize,
        stop: &S::Stop,
    ) -> (usize, Result<(), Refused<S::Fault>>)
        requires some { 0 < most }
        requires few { most < 2 ^ 63 }
        requires ends { S.ends change ≡ true }
        ensures within { result.0 ≤ most }
        ensures first { self.new.first ≡ self.old.first }
        ensures changes { self.new.changes ≡ self.old.changes ++ replicate result.0 change }
        ensures none { result.0 ≡ 0 → self.new ≡ self.old }
        ensures ahead { 0 < result.0 → self.new.ahead ≡ [] }
        ensures did { HoldsOfState S.gives self.old (λ s. (t : S) × (os : List S.Old) × Repeats S.is_real S.gives S.keeps (goes_unless (S.stops stop.now) S.goes) change result.0 s t os
            × (replay S.gives self.new.first self.new.changes ≡ Some t)) }
        ensures all { OnOk result.1 ((0 < result.0) × ((result.0 ≡ most) ⊎ HoldsOfState S.gives self.new (λ t. goes_unless (S.stops stop.now) S.goes t change ≡ false))) }
        ensures going { OnErr result.1 (0 < result.0 → HoldsOfState S.gives self.new (λ t. goes_unless (S.stops stop.now) S.goes t change ≡ true)) }
        ensures fault { IfFault result.1 (λ f. HoldsOfState S.gives self.new (λ t. S.gives t change ≡ Err f)) }
        ensures last { IfMemory result.1 (HoldsOfState S.gives self.new (λ t. IsOk (S.gives t change))) }
    {
        let from = self.kept.len();
        let (many, answer) = self.state.apply_until(&change, most, stop, &mut self.kept);
        if many == 0 {
            return (0, answer);
        }
        match add_many::<S>(&mut self.changes, self.done, change, many) {
            Ok(()) => {
                self.done += many;
                (many, answer)
            }
            Err(_) => {
                let end = self.kept.len();
                revert(&mut self.state, &mut self.kept, end - from);
                (0, Err(Refused::Memory))
            }
        }
    }

    /// Takes the last change back; it can then be done again. It takes no memory, and returns false
    /// if no change is left.
    // (inlined too: a loop that takes changes back then calls nothing for a step)
    #[inline(always)]
    pub fn back(&mut self) -> bool
        ensures left { IsTrue result ↔ (0 < length self.old.changes) }
        ensures first { self.new.first ≡ self.old.first }
        ensures changes { self.new.changes ≡ take (length self.old.changes - 1) self.old.changes }
        ensures ahead { self.new.ahead ≡ drop (length self.old.changes - 1) self.old.changes ++ self.old.ahead }
        ensures all { self.new.changes ++ self.new.ahead ≡ self.old.changes ++ self.old.ahead }
        ensures none { OnFalse result (self.new ≡ self.old) }
    {
        if self.done == 0 {
            return false;
        }
        let count = self.kept.len();
        leave_place(&mut self.places, count);
        revert_part(
            &mut self.state,
            &mut self.kept,
            count - newest(&self.places),
        );
        self.done -= 1;
        true
    }

    /// Takes the last changes back, one or more, if one is left, and at most so many: those whose values say their ends, one after the other, or one alone.
    /// It returns how many. It takes no memory.
    pub fn back_many(&mut self, most: usize) -> usize
        ensures within { result ≤ most }
        ensures left { result ≤ length self.old.changes }
        ensures some { 0 < most → 0 < length self.old.changes → 0 < result }
        ensures first { self.new.first ≡ self.old.first }
        ensures changes { self.new.changes ≡ take (length self.old.changes - result) self.old.changes }
        ensures all { self.new.changes ++ self.new.ahead ≡ self.old.changes ++ self.old.ahead }
    {
        if most == 0 || self.done == 0 {
            return 0;
        }
        let count = self.kept.len();
        leave_place(&mut self.places, count);
        let mut left = count - newest(&self.places);
        let mut many = 0;
        while many < most && left > 0 {
            left -= revert_part(&mut self.state, &mut self.kept, left);
            many += 1;
        }
        self.done -= many;
        many
    }

    /// Does the next change that was taken back again. It returns false if there is none; out of
    /// memory changes nothing.
    pub fn forth(&mut self) -> Result<bool, Memory>
        ensures more { IfOk result (λ b. IsTrue b ↔ (0 < length self.old.ahead)) }
        ensures first { self.new.first ≡ self.old.first }
        ensures changes { OnOk result (self.new.changes ≡ self.old.changes ++ take 1 self.old.ahead) }
        ensures ahead { OnOk result (self.new.ahead ≡ drop 1 self.old.ahead) }
        ensures all { self.new.changes ++ self.new.ahead ≡ self.old.changes ++ self.old.ahead }
        ensures none { IfOk result (λ b. OnFalse b (self.new ≡ self.old)) }
        ensures err { OnErr result (self.new ≡ self.old) }
        ensures some { OnErr result (0 < length self.old.ahead) }
        ensures given { OnErr result ((c : S.Change) → c ≡ get_or self.old.ahead 0 c → HoldsOfState S.gives self.old (λ s. IsOk (S.gives s c))) }
    {
        if self.ahead() == 0 {
            return Ok(false);
        }
        let change = item_at(&self.changes, self.done);
        reserve_place::<S>(&mut self.places, &change)?;
        match self.state.apply(&change, &mut self.kept) {
            Ok(()) => {
                note_end::<S>(&mut self.places, &change, self.kept.len());
                self.done += 1;
            }
            Err(Refused::Memory) => return Err(Memory),
            Err(Refused::Fault(_)) => unreachable!(),
        }
        Ok(true)
    }

    /// The state that the changes give. It takes no memory.
    pub fn state(&self) -> &S
        ensures { replay S.gives self.now.first self.now.changes ≡ Some result.now }
    {
        &self.state
    }

    /// The changes done, the oldest one first. It takes no memory.
    pub fn changes(&self) -> Changes<'_, S::Change>
        ensures { result ≡ self.now.changes }
    {
        Changes::of(&self.changes, self.done)
    }

    /// All changes, those done and after them those ahead. It takes no memory.
    pub fn all(&self) -> Changes<'_, S::Change>
        ensures { result ≡ self.now.changes ++ self.now.ahead }
    {
        Changes::of(&self.changes, count_in(&self.changes))
    }

    /// The changes done, to be read from the last one backwards by the values that each overwrote. It takes no memory.
    pub fn past(&self) -> Past<'_, S>
        ensures of { result.of ≡ self.now }
        ensures left { result.left ≡ length self.now.changes }
    {
        let count = self.kept.len();
        Past::of(self, self.kept.backwards(), count, &self.places, self.done)
    }

    /// Repeats the change with this number, counted from 0 over those done and those taken back, on
    /// a copy of the state before it. What it overwrites is appended to `kept`. Out of memory changes nothing.
    pub fn redo(&self, number: usize, state: &mut S, kept: &mut Kept<S::Old>) -> Result<(), Memory>
        requires within { number < length (self.now.changes ++ self.now.ahead) }
        requires before { replay S.gives self.now.first (take number (self.now.changes ++ self.now.ahead)) ≡ Some state.old }
        ensures after { OnOk result (replay S.gives self.now.first (take (number + 1) (self.now.changes ++ self.now.ahead)) ≡ Some state.new) }
        ensures kept { OnOk result ((c : S.Change) → c ≡ get_or (self.now.changes ++ self.now.ahead) number c →
            kept.new.items ≡ kept.old.items ++ S.keeps state.old c) }
        ensures back { OnOk result (put_back S.put (drop (length kept.old.items) kept.new.items) state.new ≡ Some state.old) }
        ensures same { OnErr result (state.new ≡ state.old) }
        ensures same_kept { OnErr result (kept.new.items ≡ kept.old.items) }
    {
        let change = item_at(&self.changes, number);
        match state.apply(&change, kept) {
            Ok(()) => {}
            Err(Refused::Memory) => return Err(Memory),
            Err(Refused::Fault(_)) => unreachable!(),
        }
        Ok(())
    }

    /// How many changes are done: fewer than 2^63. It takes no memory.
    pub fn done(&self) -> usize
        ensures count { result ≡ length self.now.changes }
        ensures few { result < 2 ^ 63 }
    {
        let _few = self.kept.len();
        self.done
    }

    /// How many changes stand ahead. It takes no memory.
    pub fn ahead(&self) -> usize
        ensures { result ≡ length self.now.ahead }
    {
        count_in(&self.changes) - self.done
    }

    /// How many old values the changes done keep. It takes no memory.
    pub fn kept_len(&self) -> usize
        ensures { result ≡ count_kept S.gives S.keeps self.now.first self.now.changes }
    {
        self.kept.len()
    }
}

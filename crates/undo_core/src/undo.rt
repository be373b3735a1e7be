//! A state whose changes can be taken back by the values that they overwrote.
ghost use Rattle.std.specs.Prelude.{◌≡◌, ◌<◌, ◌≤◌, ◌-◌, ◌++◌, ◌⊎◌, Bool, List, Option, Result, Some, Ok, Err, true, false, IsOk, IsSome, IsTrue, OnOk, OnErr, length, take, drop, reverse};
ghost use Rattle.mix_refused.specs.Refused.{IfFault, IfMemory};
ghost use Rattle.undo_core.specs.Prelude.{IsPart, newest_part, Repeats, goes_unless, put_back};

use crate::kept::Kept;
use crate::pack::Pack;
use crate::values::Values;
use mix_refused::Refused;

/// A state, its changes, and the old values that take a change back.
pub trait Undo: Sized + Drop {
    /// What a state is asked to do.
    type Change: Copy;

    /// One part of a state, with the value that it held.
    type Old: Pack;

    /// Why a state refuses a change.
    type Fault: Drop;

    /// What stops a change that is done again and again.
    type Stop;

    /// The state and the change are values of the program, with their bounds.
    ghost is_real: { Self → Self.Change → Type 0 };

    /// The new state that a change gives, or its fault.
    ghost gives: { Self → Self.Change → Result Self Self.Fault };

    /// The values that an accepted change overwrites, in the order in which it overwrites them.
    ghost keeps: { Self → Self.Change → List Self.Old };

    /// The state with one value put back, or none where the value doesn't fit.
    ghost put: { Self → Self.Old → Option Self };

    /// Whether the last value that a change overwrites says its end, and no other does. If not, none of its values does.
    ghost ends: { Self.Change → Bool };

    /// Whether the last value of a change says its end.
    fn ends(change: &Self::Change) -> bool
        ensures { result ≡ ends change.now };

    /// Whether two changes are the same; of one whose values say its end it is always known. A journal keeps equal ones that follow each other once;
    /// where this is false for them, each for itself.
    fn is_same(one: &Self::Change, other: &Self::Change) -> bool
        ensures same { IsTrue result → one.now ≡ other.now }
        ensures known { ends one.now ≡ true → one.now ≡ other.now → IsTrue result };

    /// Does the change and appends the values that it overwrites to `kept`. A fault, or out of memory, alters nothing;
    /// out of memory is the answer to no change that has a fault.
    fn apply(
        &mut self,
        change: &Self::Change,
        kept: &mut Kept<Self::Old>,
    ) -> Result<(), Refused<Self::Fault>>
        ensures real { is_real self.old change.now }
        ensures given { OnOk result (gives self.old change.now ≡ Ok self.new) }
        ensures kept { OnOk result (kept.new.items ≡ kept.old.items ++ keeps self.old change.now) }
        ensures fault { IfFault result (λ f. gives self.old change.now ≡ Err f) }
        ensures last { IfMemory result (IsOk (gives self.old change.now)) }
        ensures same { OnErr result (self.new ≡ self.old) }
        ensures same_kept { OnErr result (kept.new.items ≡ kept.old.items) };

    /// Whether a state is one that stops it.
    ghost stops: { Self.Stop → Self → Bool };

    /// Whether a change may be done on a state without a look at it first.
    ghost goes: { Self → Self.Change → Bool };

    /// Does the change once, and again as long as the state needs no look and is none that stops it, so many times at most, and appends the values that it
    /// overwrites. It returns how many times it was done, and why not once more, if that was tried and refused.
    fn apply_until(
        &mut self,
        change: &Self::Change,
        most: usize,
        stop: &Self::Stop,
        kept: &mut Kept<Self::Old>,
    ) -> (usize, Result<(), Refused<Self::Fault>>)
        requires { 0 < most }
        ensures within { result.0 ≤ most }
        ensures done { (os : List Self.Old) × (kept.new.items ≡ kept.old.items ++ os) × Repeats is_real gives keeps (goes_unless (stops stop.now) goes) change.now result.0 self.old self.new os }
        ensures all { OnOk result.1 ((0 < result.0) × ((result.0 ≡ most) ⊎ (goes_unless (stops stop.now) goes self.new change.now ≡ false))) }
        ensures going { OnErr result.1 (0 < result.0 → goes_unless (stops stop.now) goes self.new change.now ≡ true) }
        ensures fault { IfFault result.1 (λ f. gives self.new change.now ≡ Err f) }
        ensures last { IfMemory result.1 (IsOk (gives self.new change.now)) };

    /// Puts one value back. It takes no memory.
    fn restore(&mut self, old: Self::Old)
        requires { IsSome (put self.old old) }
        ensures { put self.old old ≡ Some self.new };

    /// Takes the last value of units off, and puts it back, and maybe some before it, but at most so many in all, and none that ends a change before
    /// that of the last one. Returns how many. It takes no memory.
    #[inline(always)]
    fn restore_some(
        &mut self,
        units: &mut Vec<u32>,
        anchor: &mut <Self::Old as Pack>::Anchor,
        most: usize,
    ) -> usize
        requires some { 0 < most }
        requires within { most ≤ length (Self.Old.said anchor.old units.old.items) }
        requires fits { IsSome (put_back put (drop (length (Self.Old.said anchor.old units.old.items) - most) (Self.Old.said anchor.old units.old.items)) self.old) }
        ensures some { 0 < result }
        ensures within { result ≤ most }
        ensures back { put_back put (drop (length (Self.Old.said anchor.old units.old.items) - result) (Self.Old.said anchor.old units.old.items)) self.old ≡ Some self.new }
        ensures cut { Self.Old.said anchor.new units.new.items ≡ take (length (Self.Old.said anchor.old units.old.items) - result) (Self.Old.said anchor.old units.old.items) }
        ensures part { result ≤ newest_part Self.Old.is_last most (reverse (Self.Old.said anchor.old units.old.items)) }
    {
        match Self::Old::take(units, anchor) {
            Some(value) => self.restore(value),
            None => unreachable!(),
        }
        1
    }

    /// Puts values back, the last one first. It takes no memory.
    fn restore_all(&mut self, values: &Values<'_, Self::Old>)
        requires { IsSome (put_back put values.now self.old) }
        ensures { put_back put values.now self.old ≡ Some self.new }
    {
        let mut left = values.copied();
        for _ in 0..left.len() {
            match left.pop() {
                Some(value) => self.restore(value),
                None => unreachable!(),
            }
        }
    }

    /// What an accepted change overwrites says its end, or nothing of it does.
    ghost parts: { (s t : Self) (c : Self.Change) → is_real s c → gives s c ≡ Ok t → IsPart Self.Old.is_last (ends c) (keeps s c) };

    /// Putting back the values that an accepted change overwrote gives the state before it.
    ghost undoes: { (s t : Self) (c : Self.Change) → is_real s c → gives s c ≡ Ok t → put_back put (keeps s c) t ≡ Some s };
}

//! Values that can be kept in units of 32 bits, one after the other.
ghost use Rattle.std.specs.Prelude.{◌≡◌, ◌+◌, ◌*◌, ◌<◌, ◌≤◌, ℕ, Bool, true, ◌++◌, [], ◌∷◌, List, MatchOption, length, take, reverse, refl, vec_len, vec_capacity};
ghost use Rattle.undo_core.specs.Prelude.{is_ended, unit_list};
ghost use Rattle.std.proofs.Common.{arith};

/// A value that takes at most three units of 32 bits. What units say is read from the last one backwards, whatever they are, by an anchor:
/// what is known of the state after their last value, of which units may say how it was before.
pub trait Pack: Copy {
    /// What is known of a state.
    type Anchor: Copy;

    /// The values that units say.
    ghost said: { Self.Anchor → List ℕ → List Self };

    /// No units say nothing.
    ghost said_none: { (anchor : Self.Anchor) → said anchor [] ≡ [] };

    /// Units say no more than three values each.
    ghost said_fewer: { (anchor : Self.Anchor) (units : List ℕ) → length (said anchor units) ≤ 3 * length units };

    /// Whether a change ends in a value as this, where it ends in a value that says so.
    ghost is_last: { Self → Bool };

    /// Whether it is one of those in which changes end.
    fn is_last(self) -> bool
        ensures { result ≡ is_last self };

    /// The anchor of no units.
    fn anchor() -> Self::Anchor;

    /// Appends the units of the value, which any anchor leaves as it is. There is room for three.
    fn pack(self, units: &mut Vec<u32>)
        requires { vec_len units.old + 3 ≤ vec_capacity units.old }
        ensures said { (anchor : Self.Anchor) → said anchor units.new.items ≡ said anchor units.old.items ++ self ∷ [] }
        ensures len { vec_len units.new ≤ vec_len units.old + 3 }
        ensures capacity { vec_capacity units.new ≡ vec_capacity units.old };

    /// Takes the last value off, if there is one.
    fn take(units: &mut Vec<u32>, anchor: &mut Self::Anchor) -> Option<Self>
        ensures { MatchOption result (said anchor.old units.old.items ≡ []) (λ value. said anchor.old units.old.items ≡ said anchor.new units.new.items ++ value ∷ []) };

    /// The last value in the units, if there is one. The top unit may be held apart, in `more`.
    fn last(
        units: &[u32],
        more: Option<u32>,
        anchor: Self::Anchor,
    ) -> Option<Last<Self, Self::Anchor>>
        ensures is { MatchOption result (said anchor (units.now ++ unit_list more) ≡ [])
            (λ last. said anchor (units.now ++ unit_list more) ≡ said last.anchor (take last.left units.now ++ unit_list last.more) ++ last.value ∷ []) }
        ensures within { MatchOption result (said anchor (units.now ++ unit_list more) ≡ []) (λ last. last.left ≤ length units.now) };

    /// Whether units, which say some values, end in one in which changes end.
    #[inline(always)]
    fn is_ended(units: &[u32], anchor: Self::Anchor) -> bool
        requires { 0 < length (said anchor units.now) }
        ensures { result ≡ is_ended is_last (reverse (said anchor units.now)) }
    {
        match Self::last(units, None, anchor) {
            Some(last) => last.value.is_last(),
            None => true,
        }
    }
}

/// Values that are packed together, which may take fewer units than each of them by itself.
pub trait PackAll<O: Pack> {
    /// The values.
    ghost values: { Self → List O };

    /// How many there are.
    fn count(&self) -> usize
        ensures { result ≡ length (values self.now) };

    /// Appends the units of the values. There is room for three for each.
    fn pack_all(&self, units: &mut Vec<u32>, anchor: &mut O::Anchor)
        requires { vec_len units.old + 3 * length (values self.now) ≤ vec_capacity units.old }
        ensures said { O.said anchor.new units.new.items ≡ O.said anchor.old units.old.items ++ values self.now }
        ensures len { vec_len units.new ≤ vec_len units.old + 3 * length (values self.now) }
        ensures capacity { vec_capacity units.new ≡ vec_capacity units.old };
}

/// The last value of units, and what is left before it: the first units of their list, maybe one more, and the anchor by which they are read.
#[derive(Clone, Copy)]
pub struct Last<O: Copy, A: Copy> {
    pub value: O,
    pub left: usize,
    pub more: Option<u32>,
    pub anchor: A,
}

/// A number is a unit, whatever is known, and ends its change.
impl Pack for u32 {
    type Anchor = ();

    ghost said = { λ _ units. units };

    ghost said_none = { λ _. refl };

    ghost said_fewer = { λ _ units. omega arith };

    ghost is_last = { λ _. true };

    fn is_last(self) -> bool {
        true
    }

    fn anchor() {}

    fn pack(self, units: &mut Vec<u32>) {
        units.push_reserved(self);
    }

    fn take(units: &mut Vec<u32>, _anchor: &mut ()) -> Option<u32> {
        units.pop()
    }

    fn last(units: &[u32], more: Option<u32>, anchor: ()) -> Option<Last<u32, ()>> {
        match more {
            Some(value) => Some(Last {
                value,
                left: units.len(),
                more: None,
                anchor,
            }),
            None => {
                let left = units.len().checked_sub(1)?;
                Some(Last {
                    value: units[left],
                    left,
                    more: None,
                    anchor,
                })
            }
        }
    }
}

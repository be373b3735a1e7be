//! The headers of what a step keeps, which are read by the anchor after it.
ghost use Rattle.std.specs.Prelude.{ℕ, ◌≡◌, ◌-◌, ◌≤◌, ◌<◌, ◌^◌, [], ◌∷◌, IfSome, IsTrue};
ghost use Rattle.mix_machine.specs.declared.old.Old.TheVariants as old;
ghost use Rattle.mix_word.specs.declared.register.Reg.TheVariants as registers;
ghost use Rattle.mix_machine.specs.Pack.{Says, SaysWith, long_word};

use crate::pack::anchor::Anchor;
use crate::pack::kind::Kind;
use crate::pack::step::bits_below;
use mix_word::{Place, Reg, Word};

/// Whether two anchors are the same.
#[inline(always)]
pub(crate) fn is_same(one: Anchor, other: Anchor) -> bool
    ensures { IsTrue result → one ≡ other }
{
    one.loc == other.loc && one.clock == other.clock
}

/// The header that says all three, if there is one: that of a jump, or of a short step.
#[inline(always)]
pub(crate) fn header_with(reg: Reg, word: Word, from: Anchor, to: Anchor) -> Option<u32>
    requires { from.loc ≤ 4000 }
    ensures { IfSome result (λ header. Says header to from (old.Reg reg word ∷ old.Loc from.loc ∷ old.Clock from.clock ∷ [])) }
{
    let time = elapsed(from, to);
    if reg == Reg::J {
        if time != 1 || word.magnitude() >= 4096 {
            return None;
        }
        return Some(jump_header(word, from, to));
    }
    if time == 0 || time > 2 || to.loc != from.loc + 1 || word.magnitude() >= 0x40_0000 {
        return None;
    }
    Some(short_header(reg, word, time as u32, from, to))
}

// The header of a jump.
#[inline(always)]
fn jump_header(word: Word, from: Anchor, to: Anchor) -> u32
    requires loc { from.loc ≤ 4000 }
    requires word { word.magnitude < 4096 }
    requires clock { to.clock - 1 ≡ from.clock }
    ensures { Says result to from (old.Reg registers.J word ∷ old.Loc from.loc ∷ old.Clock from.clock ∷ []) }
{
    Kind::Jump.header(bits_below(4096, word) * 8192 + u32::from(from.loc) * 2)
}

// The header of a short step.
#[inline(always)]
fn short_header(reg: Reg, word: Word, time: u32, from: Anchor, to: Anchor) -> u32
    requires register { reg ≡ registers.J → ⊥ }
    requires word { word.magnitude < 2 ^ 22 }
    requires time { 0 < time }
    requires times { time ≤ 2 }
    requires loc { to.loc - 1 ≡ from.loc }
    requires clock { to.clock - time ≡ from.clock }
    ensures { Says result to from (old.Reg reg word ∷ old.Loc from.loc ∷ old.Clock from.clock ∷ []) }
{
    let bits = bits_below(0x40_0000, word);
    Kind::Short.header(bits * 32 + (time - 1) * 8 + u32::from(reg.number()))
}

/// The header of a store, if it goes on to the next location and takes 2 u.
#[inline(always)]
pub(crate) fn store_header(place: Place, from: Anchor, to: Anchor) -> Option<u32>
    requires { from.loc ≤ 4000 }
    ensures { IfSome result (λ header. (w : ℕ) → SaysWith w header to from (old.Cell place (long_word w) ∷ old.Loc from.loc ∷ old.Clock from.clock ∷ [])) }
{
    if elapsed(from, to) != 2 || to.loc != from.loc + 1 {
        return None;
    }
    Some(Kind::Store.header(u32::from(place.number()) * 2))
}

/// The time of a step, where it is below 65,536 u.
#[inline(always)]
pub(crate) fn elapsed(from: Anchor, to: Anchor) -> u64
    ensures { result < 65536 → to.clock - result ≡ from.clock }
{
    if from.clock <= to.clock {
        to.clock - from.clock
    } else {
        65536
    }
}

/// The header of a moment.
#[inline(always)]
pub(crate) fn moment_header(time: u32, from: Anchor, to: Anchor) -> u32
    requires loc { from.loc ≤ 4000 }
    requires time { time < 65536 }
    requires clock { to.clock - time ≡ from.clock }
    ensures { Says result to from (old.Loc from.loc ∷ old.Clock from.clock ∷ []) }
{
    Kind::Moment.header(time * 4096 + u32::from(from.loc))
}

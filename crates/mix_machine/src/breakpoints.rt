//! The breakpoints, one bit to a cell.
ghost use Rattle.std.specs.Prelude.{◌≡◌, ◌<◌, ◌≤◌, ◌^◌, ◌==◌, ◌≢◌, ℕ, false, not, slice_index_or, slice_set, replicate, if◌then◌else◌};
ghost use Rattle.std.specs.Int.{bit_at};
ghost use Rattle.std.specs.List.{list_any};

use mix_word::Place;
use std::marker::Model;

/// Of each cell whether it has a breakpoint: 64 cells to a number.
#[derive(Drop)]
pub(crate) struct Breakpoints {
    words: [u64; 63],
    // Whether there is any, which a run asks first.
    any: bool,
}

impl Model for Breakpoints {
    ghost use Rattle.std.specs.Prelude.{List, Bool};
    ghost use Rattle.mix_machine.specs.Breakpoints.{breaks_in};

    ghost Value = { List Bool };

    ghost view = { λ b. breaks_in b.words };

    ghost use Rattle.std.specs.Prelude.{◌≡◌, false, replicate};

    ghost invariant = { λ b. b.any ≡ false → b.words ≡ replicate 63 0 };
}

impl Breakpoints {
    /// No breakpoint.
    pub(crate) fn none() -> Breakpoints
        ensures { result ≡ replicate 4000 false }
    {
        Breakpoints {
            words: [0; 63],
            any: false,
        }
    }

    /// The same breakpoints.
    pub(crate) fn copied(&self) -> Breakpoints
        ensures { result ≡ self.now }
    {
        Breakpoints {
            words: self.words,
            any: self.any,
        }
    }

    /// Whether a cell has a breakpoint.
    #[tactic(auto, using(crate::proofs::BreakLemmas::reads))]
    pub(crate) fn get(&self, p: Place) -> bool
        ensures { result ≡ slice_index_or self.now p false }
    {
        if !self.any {
            return false;
        }
        let number = p.number();
        let word = self.words[usize::from(number / 64)];
        (word >> (number % 64)) & 1 == 1
    }

    /// Whether a cell may have a breakpoint: where not, none has one.
    #[tactic(auto, using(crate::proofs::BreakLemmas::no_breaks_at))]
    pub(crate) fn any(&self) -> bool
        ensures { result ≡ false → (p : ℕ) → p < 4000 → slice_index_or self.now p false ≡ false }
    {
        self.any
    }

    /// Gives a cell a breakpoint, or takes it away.
    pub(crate) fn set(&mut self, p: Place, on: bool)
        ensures { self.new ≡ slice_set self.old p on }
    {
        let number = p.number();
        let index = usize::from(number / 64);
        self.words[index] = with_bit(self.words[index], number % 64, on);
        self.any = has_any(&self.words);
    }
}

// Whether one of the numbers has a bit set.
fn has_any(words: &[u64]) -> bool
    ensures { result ≡ list_any (λ word. not (word == 0)) words.now }
{
    words.iter().any(|word| *word != 0)
}

// A number with one of its bits set, or cleared.
fn with_bit(word: u64, place: u16, on: bool) -> u64
    requires { place < 64 }
    ensures same { bit_at result place ≡ (if on then 1 else 0) }
    ensures other { (i : ℕ) → i < 64 → i ≢ place → bit_at result i ≡ bit_at word i }
{
    let bit = 1 << place;
    if on { word | bit } else { word & !bit }
}

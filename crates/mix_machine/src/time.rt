//! A time of the clock, as an old value keeps it.
ghost use Rattle.std.specs.Prelude.{◌≡◌};

use std::marker::Model;

/// A time in u, below 2^64.
// Its halves, so that an old value takes 12 bytes and not 16.
#[derive(Clone, Copy, PartialEq, Eq)]
pub struct Time {
    low: u32,
    high: u32,
}

const HALF: u64 = 0x1_0000_0000;

impl Model for Time {
    ghost use Rattle.std.specs.Prelude.{ℕ, ◌+◌, ◌*◌, ◌/◌, ◌%◌, ◌<◌, ◌^◌};
    ghost use Rattle.std.proofs.Common.{arith};
    ghost use Rattle.std.proofs.lemmas.Bool.Decides.{nat_tests};

    ghost Value = { ℕ };

    ghost view = { λ t. t.high * 2 ^ 32 + t.low };

    ghost invariant = { λ t. t.low < 2 ^ 32 };

    ghost inverse = { λ n. record { low = n % 2 ^ 32; high = n / 2 ^ 32 } };

    ghost inverse_ok = { λ a h. Prim.grind (arith, nat_tests) };
}

impl Time {
    /// The time of this number.
    #[inline(always)]
    pub fn of(number: u64) -> Time
        ensures { result ≡ number }
    {
        Time {
            low: (number % HALF) as u32,
            high: (number / HALF) as u32,
        }
    }

    /// Its number, in u.
    #[inline(always)]
    pub fn number(self) -> u64
        ensures { result ≡ self }
    {
        u64::from(self.high) * HALF + u64::from(self.low)
    }
}

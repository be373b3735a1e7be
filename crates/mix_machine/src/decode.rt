//! The instruction at the location: its operation, and its I, M and F (1.3.1).
ghost use Rattle.std.specs.Prelude.{◌≡◌, ◌<◌};
ghost use Rattle.mix_machine.specs.World.{IsWorld};
ghost use Rattle.mix_machine.specs.Decode.{index_of, address_of, arguments_of};

use crate::address::Address;
use crate::world::World;
use mix_word::{Parts, Word};

/// What an instruction gives to its operation: I, the address M, and F.
// (in this order, in which the compiler doesn't pack F and M together just to take them apart again)
#[derive(Clone, Copy)]
pub(crate) struct Arguments {
    pub(crate) f: u8,
    pub(crate) m: Address,
    pub(crate) index: u8,
}

impl World {
    /// I, M and F of an instruction.
    #[inline(always)]
    pub(crate) fn arguments(&self, parts: Parts) -> Arguments
        requires { parts.address < 4096 }
        ensures is { result ≡ arguments_of self.now parts }
        ensures plain { result.index ≡ 0 → result.m.magnitude < 4096 }
    {
        Arguments {
            f: parts.f,
            m: self.address(parts),
            index: parts.index,
        }
    }

    // M: where I is 0, the address by itself, which takes less time.
    #[inline(always)]
    fn address(&self, parts: Parts) -> Address
        requires { parts.address < 4096 }
        ensures is { result ≡ address_of self.now parts }
        ensures plain { parts.index ≡ 0 → result.magnitude < 4096 }
    {
        if parts.index == 0 {
            Address::of(parts.sign, parts.address)
        } else {
            Address::add(parts.sign, parts.address, self.index(parts.index))
        }
    }

    // The index register of this number, and +0 where it has none.
    #[tactic(auto, using(crate::proofs::RegisterLemmas::index_bound))]
    #[inline(always)]
    fn index(&self, i: u8) -> Word
        ensures is { result ≡ index_of self.now i }
        ensures bound { result.magnitude < 4096 }
    {
        self.registers.index(i)
    }
}

//! Steps that neither use the cells of a transfer nor begin or end one (1.3.1, "Input-output operators").
ghost use Rattle.std.specs.Prelude.{◌≡◌, ◌&&◌, None, false, true, max, nat_le};
ghost use Rattle.mix_machine.specs.Prelude.{instruction, Step};
ghost use Rattle.mix_machine.specs.Transfers.{conflict_of, end_of, is_quiet, last_end, may_transfer, transfer_by};

use crate::transfers::{Pending, Transfers};
use crate::world::World;
use mix_word::{Place, decode_law};

impl Transfers {
    /// Whether all transfers are over, and the next instruction is no IOC, IN or OUT by its C: such a step conflicts with nothing, and
    /// makes nothing of a transfer. It looks at the clock and at the code of the instruction alone.
    #[inline(always)]
    #[tactic(auto, using(crate::proofs::ConflictLemmas::all_over))]
    pub fn is_quiet(&self, before: &World) -> bool
        ensures is { result ≡ is_quiet self.now before.now }
        ensures apart { result ≡ true → conflict_of self.now before.now Step ≡ None }
        ensures still { result ≡ true → transfer_by before.now Step ≡ None }
    {
        before.clock() >= self.over && !may_transfer(before)
    }
}

// Whether the next instruction is an IOC, an IN or an OUT by its C, or there is none.
#[inline(always)]
fn may_transfer(world: &World) -> bool
    ensures is { result ≡ may_transfer world.now }
    ensures still { result ≡ false → transfer_by world.now Step ≡ None }
{
    decode_law();
    match Place::of(world.loc()) {
        None => true,
        Some(place) => {
            let code = code_at(world, place);
            is_of_transfers(code)
        }
    }
}

// The code of the instruction at the location.
#[inline(always)]
fn code_at(world: &World, place: Place) -> u8
    requires { place ≡ world.now.loc }
    ensures { result ≡ (instruction world.now).code }
{
    world.cell(place).parts().code
}

// Whether C is that of IOC, IN or OUT.
#[inline(always)]
fn is_of_transfers(code: u8) -> bool
    ensures { result ≡ (nat_le 35 code && nat_le code 37) }
{
    35 <= code && code <= 37
}

/// The latest clock at which one of some transfers ends, or 0.
#[tactic(auto, using(crate::proofs::ConflictLemmas::last_ends))]
pub(super) fn last_end(list: &[Option<Pending>]) -> u64
    ensures { result ≡ last_end list.now }
{
    let mut last = 0;
    for number in 0..list.len() {
        last = later(last, end_of(list[number]));
    }
    last
}

// The clock at which a transfer ends, or 0.
fn end_of(transfer: Option<Pending>) -> u64
    ensures { result ≡ end_of transfer }
{
    match transfer {
        Some(pending) => pending.until,
        None => 0,
    }
}

// The later one of two clocks.
fn later(one: u64, other: u64) -> u64
    ensures { result ≡ max one other }
{
    if other > one { other } else { one }
}

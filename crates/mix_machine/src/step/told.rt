//! What a step comes to, in a byte, which is passed in a register.
ghost use Rattle.std.specs.Prelude.{◌≡◌};
ghost use Rattle.mix_machine.specs.Fault.{answer_of, fault_of};

use crate::fault::MixFault;
use undo_core::Refused;

/// The byte that tells an answer.
#[inline(always)]
pub(super) fn told(answer: Result<(), Refused<MixFault>>) -> u8
    ensures { answer_of result ≡ answer }
{
    match answer {
        Ok(()) => 0,
        Err(Refused::Memory) => 255,
        Err(Refused::Fault(fault)) => fault.number(),
    }
}

/// The answer that a byte tells.
#[inline(always)]
pub(super) fn answer_of(byte: u8) -> Result<(), Refused<MixFault>>
    ensures { result ≡ answer_of byte }
{
    match byte {
        0 => Ok(()),
        255 => Err(Refused::Memory),
        number => Err(Refused::Fault(fault_of(number))),
    }
}

// The fault of a number.
#[cold]
#[inline(never)]
fn fault_of(number: u8) -> MixFault
    ensures { result ≡ fault_of number }
{
    match number {
        1 => MixFault::NoOperation,
        2 => MixFault::FloatingOperation,
        3 => MixFault::IndexOverSix,
        4 => MixFault::LargeAddress,
        5 => MixFault::NoCell,
        6 => MixFault::NoField,
        7 => MixFault::IndexOverflow,
        8 => MixFault::NegativeShift,
        9 => MixFault::NoUnit,
        10 => MixFault::WrongDirection,
        11 => MixFault::NoBlock,
        12 => MixFault::BadControl,
        13 => MixFault::UnitFull,
        14 => MixFault::ClockFull,
        _ => MixFault::NoCellAtLocation,
    }
}

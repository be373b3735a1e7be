//! The faults of the machine, in the order of their numbers.
ghost use Rattle.std.specs.Prelude.{◌≡◌, Some};
ghost use Rattle.mix_machine.specs.Fault.{fault_number, fault_text, fault_line};

use std::fmt;

/// Why the machine refuses a step: M1 to M15. The book leaves open what the machine then does (1.3.1).
#[derive(Clone, Copy, Debug, PartialEq, Eq)]
pub enum MixFault {
    NoOperation,
    FloatingOperation,
    IndexOverSix,
    LargeAddress,
    NoCell,
    NoField,
    IndexOverflow,
    NegativeShift,
    NoUnit,
    WrongDirection,
    NoBlock,
    BadControl,
    UnitFull,
    ClockFull,
    NoCellAtLocation,
}

impl MixFault {
    /// The number of the fault, 1 to 15.
    pub fn number(self) -> u8
        ensures { result ≡ fault_number self }
    {
        match self {
            MixFault::NoOperation => 1,
            MixFault::FloatingOperation => 2,
            MixFault::IndexOverSix => 3,
            MixFault::LargeAddress => 4,
            MixFault::NoCell => 5,
            MixFault::NoField => 6,
            MixFault::IndexOverflow => 7,
            MixFault::NegativeShift => 8,
            MixFault::NoUnit => 9,
            MixFault::WrongDirection => 10,
            MixFault::NoBlock => 11,
            MixFault::BadControl => 12,
            MixFault::UnitFull => 13,
            MixFault::ClockFull => 14,
            MixFault::NoCellAtLocation => 15,
        }
    }

    /// The text of the fault.
    pub fn text(self) -> &'static str
        ensures { result.now ≡ fault_text self }
    {
        match self {
            MixFault::NoOperation => "no such operation",
            MixFault::FloatingOperation => "floating operation",
            MixFault::IndexOverSix => "index over 6",
            MixFault::LargeAddress => "address beyond two bytes",
            MixFault::NoCell => "no such cell",
            MixFault::NoField => "no such field",
            MixFault::IndexOverflow => "index overflow",
            MixFault::NegativeShift => "negative shift",
            MixFault::NoUnit => "no such unit",
            MixFault::WrongDirection => "wrong direction",
            MixFault::NoBlock => "no block",
            MixFault::BadControl => "bad control",
            MixFault::UnitFull => "unit full",
            MixFault::ClockFull => "clock full",
            MixFault::NoCellAtLocation => "no cell at the location",
        }
    }
}

impl fmt::Display for MixFault {
    ghost output = { λ fault. Some (fault_line fault) };

    fn fmt<W: fmt::Write>(&self, f: &mut fmt::Formatter<W>) -> fmt::Result {
        let number = self.number();
        let text = self.text();
        write!(f, "M{number} {text}")
    }
}

//! The registers (1.3.1).
ghost use Rattle.std.specs.Prelude.{◌≡◌, ◌<◌, ◌↔◌, Some, slice_get};
ghost use Rattle.std.specs.List.{find};
ghost use Rattle.mix_word.specs.Prelude.{Reg, all_registers, number_of_register, name_of_register, register_named, reg_of, offset_of};

/// A register: rA and rX of five bytes, rI1 to rI6 and rJ of two (1.3.1).
#[derive(Clone, Copy, Debug, PartialEq, Eq)]
pub enum Reg {
    A,
    X,
    I1,
    I2,
    I3,
    I4,
    I5,
    I6,
    J,
}

/// A register that operations load, store and compare: any but rJ, in the order of the operation codes (1.3.1).
#[rattlefmt::skip]
#[derive(Clone, Copy)]
pub enum DataReg { A, I1, I2, I3, I4, I5, I6, X }

impl Reg {
    /// The nine registers (1.3.1), in the order in which the enum lists them: rA, rX, rI1 to rI6, rJ.
    #[rattlefmt::skip]
    pub const ALL: [Reg; 9] =
        [Reg::A, Reg::X, Reg::I1, Reg::I2, Reg::I3, Reg::I4, Reg::I5, Reg::I6, Reg::J];

    /// The number of a register (1.3.1), 0 to 8, in the order of `ALL`: rA, rX, rI1 to rI6, rJ.
    pub fn number(self) -> u8
        ensures is { result ≡ number_of_register self }
        ensures listed { slice_get all_registers result ≡ Some self }
        ensures bound { result < 9 }
    {
        self as u8
    }

    /// The name without the r that the book puts before it (1.3.1): `A`, `X`, `I1` to `I6`, `J`.
    pub fn name(self) -> &'static str
        ensures is { result.now ≡ name_of_register self }
        ensures named { register_named result.now ≡ Some self }
    {
        match self {
            Reg::A => "A",
            Reg::X => "X",
            Reg::I1 => "I1",
            Reg::I2 => "I2",
            Reg::I3 => "I3",
            Reg::I4 => "I4",
            Reg::I5 => "I5",
            Reg::I6 => "I6",
            Reg::J => "J",
        }
    }

    /// The register of such a name (1.3.1), in capitals as it is given, or none where no register has it.
    pub fn named(name: &[u8]) -> Option<Reg>
        ensures is { result ≡ register_named name.now }
        ensures law { (r : Reg) → (result ≡ Some r) ↔ (name_of_register r ≡ name.now) }
    {
        first_named(name)
    }
}

fn first_named(name: &[u8]) -> Option<Reg>
    ensures { result ≡ register_named name.now }
{
    Reg::ALL
        .iter()
        .copied()
        .find(|r| r.name().as_bytes() == name)
}

// The registers of a row of eight codes, in its order.
#[rattlefmt::skip]
static REGISTERS: [Reg; 8] =
    [Reg::A, Reg::I1, Reg::I2, Reg::I3, Reg::I4, Reg::I5, Reg::I6, Reg::X];

impl DataReg {
    // The register of this number, 0 to 7: rA, rI1 to rI6, rX.
    pub(crate) fn at_offset(n: u8) -> DataReg
        requires { n < 8 }
        ensures { offset_of result ≡ n }
    {
        match n {
            0 => DataReg::A,
            1 => DataReg::I1,
            2 => DataReg::I2,
            3 => DataReg::I3,
            4 => DataReg::I4,
            5 => DataReg::I5,
            6 => DataReg::I6,
            7 => DataReg::X,
            _ => unreachable!(),
        }
    }

    // The number, 0 to 7: of rA, rI1 to rI6, rX.
    pub(crate) fn offset(self) -> u8
        ensures is { result ≡ offset_of self }
        ensures bound { result < 8 }
    {
        self as u8
    }

    /// The register itself (1.3.1).
    #[tactic(auto, using(crate::proofs::RegisterRow::register_in_row))]
    pub fn reg(self) -> Reg
        ensures { result ≡ reg_of self }
    {
        REGISTERS[usize::from(self.offset())]
    }
}

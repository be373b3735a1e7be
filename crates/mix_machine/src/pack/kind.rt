//! The kinds of packed values, and the headers that say them.
ghost use Rattle.std.specs.Prelude.{◌≡◌, ◌<◌, ◌^◌, ◌/◌, MatchOption};
ghost use Rattle.mix_machine.specs.Pack.{header_of, kind_of, says_clock};

/// What a header says of its values: the location, the clock, a register, a row of cells, the overflow toggle or the comparison indicator, a
/// breakpoint, or of an input-output unit its place, its length, a word of it or its time. A long register is one whose word takes more than
/// 23 bits. What a step keeps last is read by the anchor: a moment is its location and its time; a jump says rJ too; a short step a register of
/// few bits, at the place before and one or two u earlier; and a store, two u earlier, the place of a cell, whose word is the unit before it. A
/// whole moment says the clock itself, and the anchor before.
#[derive(Clone, Copy)]
pub(crate) enum Kind {
    Location,
    Clock,
    Register,
    Row,
    Moment,
    LongRegister,
    Indicator,
    Store,
    Breakpoint,
    UnitPlace,
    UnitLength,
    UnitItem,
    UnitTime,
    WholeMoment,
    Jump,
    Short,
}

impl Kind {
    /// The kind that a header says, if there is one of its number.
    #[inline(always)]
    pub(crate) fn of(header: u32) -> Option<Kind>
        ensures is { result ≡ kind_of header }
        ensures header { MatchOption result (Unit {0}) (λ kind. header ≡ header_of kind (header / 16)) }
    {
        match header % 16 {
            0 => Some(Kind::Location),
            1 => Some(Kind::Clock),
            2 => Some(Kind::Register),
            3 => Some(Kind::Row),
            4 => Some(Kind::Moment),
            5 => Some(Kind::LongRegister),
            6 => Some(Kind::Indicator),
            7 => Some(Kind::Store),
            8 => Some(Kind::Breakpoint),
            9 => Some(Kind::UnitPlace),
            10 => Some(Kind::UnitLength),
            11 => Some(Kind::UnitItem),
            12 => Some(Kind::UnitTime),
            13 => Some(Kind::WholeMoment),
            14 => Some(Kind::Jump),
            15 => Some(Kind::Short),
            _ => None,
        }
    }

    /// The header of a value of this kind with this payload.
    #[inline(always)]
    pub(crate) fn header(self, payload: u32) -> u32
        requires { payload < 2 ^ 28 }
        ensures { result ≡ header_of self payload }
    {
        payload * 16 + self as u32
    }
}

/// Whether the last value that a header says is a clock.
#[inline(always)]
pub(crate) fn says_clock(header: u32) -> bool
    ensures { result ≡ says_clock header }
{
    match Kind::of(header) {
        Some(Kind::Clock | Kind::Moment | Kind::WholeMoment) => true,
        Some(Kind::Jump | Kind::Store) => header / 16 % 2 == 0,
        Some(Kind::Short) => header / 16 / 16 % 2 == 0,
        _ => false,
    }
}

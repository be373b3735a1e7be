//! The kinds of units (1.3.1, "Input-output operators"): what each can do, and how long its blocks are.
ghost use Rattle.std.specs.Prelude.{◌≡◌, ◌<◌, ◌≤◌};
ghost use Rattle.mix_machine.specs.Prelude.{is_same_kind, kinds, kind_of, block_length, has_place, has_medium, has_output};

use crate::units::number::UnitNo;

/// What a unit is (1.3.1): a tape, a disk, a card reader, a card punch, a printer, a typewriter or a paper tape.
#[derive(Clone, Copy, PartialEq, Eq)]
pub enum UnitKind {
    Tape,
    Disk,
    CardReader,
    CardPunch,
    Printer,
    Typewriter,
    PaperTape,
}

/// The kind of each unit, by its number.
pub(crate) const KINDS: [UnitKind; UnitNo::COUNT] = [
    UnitKind::Tape,
    UnitKind::Tape,
    UnitKind::Tape,
    UnitKind::Tape,
    UnitKind::Tape,
    UnitKind::Tape,
    UnitKind::Tape,
    UnitKind::Tape,
    UnitKind::Disk,
    UnitKind::Disk,
    UnitKind::Disk,
    UnitKind::Disk,
    UnitKind::Disk,
    UnitKind::Disk,
    UnitKind::Disk,
    UnitKind::Disk,
    UnitKind::CardReader,
    UnitKind::CardPunch,
    UnitKind::Printer,
    UnitKind::Typewriter,
    UnitKind::PaperTape,
];

impl UnitKind {
    /// How many words a block of the unit has, or a row that it writes (1.3.1): 100, 24, 16 or 14.
    pub fn block_length(self) -> u8
        ensures is { result ≡ block_length self }
        ensures some { 0 < result }
        ensures most { result ≤ 100 }
    {
        match self {
            UnitKind::Tape | UnitKind::Disk => 100,
            UnitKind::CardReader | UnitKind::CardPunch => 16,
            UnitKind::Printer => 24,
            UnitKind::Typewriter | UnitKind::PaperTape => 14,
        }
    }

    /// Whether two kinds are the same, as `==` has it.
    pub(crate) fn is_same(self, other: UnitKind) -> bool
        ensures { result ≡ is_same_kind self other }
    {
        self == other
    }

    /// Whether the unit reads block after block, from a place on.
    pub(crate) fn has_place(self) -> bool
        ensures { result ≡ has_place self }
    {
        match self {
            UnitKind::Tape | UnitKind::CardReader | UnitKind::Typewriter | UnitKind::PaperTape =>
                true,
            UnitKind::Disk | UnitKind::CardPunch | UnitKind::Printer => false,
        }
    }

    /// Whether the unit reads back the blocks that it writes.
    pub(crate) fn has_medium(self) -> bool
        ensures { result ≡ has_medium self }
    {
        match self {
            UnitKind::Tape | UnitKind::Disk => true,
            UnitKind::CardReader | UnitKind::CardPunch | UnitKind::Printer => false,
            UnitKind::Typewriter | UnitKind::PaperTape => false,
        }
    }

    /// Whether the unit writes rows, which it never reads.
    pub(crate) fn has_output(self) -> bool
        ensures { result ≡ has_output self }
    {
        match self {
            UnitKind::Tape | UnitKind::Disk | UnitKind::CardReader => false,
            UnitKind::CardPunch | UnitKind::Printer | UnitKind::Typewriter | UnitKind::PaperTape =>
                true,
        }
    }
}

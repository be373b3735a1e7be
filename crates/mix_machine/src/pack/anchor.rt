//! By what the units of the machine are read.
ghost use Rattle.std.specs.Prelude.{◌≡◌};

/// The location and the clock of the machine after the last value that units say.
#[derive(Clone, Copy)]
pub struct Anchor {
    pub(crate) loc: u16,
    pub(crate) clock: u64,
}

impl Anchor {
    /// Puts another in its place: each field by itself, since else the compiler also writes the bytes between them.
    #[inline(always)]
    pub(crate) fn set(&mut self, to: Anchor)
        ensures { self.new ≡ to }
    {
        self.loc = to.loc;
        self.clock = to.clock;
    }
}

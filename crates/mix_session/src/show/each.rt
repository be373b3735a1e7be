//! The texts of things in a row, one after the other.

ghost use Rattle.std.specs.Prelude.{◌≡◌, ◌<◌, ◌≤◌, ℕ, List, Some};
ghost use Rattle.std.specs.Fmt.{WritesOnOk};
ghost use Rattle.mix_session.specs.Each.{texts};

use std::fmt;
use std::marker::PhantomData;

/// A kind of things that are numbered, each of which has a text.
pub(super) trait Numbered {
    /// What has them.
    type Of;

    // How many there are.
    ghost count: { Self.Of → ℕ };

    // The text of the one with a number.
    ghost text: { Self.Of → ℕ → List ℕ };

    /// Writes the text of the one with a number, counted from 0.
    fn write<W: fmt::Write>(of: &Self::Of, number: u16, f: &mut fmt::Formatter<W>) -> fmt::Result
        requires { number < count of.now }
        ensures { WritesOnOk W.write_str_gives f.old result (text of.now number) f.new };
}

/// The texts of the things of a kind from a first number on, up to the one before an end.
#[derive(Drop)]
pub(super) struct Each<'a, K: Numbered> {
    of: &'a K::Of,
    kind: PhantomData<K>,
    first: u16,
    end: u16,
    ghost within: { end ≤ K.count of.now },
}

impl<'a, K: Numbered> Each<'a, K> {
    pub(super) fn between(of: &'a K::Of, first: u16, end: u16) -> Each<'a, K>
        requires { end ≤ K.count of.now }
        ensures of { result.of.now ≡ of.now }
        ensures first { result.first ≡ first }
        ensures end { result.end ≡ end }
    {
        Each {
            of,
            kind: PhantomData,
            first,
            end,
        }
    }
}

impl<K: Numbered> fmt::Display for Each<'_, K> {
    ghost output = { λ e. Some (texts (K.text e.of.now) e.first e.end) };

    #[tactic(auto, unfolding(crate::specs::Each::texts))]
    fn fmt<W: fmt::Write>(&self, f: &mut fmt::Formatter<W>) -> fmt::Result {
        for number in self.first..self.end {
            K::write(self.of, number, f)?;
        }
        Ok(())
    }
}

//! Lines of bytes of things in a row, one after the other.

ghost use Rattle.std.specs.Prelude.{◌≡◌, ◌<◌, ◌≤◌, ◌++◌, ℕ, List, OnOk};
ghost use Rattle.mix_session.specs.Each.{texts};

use std::alloc::{AllocError, Global};

/// What has a text for each of its numbers, in bytes that may be no text: a source has any bytes in its remarks.
pub(super) trait Lines {
    // How many numbers it has.
    ghost count: { Self → ℕ };

    // The text of a number.
    ghost line: { Self → ℕ → List ℕ };

    /// Appends the text of a number.
    fn add(&self, alloc: Global, text: &mut Vec<u8>, number: u16) -> Result<(), AllocError>
        requires { number < count self.now }
        ensures { OnOk result (text.new.items ≡ text.old.items ++ line self.now number) };
}

/// Appends the texts of the numbers from a first one up to the one before an end.
#[tactic(auto, unfolding(crate::specs::Each::texts))]
pub(super) fn add_lines<L: Lines>(
    alloc: Global,
    text: &mut Vec<u8>,
    lines: &L,
    first: u16,
    end: u16,
) -> Result<(), AllocError>
    requires { end ≤ L.count lines.now }
    ensures { OnOk result (text.new.items ≡ text.old.items ++ texts (L.line lines.now) first end) }
{
    for number in first..end {
        lines.add(alloc, text, number)?;
    }
    Ok(())
}

//! Texts in columns.

ghost use Rattle.std.specs.Prelude.{◌≡◌, ◌++◌, OnOk};
ghost use Rattle.mix_session.specs.Columns.{blanks, left_in, right_in};

use std::alloc::AllocError;

/// Appends this many blanks.
pub(super) fn add_blanks(text: &mut Vec<u8>, count: usize) -> Result<(), AllocError>
    ensures { OnOk result (text.new.items ≡ text.old.items ++ blanks count) }
{
    for _i in 0..count {
        text.push(b' ')?;
    }
    Ok(())
}

/// Appends a text left in so many places.
pub(super) fn add_left(text: &mut Vec<u8>, places: usize, column: &[u8]) -> Result<(), AllocError>
    ensures { OnOk result (text.new.items ≡ text.old.items ++ left_in places column.now) }
{
    text.extend_from_slice(column)?;
    add_blanks(text, places.saturating_sub(column.len()))
}

/// Appends a text right in so many places.
pub(super) fn add_right(text: &mut Vec<u8>, places: usize, column: &[u8]) -> Result<(), AllocError>
    ensures { OnOk result (text.new.items ≡ text.old.items ++ right_in places column.now) }
{
    add_blanks(text, places.saturating_sub(column.len()))?;
    text.extend_from_slice(column)
}

//! What is told of the file that a person's line names.

use crate::reason::Reason;
use mix_refused::Memory;

/// What became of a file.
pub(crate) fn tell_file(
    what: &[u8],
    name: &[u8],
    reason: &str,
    note: &mut Vec<u8>,
) -> Result<(), Memory> {
    note.extend_from_slice(what)?;
    note.extend_from_slice(name)?;
    note.extend_from_slice(reason.as_bytes())?;
    note.extend_from_slice(b"\n")?;
    Ok(())
}

/// A file that can't be opened.
pub(crate) fn tell_not_opened(
    name: &[u8],
    reason: Reason,
    note: &mut Vec<u8>,
) -> Result<(), Memory> {
    tell_file(b"T4 not opened: ", name, reason.text(), note)
}

/// A file or a bundle that is longer than it may be.
pub(crate) fn tell_too_long(name: &[u8], note: &mut Vec<u8>) -> Result<(), Memory> {
    tell_file(b"T6 input too long: ", name, "", note)
}

//! What a person sources: a line names a file, and stands for the lines of it.

ghost use Rattle.std.specs.Prelude.{◌≡◌, Some, IfOk};
ghost use Rattle.mix_lines.specs.Lines.{lines, words};
ghost use Rattle.mix_run.specs.Opening.{Files};
ghost use Rattle.mix_person.specs.Person.{name_in};
ghost use Rattle.mix_run.specs.Sources.{lines_under};

use crate::opener::{Opener, Unread};
use crate::run::MAX_SCRIPT_BYTES;
use crate::talk::file::{tell_file, tell_not_opened, tell_too_long};
use mix_person::{form_of, name_in};
use mix_refused::{Memory, Refused};
use std::alloc::Global;

/// Why a file is not read.
pub(crate) fn tell_unread(unread: Unread, name: &[u8], note: &mut Vec<u8>) -> Result<(), Memory> {
    match unread {
        Unread::NotOpened(reason) => tell_not_opened(name, reason, note),
        Unread::NotRead => tell_file(b"T2 read failed: ", name, "", note),
    }
}

/// The text of the file that a line sources. It is empty if the file is longer than a script may be
/// or can't be read, or if the line names none: then a person is told why.
pub(crate) fn text_sourced<O: Opener>(
    alloc: Global,
    line: &[u8],
    files: &mut O,
    note: &mut Vec<u8>,
) -> Result<Vec<u8>, Memory>
    ensures text { (all : Files) → O.holds files.old ≡ Some all → IfOk result (λ text. lines text.items ≡ lines_under all (name_in (words line.now))) }
    ensures held { O.holds files.new ≡ O.holds files.old }
    ensures unasked { O.asked files.new ≡ O.asked files.old }
    ensures unsaved { O.saved files.new ≡ O.saved files.old }
{
    let name = match name_in(line) {
        None => {
            note.extend_from_slice(form_of(Some(b"source")).as_bytes())?;
            return Ok(Vec::new(alloc));
        }
        Some(name) => name,
    };
    match files.read(alloc, name, MAX_SCRIPT_BYTES + 1) {
        Ok(text) => {
            if text.len() > MAX_SCRIPT_BYTES {
                tell_too_long(name, note)?;
                Ok(Vec::new(alloc))
            } else {
                Ok(text)
            }
        }
        Err(Refused::Fault(unread)) => {
            tell_unread(unread, name, note)?;
            Ok(Vec::new(alloc))
        }
        Err(Refused::Memory) => Err(Memory),
    }
}

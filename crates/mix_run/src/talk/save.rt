//! What a person saves: in the file that a line names, the bundle of what was done so far.

ghost use Rattle.std.specs.Prelude.{◌≡◌, OnOk};
ghost use Rattle.mix_run.specs.Opening.{noted};
ghost use Rattle.mix_run.specs.Saves.{replaced_by, saves_of};

use crate::bundle::{MAX_BUNDLE_BYTES, bundle_of};
use crate::opener::{Opener, Unsaved};
use crate::replaces::Replaces;
use crate::talk::file::{tell_file, tell_not_opened, tell_too_long};
use crate::talk::moment::Moment;
use mix_person::{Line, form_of, kind_of, name_in};
use mix_refused::{Memory, Refused};

// What the file of a line may hold to be replaced: the one that the session was begun with, a bundle.
fn replaced_by(kind: Line, is_begun: bool) -> Replaces
    ensures { result ≡ replaced_by kind is_begun }
{
    match kind {
        Line::SaveOver => Replaces::Anything,
        _ if is_begun => Replaces::Bundle,
        _ => Replaces::Nothing,
    }
}

fn tell_unsaved(unsaved: Unsaved, name: &[u8], note: &mut Vec<u8>) -> Result<(), Memory> {
    match unsaved {
        Unsaved::NotOpened(reason) => tell_not_opened(name, reason, note),
        Unsaved::NotWritten(reason) => tell_file(b"T3 write failed: ", name, reason.text(), note),
        Unsaved::Taken => {
            note.extend_from_slice(b"T8 not replaced: ")?;
            note.extend_from_slice(name)?;
            tell_file(
                b": it holds something else; replace it with save! ",
                name,
                "",
                note,
            )
        }
    }
}

/// Saves the bundle of what was done in the file that a typed line names, unless it is longer than a
/// bundle may be. A person is told so, or why not; of a line that names none, what it takes.
pub(crate) fn save<O: Opener>(
    moment: &Moment,
    line: &[u8],
    files: &mut O,
    note: &mut Vec<u8>,
) -> Result<(), Memory>
    ensures saved { OnOk result (O.saved files.new ≡ noted (O.saved files.old) (saves_of moment.now.origin moment.now.recall.done line.now)) }
    ensures unasked { O.asked files.new ≡ O.asked files.old }
    ensures held { O.holds files.new ≡ O.holds files.old }
{
    let (alloc, origin) = (moment.recall.allocator(), &moment.origin);
    let name = match name_in(line) {
        None => {
            note.extend_from_slice(form_of(Some(b"save")).as_bytes())?;
            return Ok(());
        }
        Some(name) => name,
    };
    let bundle = bundle_of(alloc, origin, moment.recall.done())?;
    if bundle.len() > MAX_BUNDLE_BYTES {
        return tell_too_long(name, note);
    }
    let over = replaced_by(kind_of(line), name == origin.name().as_bytes());
    match files.save(alloc, name, &bundle, over) {
        Ok(()) => tell_file(b"saved: ", name, "", note),
        Err(Refused::Fault(unsaved)) => tell_unsaved(unsaved, name, note),
        Err(Refused::Memory) => Err(Memory),
    }
}

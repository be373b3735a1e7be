//! What a person reloads: the file of the source is read again, and in the machine that it loads all is done again that was done so far.

ghost use Rattle.std.specs.Prelude.{◌≡◌, OnErr, OnOk, Some};
ghost use Rattle.mix_lines.specs.Lines.{lines};
ghost use Rattle.mixal_asm.specs.Assembly.{assembly};
ghost use Rattle.mix_session.specs.Prelude.{after, effect_in};
ghost use Rattle.mix_run.specs.Prelude.{after_lines, Files};
ghost use Rattle.mix_run.specs.Reload.{reloaded, reloaded_as};

use crate::bundle::{MAX_BUNDLE_BYTES, copy_of, parts_of};
use crate::commands::answered;
use crate::opener::Opener;
use crate::talk::aside::{After, tell};
use crate::talk::file::tell_file;
use crate::talk::moment::Moment;
use crate::talk::source::tell_unread;
use mix_check::add_report;
use mix_lines::split_line;
use mix_machine::Units;
use mix_refused::{Memory, Refused};
use mix_session::{Session, Told};
use mixal_asm::assemble;

// A line of a script is done again; one that is not accepted is told, with its reply.
fn redo_line(session: &mut Session, line: &[u8], note: &mut Vec<u8>) -> Result<(), Memory>
    ensures { OnOk result (session.new ≡ record session.old { timeline = after (effect_in session.old line.now) }) }
{
    let (answer, reply) = answered(session, line)?;
    match answer.told() {
        Told::Accepted => {}
        Told::Refused => {
            note.extend_from_slice(line)?;
            note.extend_from_slice(b"\n")?;
            note.extend_from_slice(&reply)?;
        }
    }
    Ok(())
}

// The lines of a script are done again, one after the other.
fn redo(session: &mut Session, script: &[u8], note: &mut Vec<u8>) -> Result<(), Memory>
    ensures { OnOk result (session.new ≡ after_lines session.old (lines script.now)) }
{
    let mut rest = script;
    while !rest.is_empty() {
        let (line, after) = split_line(rest);
        redo_line(session, line, note)?;
        rest = after;
    }
    Ok(())
}

// A source that was read is assembled, and its program takes the place of the one before it. A
// person is told what comes next, and what is displayed, as after each stop; or why the source is
// refused.
fn reload_source(moment: &mut Moment, source: &[u8], note: &mut Vec<u8>) -> Result<(), Memory>
    ensures reloaded { OnOk result (moment.new ≡ reloaded_as source.now (assembly source.now) moment.old) }
    ensures kept { OnErr result (moment.new ≡ moment.old) }
{
    let Moment {
        session,
        recall,
        origin,
    } = moment;
    let alloc = recall.allocator();
    let program = match assemble(alloc, source) {
        Ok(program) => program,
        Err(Refused::Memory) => return Err(Memory),
        Err(Refused::Fault(_)) => {
            add_report(alloc, origin.name(), source, note)?;
            return Ok(());
        }
    };
    let units = match Units::read(alloc, origin.deck()) {
        Ok(units) => units,
        Err(Refused::Memory) => return Err(Memory),
        Err(Refused::Fault(_)) => return Ok(()),
    };
    let text = copy_of(alloc, source)?;
    let mut anew = Session::open(alloc, program, units)?;
    redo(&mut anew, recall.done(), note)?;
    add_report(alloc, origin.name(), source, note)?;
    tell_file(b"reloaded: ", origin.name().as_bytes(), "", note)?;
    tell(After::Stop, Told::Accepted, &anew, b"", note)?;
    recall.tell_displays(After::Stop, &anew, note)?;
    *session = anew;
    origin.put_source(text);
    Ok(())
}

/// Reads the source again, and does in the machine that it loads what was done so far; of a bundle the deck is not read again. If it can't be read or
/// is refused, a person is told why, and all is as it was; so it is where memory is refused.
pub(crate) fn reload<O: Opener>(
    moment: &mut Moment,
    files: &mut O,
    note: &mut Vec<u8>,
) -> Result<(), Memory>
    ensures reloaded { (all : Files) → O.holds files.old ≡ Some all → OnOk result (moment.new ≡ reloaded (all moment.old.origin.name) moment.old) }
    ensures kept { OnErr result (moment.new ≡ moment.old) }
    ensures held { O.holds files.new ≡ O.holds files.old }
    ensures unasked { O.asked files.new ≡ O.asked files.old }
    ensures unsaved { O.saved files.new ≡ O.saved files.old }
{
    let (alloc, name) = (moment.recall.allocator(), moment.origin.name());
    match files.read(alloc, name.as_bytes(), MAX_BUNDLE_BYTES + 1) {
        Ok(text) => reload_source(moment, parts_of(&text).source, note),
        Err(Refused::Memory) => Err(Memory),
        Err(Refused::Fault(unread)) => { tell_unread(unread, name.as_bytes(), note) }
    }
}

//! The answer to one line of a talk: a value, of which nothing is written yet.

ghost use Rattle.std.specs.Prelude.{◌≡◌, ◌∷◌, [], IfOk, OnOk};
ghost use Rattle.mix_run.specs.Prelude.{after_lines, is_quit, replies, with_points};
ghost use Rattle.mix_person.specs.declared.person.Line.TheVariants as kinds;
ghost use Rattle.mix_run.specs.Recall.{meant, meant_by, recalled, recalled_by, recalled_line};

use crate::commands::{answered, said};
use crate::talk::aside::{Talker, after_reply, help, tell};
use crate::talk::asked::{Point, point_in};
use crate::talk::listing::list;
use crate::talk::moment::Moment;
use crate::talk::recall::Recall;
use crate::talk::stopped::{tell_more, tell_run, tell_too_many};
use mix_person::{Line, kind_of, only_said};
use mix_refused::Memory;
use mix_session::{Session, Told};

/// The answer to a line: the reply, what a person is told beside it, whether the command was accepted,
/// and whether the line ends the talk.
#[derive(Drop)]
pub(crate) struct Reply {
    pub(crate) text: Vec<u8>,
    pub(crate) note: Vec<u8>,
    pub(crate) told: Told,
    pub(crate) is_over: bool,
}

const IN_FILE: &[u8] = b" can't be used in a file that is sourced; type it yourself\n";

// A line of a script is executed with the points: a run stops at them too.
fn execute_with_points(
    session: &mut Session,
    recall: &mut Recall,
    typed: &[u8],
    note: &mut Vec<u8>,
) -> Result<(Vec<u8>, Told), Memory>
    ensures said { let all = replies session.old (with_points session.old recall.old.points typed.now ∷ []) in
        IfOk result (λ said. (said.0.items ≡ all.bytes) × (said.1 ≡ all.told)) }
    ensures session { OnOk result (session.new ≡ after_lines session.old (with_points session.old recall.old.points typed.now ∷ [])) }
    ensures recall { OnOk result (recall.new ≡ recalled_line session.old (with_points session.old recall.old.points typed.now) recall.old) }
{
    let line = recall.with_points(session, typed)?;
    let after = after_reply(session, &line);
    let before = session.world().clock();
    let (answer, text) = answered(session, &line)?;
    tell_run(recall.allocator(), session, typed, before, &answer, note)?;
    tell_more(recall, session, &answer, note)?;
    let told = answer.told();
    tell(after, told, session, &line, note)?;
    tell_too_many(after, session, typed, note)?;
    recall.tell_displays(after, session, note)?;
    recall.keep(after, &line)?;
    Ok((text, told))
}

// The command that a person's line stands for is executed, or what there is to say instead is said.
fn answer_command(
    session: &mut Session,
    recall: &mut Recall,
    typed: &[u8],
    note: &mut Vec<u8>,
) -> Result<(Vec<u8>, Told), Memory>
    ensures said { let all = replies session.old (meant_by session.old recall.old.points kinds.Command typed.now) in
        IfOk result (λ said. (said.0.items ≡ all.bytes) × (said.1 ≡ all.told)) }
    ensures session { OnOk result (session.new ≡ after_lines session.old (meant_by session.old recall.old.points kinds.Command typed.now)) }
    ensures recall { OnOk result (recall.new ≡ recalled_by session.old kinds.Command typed.now recall.old) }
{
    let alloc = recall.allocator();
    if let Some(text) = only_said(alloc, session, typed)? {
        note.extend_from_slice(&text)?;
        recall.repeat(typed)?;
        return Ok((Vec::new(alloc), Told::Accepted));
    }
    let said = match point_in(session, typed) {
        Point::Other => execute_with_points(session, recall, typed, note)?,
        asked => {
            recall.change_points(session, typed, asked, note)?;
            (Vec::new(alloc), Told::Accepted)
        }
    };
    recall.repeat(typed)?;
    Ok(said)
}

// A file that is sourced sources no other, nor does it save or reload: a person is told so.
fn refuse_in_file(word: &[u8], note: &mut Vec<u8>) -> Result<(), Memory> {
    note.extend_from_slice(word)?;
    note.extend_from_slice(IN_FILE)?;
    Ok(())
}

/// The answer to one line: the command that it stands for is executed; a person is given help. A line
/// that saves, sources a file or reloads is one of a file that is sourced: it is refused.
pub(crate) fn reply_to(moment: &mut Moment, talker: Talker, line: &[u8]) -> Result<Reply, Memory>
    ensures over { IfOk result (λ reply. reply.is_over ≡ is_quit talker line.now) }
    ensures said { let all = replies moment.old.session (meant moment.old.session talker moment.old.recall line.now) in
        IfOk result (λ reply. (reply.text.items ≡ all.bytes) × (reply.told ≡ all.told)) }
    ensures session { OnOk result (moment.new.session ≡ after_lines moment.old.session (meant moment.old.session talker moment.old.recall line.now)) }
    ensures recall { OnOk result (moment.new.recall ≡ recalled moment.old.session talker moment.old.recall line.now) }
    ensures origin { moment.new.origin ≡ moment.old.origin }
{
    let alloc = moment.recall.allocator();
    let mut note = Vec::new(alloc);
    match talker {
        Talker::Program => {
            let (text, told) = said(alloc, &mut moment.session, line, false)?;
            return Ok(Reply {
                text,
                note,
                told,
                is_over: false,
            });
        }
        Talker::Person => {}
    }
    let (session, recall) = (&mut moment.session, &mut moment.recall);
    let typed = recall.line(session, line)?;
    match kind_of(line) {
        Line::Quit => return Ok(Reply {
            text: Vec::new(alloc),
            note,
            told: Told::Accepted,
            is_over: true,
        }),
        Line::Command => {
            let (text, told) = answer_command(session, recall, &typed, &mut note)?;
            return Ok(Reply {
                text,
                note,
                told,
                is_over: false,
            });
        }
        Line::Help => help(&typed, &mut note)?,
        Line::Listing => list(recall, session, moment.origin.source(), &typed, &mut note)?,
        Line::Watch => recall.watch(session, &typed, &mut note)?,
        Line::Delete => recall.delete(),
        Line::Display => recall.display(session, &typed, &mut note)?,
        Line::Undisplay => recall.undisplay(),
        Line::Save | Line::SaveOver => refuse_in_file(b"save", &mut note)?,
        Line::Source => refuse_in_file(b"source", &mut note)?,
        Line::Reload => refuse_in_file(b"reload", &mut note)?,
    }
    recall.repeat_nothing();
    Ok(Reply {
        text: Vec::new(alloc),
        note,
        told: Told::Accepted,
        is_over: false,
    })
}

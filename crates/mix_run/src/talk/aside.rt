//! What is written beside the replies, on the error output, where a person talks: the warnings of the source, a greeting, prompts, help, what the last
//! step altered, the next instruction and what is displayed after a stop, and the form of a command that is refused.

ghost use Rattle.std.specs.Prelude.{◌≡◌};
ghost use Rattle.mix_run.specs.Recall.{after_read, after_request};
ghost use Rattle.mix_session.specs.Session.{request_in};

use crate::beside::tell_report;
use crate::talk::moment::Moment;
use mix_lines::{Words, split_line};
use mix_machine::Place;
use mix_person::{form_of, help_on, shown_part};
use mix_refused::Memory;
use mix_session::{Answer, Request, Session, Told, Topic};
use mix_stream::{Out, write_all};
use std::alloc::Global;

/// Who talks: another program or a file, whose lines are all commands; or a person at a terminal, whose lines stand for commands that may be
/// shortened, who is prompted, may ask for help by a line that begins with the word `help`, and ends the talk by the line `quit`.
#[derive(Clone, Copy)]
pub enum Talker {
    Program,
    Person,
}

const GREETING: &[u8] =
    b"Type a command, such as step, back 1 or show regs; help lists them all, quit ends.\n";

const PROMPT: &[u8] = b"(mixrev) ";

/// A text is written beside the replies. Where that fails, nothing more is: the talk goes on.
pub(crate) fn say<E: Out>(text: &[u8], errors: &mut E) {
    if errors.failures() == 0 {
        match write_all(errors, text) {
            Ok(()) | Err(_) => {}
        }
    }
}

/// Greets a person, once, after the warnings of the source.
pub(crate) fn greet<E: Out>(moment: &Moment, talker: Talker, errors: &mut E) {
    match talker {
        Talker::Program => {}
        Talker::Person => {
            let (alloc, origin) = (moment.recall.allocator(), &moment.origin);
            tell_report(alloc, origin.name(), origin.source(), errors);
            say(GREETING, errors);
        }
    }
}

/// Prompts a person for a line; or ends the line of the prompt, if the input is over.
pub(crate) fn prompt<E: Out>(talker: Talker, is_over: bool, errors: &mut E) {
    match talker {
        Talker::Program => {}
        Talker::Person => say(if is_over { b"\n".as_slice() } else { PROMPT }, errors),
    }
}

/// Help on what the word after `help` names, or on all.
pub(crate) fn help(line: &[u8], note: &mut Vec<u8>) -> Result<(), Memory> {
    let mut words = Words::of(line);
    match words.next() {
        Some(_) | None => note.extend_from_slice(help_on(words.next()).as_bytes())?,
    }
    Ok(())
}

/// What follows the reply to a command: a stop, of which the reply itself shows the step, or none was done; one after steps or changes that were done,
/// of which the last is shown; nothing, after a change without a stop or after none; or the form, if its words are refused.
#[derive(Clone, Copy)]
pub(crate) enum After {
    Nothing,
    Changed,
    Stop,
    Done,
    Refused,
}

/// What follows the reply to a line.
pub(crate) fn after_reply(session: &Session, line: &[u8]) -> After
    ensures { result ≡ after_read (request_in session.now line.now) }
{
    match session.read(line) {
        Ok(request) => after_request(request),
        Err(_) => After::Refused,
    }
}

fn after_request(request: Request) -> After
    ensures { result ≡ after_request request }
{
    match request {
        Request::Step(_) | Request::Run(_) | Request::Forth(_) | Request::ForthAll => After::Done,
        Request::Back(_)
        | Request::BackAll
        | Request::BackBreak
        | Request::BackUntil(_)
        | Request::Trace(_)
        | Request::RunUntil(..)
        | Request::ForthUntil(_)
        | Request::Goto(_) => After::Stop,
        Request::Change(_) => After::Changed,
        Request::Nothing | Request::Show(_) => After::Nothing,
    }
}

/// A person is told what follows the reply: what the last step altered, if the reply says that it was done; after each stop the next instruction;
/// and the form of a command that is refused.
pub(crate) fn tell(
    after: After,
    told: Told,
    session: &Session,
    line: &[u8],
    note: &mut Vec<u8>,
) -> Result<(), Memory> {
    match (after, told) {
        (After::Nothing | After::Changed, _) => {}
        (After::Done, Told::Accepted) => {
            tell_topic(session, Topic::Last(1), note)?;
            tell_place(session, note)?;
        }
        (After::Stop | After::Done, _) => tell_place(session, note)?,
        (After::Refused, _) => {
            note.extend_from_slice(form_of(Words::of(line).next()).as_bytes())?
        }
    }
    Ok(())
}

// The next instruction, with its line of the source.
fn tell_place(session: &Session, note: &mut Vec<u8>) -> Result<(), Memory> {
    match Place::of(session.world().loc()) {
        Some(place) => tell_topic(session, Topic::Code(place, place), note),
        None => Ok(()),
    }
}

// What `show` shows of a topic.
fn tell_topic(session: &Session, topic: Topic, note: &mut Vec<u8>) -> Result<(), Memory> {
    let text = session.text(&Answer::Shows(topic))?;
    note.extend_from_slice(&text)?;
    Ok(())
}

/// What some lines show now: each a part of the machine, or what a script's `show` does.
pub(crate) fn tell_shown(
    alloc: Global,
    session: &Session,
    lines: &[u8],
    note: &mut Vec<u8>,
) -> Result<(), Memory> {
    let mut rest = lines;
    while !rest.is_empty() {
        let (line, after) = split_line(rest);
        match (shown_part(alloc, session, line)?, session.read(line)) {
            (Some(text), _) => note.extend_from_slice(&text)?,
            (None, Ok(Request::Show(topic))) => tell_topic(session, topic, note)?,
            (None, Ok(_) | Err(_)) => {}
        }
        rest = after;
    }
    Ok(())
}

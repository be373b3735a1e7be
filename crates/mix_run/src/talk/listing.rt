//! The lines of the source around a line, which `list` shows to a person.

ghost use Rattle.std.specs.Prelude.{◌≡◌, OnOk};

use crate::talk::recall::Recall;
use mix_lines::{Words, number, split_line};
use mix_machine::Place;
use mix_person::form_of;
use mix_refused::Memory;
use mix_session::Session;
use mixal_asm::Source;
use mixal_text::Symbol;
use std::alloc::Global;

/// The line around which `list` has listed last, and the location then.
#[derive(Clone, Copy)]
pub(crate) struct Listed {
    around: u64,
    loc: u16,
}

// How many lines are shown before the line, and how many from it on.
const BEFORE: u64 = 5;

const FROM: u64 = 5;

// The line of the source that the next instruction comes from.
fn next_line(session: &Session) -> Option<u64> {
    let place = Place::of(session.world().loc())?;
    match session.program().source_at(place)? {
        Source::Line(number, _) => Some(u64::from(*number)),
        Source::Literal(_) | Source::Name(_) => None,
    }
}

// The line that a word names: by its number, or by a symbol that is its LOC.
fn line_named(session: &Session, word: &[u8]) -> Option<u64> {
    match number(word) {
        Some(line) => Some(line),
        None => {
            let symbol = Symbol::of(word)?;
            let line = session.program().line_of(&symbol)?;
            Some(u64::from(line))
        }
    }
}

// The line around which a person's line asks for lines.
fn line_asked(session: &Session, unsaid: u64, line: &[u8]) -> Option<u64> {
    let mut words = Words::of(line);
    match words.next() {
        Some(_) | None => {}
    }
    match words.next() {
        None => Some(unsaid),
        Some(word) => {
            if words.is_end() {
                line_named(session, word)
            } else {
                None
            }
        }
    }
}

fn tell_line(
    alloc: Global,
    number: u64,
    is_next: bool,
    line: &[u8],
    note: &mut Vec<u8>,
) -> Result<(), Memory> {
    let mark = if is_next { '>' } else { ' ' };
    let place = format!(in alloc; "{number:5}{mark} ")?;
    note.extend_from_slice(place.as_bytes())?;
    note.extend_from_slice(line)?;
    note.extend_from_slice(b"\n")?;
    Ok(())
}

// The lines around one, each with its number; a mark is at that of the next instruction. Whether there is one; else how many the source has is said.
fn tell_around(
    alloc: Global,
    source: &[u8],
    around: u64,
    next: Option<u64>,
    note: &mut Vec<u8>,
) -> Result<bool, Memory> {
    let mut rest = source;
    let mut number = 1u64;
    let mut is_found = false;
    while !rest.is_empty() && number < around.saturating_add(FROM) {
        let (line, after) = split_line(rest);
        if number.saturating_add(BEFORE) >= around {
            tell_line(alloc, number, next == Some(number), line, note)?;
            is_found = true;
        }
        number = number.saturating_add(1);
        rest = after;
    }
    if !is_found {
        let end = format!(in alloc; "the source has {} lines\n", number.saturating_sub(1))?;
        note.extend_from_slice(end.as_bytes())?;
    }
    Ok(is_found)
}

// Around which line a `list` alone lists: that of the next instruction, or what comes after the lines before, if no step came between.
fn line_unsaid(recall: &Recall, loc: u16, next: Option<u64>) -> u64 {
    match recall.listed() {
        Some(listed) if listed.loc == loc => listed.around.saturating_add(BEFORE + FROM),
        Some(_) | None => next.unwrap_or(1),
    }
}

/// Tells the lines of the source around the one that a person's line names; if it names none, around that of the next instruction, and the next time
/// those that come then.
pub(crate) fn list(
    recall: &mut Recall,
    session: &Session,
    source: &[u8],
    line: &[u8],
    note: &mut Vec<u8>,
) -> Result<(), Memory>
    ensures { OnOk result (recall.new ≡ recall.old) }
{
    let alloc = recall.allocator();
    let next = next_line(session);
    let loc = session.world().loc();
    let Some(around) = line_asked(session, line_unsaid(recall, loc, next), line) else {
        note.extend_from_slice(form_of(Some(b"list")).as_bytes())?;
        return Ok(());
    };
    let is_found = tell_around(alloc, source, around, next, note)?;
    recall.list_ends(if is_found {
        Some(Listed { around, loc })
    } else {
        None
    });
    Ok(())
}

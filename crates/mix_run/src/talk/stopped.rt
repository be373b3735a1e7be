//! What a person is told beside the replies: what has stopped a run and how much time it took,
//! where breakpoints are, and the numbers of symbols.

use crate::talk::aside::After;
use crate::talk::points::cell_named;
use crate::talk::recall::{MOST, Recall};
use mix_lines::{Words, split_line};
use mix_machine::Place;
use mix_refused::Memory;
use mix_session::{Answer, End, Session, Topic};
use mix_word::Location;
use mixal_asm::Source;
use std::alloc::Global;

// A location, with the symbol and the number of its line of the source.
fn say_location(
    alloc: Global,
    session: &Session,
    location: u16,
    note: &mut Vec<u8>,
) -> Result<(), Memory> {
    let program = session.program();
    let number = format!(in alloc; "{}", Location(location))?;
    note.extend_from_slice(number.as_bytes())?;
    let source = match Place::of(location) {
        Some(place) => program.source_at(place),
        None => None,
    };
    match source {
        Some(Source::Line(line, _)) => {
            for (symbol, _) in program.symbols() {
                if program.line_of(symbol) == Some(*line) {
                    note.extend_from_slice(b" ")?;
                    note.extend_from_slice(symbol.name())?;
                }
            }
            let line = format!(in alloc; ", line {line}")?;
            note.extend_from_slice(line.as_bytes())?;
        }
        Some(Source::Literal(_) | Source::Name(_)) | None => {}
    }
    Ok(())
}

/// Of a run that began at this time a person is told what has stopped it, if it was a breakpoint
/// or a condition, and, if the time was not 0, how much it took.
pub(crate) fn tell_run(
    alloc: Global,
    session: &Session,
    typed: &[u8],
    before: u64,
    answer: &Answer,
    note: &mut Vec<u8>,
) -> Result<(), Memory> {
    let Answer::Ran(_, end) = answer else {
        return Ok(());
    };
    let mut words = Words::of(typed);
    match words.next() {
        Some(word) if word.eq_ignore_ascii_case(b"run") => {}
        Some(_) | None => return Ok(()),
    }
    let is_stopped = matches!(end, End::Break | End::Until(_));
    if is_stopped {
        note.extend_from_slice(b"stopped by")?;
    }
    match end {
        End::Break => note.extend_from_slice(b" a breakpoint")?,
        End::Until(number) => {
            // the condition comes after so many of the words `until` and `or`; behind those that were
            // typed are the points
            let wanted = number.saturating_add(1);
            let mut seen = 0usize;
            while let Some(word) = words.next() {
                if word.eq_ignore_ascii_case(b"until") || word.eq_ignore_ascii_case(b"or") {
                    seen = seen.saturating_add(1);
                } else if seen == wanted {
                    note.extend_from_slice(b" ")?;
                    note.extend_from_slice(word)?;
                }
            }
            if seen < wanted {
                note.extend_from_slice(b" a breakpoint")?;
            }
        }
        End::Halt | End::Fault(_) | End::Arrived | End::Limit | End::Start => {}
    }
    if is_stopped {
        note.extend_from_slice(b" at ")?;
        say_location(alloc, session, session.world().loc(), note)?;
    }
    let time = session.world().clock().saturating_sub(before);
    if before > 0 && time > 0 {
        let text = format!(in alloc; "took {time}u\n")?;
        if is_stopped {
            note.extend_from_slice(b"; ")?;
        }
        note.extend_from_slice(text.as_bytes())?;
    } else if is_stopped {
        note.extend_from_slice(b"\n")?;
    }
    Ok(())
}

// A point, with the text of its line of the source; or what was said, if the program has no such
// location.
fn tell_point(
    alloc: Global,
    session: &Session,
    point: &[u8],
    note: &mut Vec<u8>,
) -> Result<(), Memory> {
    match cell_named(session, point) {
        Some(place) => {
            say_location(alloc, session, place.number(), note)?;
            match session.program().source_at(place) {
                Some(Source::Line(_, text)) => {
                    note.extend_from_slice(b": ")?;
                    note.extend_from_slice(text)?;
                }
                Some(Source::Literal(_) | Source::Name(_)) | None => {}
            }
        }
        None => {
            note.extend_from_slice(point)?;
            note.extend_from_slice(b" is not there")?;
        }
    }
    note.extend_from_slice(b"\n")?;
    Ok(())
}

/// After `show breaks` a person is told each point with its line of the source, and after
/// `show symbols` each symbol with its number in decimal.
pub(crate) fn tell_more(
    recall: &Recall,
    session: &Session,
    answer: &Answer,
    note: &mut Vec<u8>,
) -> Result<(), Memory> {
    let alloc = recall.allocator();
    let program = session.program();
    match answer {
        Answer::Shows(Topic::Breaks) => {
            let mut rest = recall.points();
            while !rest.is_empty() {
                let (line, after) = split_line(rest);
                tell_point(alloc, session, line, note)?;
                rest = after;
            }
        }
        Answer::Shows(Topic::Symbols) => {
            for (symbol, word) in program.symbols() {
                let number = word.number();
                let number = format!(in alloc; "{number:11}  ")?;
                note.extend_from_slice(number.as_bytes())?;
                note.extend_from_slice(symbol.name())?;
                note.extend_from_slice(b"\n")?;
            }
        }
        _ => {}
    }
    Ok(())
}

/// A person is told why a run is refused whose own words are not: with the points it has more than
/// eight conditions.
pub(crate) fn tell_too_many(
    after: After,
    session: &Session,
    typed: &[u8],
    note: &mut Vec<u8>,
) -> Result<(), Memory> {
    if matches!(after, After::Refused) && session.read(typed).is_ok() {
        note.extend_from_slice(MOST)?;
    }
    Ok(())
}

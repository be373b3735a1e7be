//! The points of a talk: cells where the runs of a person stop, beside the machine and its changes.

ghost use Rattle.std.specs.Prelude.{◌≡◌, ◌++◌, IfOk, OnOk};
ghost use Rattle.mix_lines.specs.Lines.{lines};
ghost use Rattle.mix_run.specs.Points.{back_to, can_wait, cell_named, cell_of, is_that, piece, pieces, stopped_by, until_first, with_points};

use mix_lines::split_line;
use mix_machine::Place;
use mix_refused::Memory;
use mix_session::{Condition, Refusal, Request, Session};
use std::alloc::Global;

fn cell_of(condition: Condition) -> Option<Place>
    ensures { result ≡ cell_of condition }
{
    match condition {
        Condition::At(place) => Some(place),
        Condition::Alters(_) | Condition::Conflicts => None,
    }
}

/// The cell that the line of a point names.
pub(crate) fn cell_named(session: &Session, line: &[u8]) -> Option<Place>
    ensures { result ≡ cell_named session.now line.now }
{
    match session.condition(line) {
        Ok(condition) => cell_of(condition),
        Err(_) => None,
    }
}

fn is_that(place: Place, named: Option<Place>) -> bool
    ensures { result ≡ is_that place named }
{
    match named {
        Some(other) => other == place,
        None => false,
    }
}

fn put_piece(
    text: &mut Vec<u8>,
    session: &Session,
    taken: &Option<Place>,
    line: &[u8],
) -> Result<(), Memory>
    ensures { OnOk result (text.new.items ≡ text.old.items ++ piece session.now taken.now line.now) }
{
    let named = cell_named(session, line);
    match taken {
        None => {
            if named.is_some() {
                text.extend_from_slice(b" or ")?;
                text.extend_from_slice(line)?;
            }
        }
        Some(place) => {
            if !is_that(*place, named) {
                text.extend_from_slice(line)?;
                text.extend_from_slice(b"\n")?;
            }
        }
    }
    Ok(())
}

/// The points as what is waited for besides, or those that are left without the ones of a cell.
pub(crate) fn pieces(
    alloc: Global,
    session: &Session,
    taken: &Option<Place>,
    points: &[u8],
) -> Result<Vec<u8>, Memory>
    ensures { IfOk result (λ text. text.items ≡ pieces session.now taken.now (lines points.now)) }
{
    let mut text = Vec::new(alloc);
    let mut rest = points;
    while !rest.is_empty() {
        let (line, after) = split_line(rest);
        put_piece(&mut text, session, taken, line)?;
        rest = after;
    }
    Ok(text)
}

fn put_until_first(text: &mut Vec<u8>, others: &[u8]) -> Result<(), Memory>
    ensures { OnOk result (text.new.items ≡ text.old.items ++ until_first others.now) }
{
    match others.split_first() {
        None => {}
        Some(_) => {
            text.extend_from_slice(b" until")?;
            text.extend_from_slice(&others[3.min(others.len())..])?;
        }
    }
    Ok(())
}

fn put_back_to(text: &mut Vec<u8>, others: &[u8], typed: &[u8]) -> Result<(), Memory>
    ensures { OnOk result (text.new.items ≡ text.old.items ++ back_to others.now typed.now) }
{
    match others.split_first() {
        None => text.extend_from_slice(typed)?,
        Some(_) => {
            text.extend_from_slice(b"back")?;
            put_until_first(text, others)?;
        }
    }
    Ok(())
}

fn put_stopped_by(
    text: &mut Vec<u8>,
    asked: Result<Request, Refusal>,
    others: &[u8],
    typed: &[u8],
) -> Result<(), Memory>
    ensures { OnOk result (text.new.items ≡ text.old.items ++ stopped_by asked others.now typed.now) }
{
    match asked {
        Ok(Request::Run(_)) => {
            text.extend_from_slice(typed)?;
            put_until_first(text, others)
        }
        Ok(Request::RunUntil(..)) => {
            text.extend_from_slice(typed)?;
            text.extend_from_slice(others)?;
            Ok(())
        }
        Ok(Request::BackBreak) => put_back_to(text, others, typed),
        Ok(_) | Err(_) => {
            text.extend_from_slice(typed)?;
            Ok(())
        }
    }
}

/// What the points make of a line of a script.
#[tactic(auto, unfolding(crate::specs::Points::with_points))]
pub(crate) fn with_points(
    alloc: Global,
    session: &Session,
    points: &[u8],
    typed: &[u8],
) -> Result<Vec<u8>, Memory>
    ensures { IfOk result (λ line. line.items ≡ with_points session.now points.now typed.now) }
{
    let others = pieces(alloc, session, &None, points)?;
    let mut text = Vec::new(alloc);
    put_stopped_by(&mut text, session.read(typed), &others, typed)?;
    Ok(text)
}

/// Whether a run can wait for what is watched and for these points.
#[tactic(auto, unfolding(crate::specs::Points::can_wait))]
pub(crate) fn can_wait(
    alloc: Global,
    session: &Session,
    watch: &[u8],
    points: &[u8],
) -> Result<bool, Memory>
    ensures { IfOk result (λ can. can ≡ can_wait session.now watch.now points.now) }
{
    let mut run = Vec::new(alloc);
    run.extend_from_slice(b"run 1000000")?;
    run.extend_from_slice(watch)?;
    let line = with_points(alloc, session, points, &run)?;
    Ok(session.read(&line).is_ok())
}

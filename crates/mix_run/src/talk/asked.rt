//! What a person's line asks of the points: one is set, or some are taken away.

ghost use Rattle.std.specs.Prelude.{◌≡◌, ◌++◌, ◌∷◌, IfOk, OnOk};
ghost use Rattle.std.specs.Fmt.{decimal};
ghost use Rattle.std.specs.Option.{option_map};
ghost use Rattle.mix_lines.specs.Lines.{words};
ghost use Rattle.mix_run.specs.Points.{is_clear_all, location_said, point_asked, point_if, point_in, point_of, with_point};

use crate::talk::points::{can_wait, pieces};
use mix_lines::Words;
use mix_machine::{Change, Place};
use mix_refused::Memory;
use mix_session::{Refusal, Request, Session};
use std::alloc::Global;

/// What a person's line asks of the points, if it does.
#[derive(Clone, Copy)]
pub(crate) enum Point {
    Set(Place),
    Clear(Place),
    ClearAll,
    Other,
}

fn is_all_after(command: &[u8], words: &mut Words) -> bool
    ensures { result ≡ is_clear_all (command.now ∷ words.old) }
{
    match words.next() {
        None => false,
        Some(word) => {
            words.is_end()
                && command.eq_ignore_ascii_case(b"clear")
                && word.eq_ignore_ascii_case(b"all")
        }
    }
}

fn is_clear_all(typed: &[u8]) -> bool
    ensures { result ≡ is_clear_all (words typed.now) }
{
    let mut words = Words::of(typed);
    match words.next() {
        None => false,
        Some(command) => is_all_after(command, &mut words),
    }
}

fn point_of(change: Change) -> Point
    ensures { result ≡ point_of change }
{
    match change {
        Change::Break(place) => Point::Set(place),
        Change::Clear(place) => Point::Clear(place),
        _ => Point::Other,
    }
}

fn point_asked(asked: Result<Request, Refusal>, typed: &[u8]) -> Point
    ensures { result ≡ point_asked asked (words typed.now) }
{
    match asked {
        Ok(Request::Change(change)) => point_of(change),
        Ok(_) => Point::Other,
        Err(_) => {
            if is_clear_all(typed) {
                Point::ClearAll
            } else {
                Point::Other
            }
        }
    }
}

/// What a line asks of the points.
#[tactic(auto, unfolding(crate::specs::Points::point_in))]
pub(crate) fn point_in(session: &Session, typed: &[u8]) -> Point
    ensures { result ≡ point_in session.now typed.now }
{
    point_asked(session.read(typed), typed)
}

fn put_number(alloc: Global, text: &mut Vec<u8>, place: Place) -> Result<(), Memory>
    ensures { OnOk result (text.new.items ≡ text.old.items ++ decimal place) }
{
    let number = place.number();
    let number = format!(in alloc; "{number}")?;
    text.extend_from_slice(number.as_bytes())?;
    Ok(())
}

fn put_word(
    alloc: Global,
    text: &mut Vec<u8>,
    command: &[u8],
    words: &mut Words,
    place: Place,
) -> Result<(), Memory>
    ensures { OnOk result (text.new.items ≡ text.old.items ++ location_said (command.now ∷ words.old) place) }
{
    match words.next() {
        Some(word) if words.is_end() && !word.contains(&b'*') => {
            text.extend_from_slice(word)?;
            Ok(())
        }
        _ => put_number(alloc, text, place),
    }
}

fn put_said(alloc: Global, text: &mut Vec<u8>, typed: &[u8], place: Place) -> Result<(), Memory>
    ensures { OnOk result (text.new.items ≡ text.old.items ++ location_said (words typed.now) place) }
{
    let mut words = Words::of(typed);
    match words.next() {
        None => put_number(alloc, text, place),
        Some(command) => put_word(alloc, text, command, &mut words, place),
    }
}

fn with_point(
    alloc: Global,
    session: &Session,
    typed: &[u8],
    place: Place,
    points: &[u8],
) -> Result<Vec<u8>, Memory>
    ensures { IfOk result (λ all. all.items ≡ with_point session.now typed.now place points.now) }
{
    let mut all = pieces(alloc, session, &Some(place), points)?;
    all.extend_from_slice(b"loc ")?;
    put_said(alloc, &mut all, typed, place)?;
    all.extend_from_slice(b"\n")?;
    Ok(all)
}

/// The points with one more, if a run can wait for them all.
pub(crate) fn with_point_if(
    alloc: Global,
    session: &Session,
    typed: &[u8],
    place: Place,
    watch: &[u8],
    points: &[u8],
) -> Result<Option<Vec<u8>>, Memory>
    ensures { IfOk result (λ all. option_map (λ all. all.items) all ≡ point_if session.now typed.now place watch.now points.now) }
{
    let more = with_point(alloc, session, typed, place, points)?;
    if can_wait(alloc, session, watch, &more)? {
        Ok(Some(more))
    } else {
        Ok(None)
    }
}

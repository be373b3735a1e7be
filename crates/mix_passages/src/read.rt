//! What follows `show passages`.
ghost use Rattle.std.specs.Prelude.{◌≡◌, codes, IfOk};
ghost use Rattle.std.specs.Option.{option_map};
ghost use Rattle.mix_lines.specs.Lines.{words};
ghost use Rattle.mix_session.specs.Keyword.{is_name};
ghost use Rattle.mix_passages.specs.Reading.{passages_in, place_in};

use crate::asked::Passages;
use crate::assertion::{after_assert, assertion_in};
use crate::columns::columns_in;
use crate::item::{cell_in, line_cell};
use mix_lines::{Words, next_word};
use mix_machine::Place;
use mix_session::Session;
use std::alloc::Global;
use undo_core::Memory;

fn is_of(word: &[u8]) -> bool
    ensures { result ≡ is_name word.now (codes "of") }
{
    word.eq_ignore_ascii_case(b"of")
}

// The location, and the text after `of`.
fn place_in<'a>(session: &Session, text: &'a [u8]) -> Option<(Place, &'a [u8])>
    ensures { option_map (λ at. (at.0, words at.1.now)) result ≡ place_in session.now (words text.now) }
{
    let Some((word, more)) = next_word(text) else {
        return None;
    };
    let Some((second, items)) = next_word(more) else {
        return None;
    };
    let (place, items) = if is_of(second) {
        (cell_in(session, word), items)
    } else if word.eq_ignore_ascii_case(b"line") {
        match next_word(items) {
            Some((third, items)) if is_of(third) => (line_cell(session, second), items),
            _ => return None,
        }
    } else {
        return None;
    };
    match place {
        None => None,
        Some(place) => Some((place, items)),
    }
}

/// What follows `show passages`, read: `E of ITEM ..` or `line N of ITEM ..`, and after it `assert VALUE REL VALUE` or nothing. None if it cannot be
/// read. Only out of memory refuses it.
#[tactic(auto, unfolding(crate::specs::Reading::passages_in))]
pub fn read_passages(
    alloc: Global,
    session: &Session,
    text: &[u8],
) -> Result<Option<Passages>, Memory>
    ensures { IfOk result (λ asked. asked ≡ passages_in session.now (words text.now)) }
{
    let Some((place, items)) = place_in(session, text) else {
        return Ok(None);
    };
    let Some(columns) = columns_in(alloc, session, items)? else {
        return Ok(None);
    };
    let mut words = Words::of(items);
    let mut assertion = None;
    if after_assert(&mut words) {
        assertion = assertion_in(alloc, session, &mut words)?;
        if assertion.is_none() {
            return Ok(None);
        }
    }
    Ok(Some(Passages {
        place,
        columns,
        assertion,
    }))
}

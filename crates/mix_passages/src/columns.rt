//! The columns that words name.
ghost use Rattle.std.specs.Prelude.{◌≡◌, ◌≤◌, ◌<◌, ◌+◌, ◌++◌, ◌&&◌, ◌==◌, ◌∷◌, [], Some, None, IfOk, IfSome, MatchOption, OnOk, length, nat_le, nat_lt, position, if◌then◌else◌};
ghost use Rattle.std.specs.Option.{option_map};
ghost use Rattle.mix_lines.specs.Lines.{words};
ghost use Rattle.mix_passages.specs.Reading.{before_assert, cell_column, cell_columns, columns_after, columns_between, columns_from, columns_in, columns_of, fitting, item_in, joined, most_columns};

use crate::asked::{Column, Item};
use crate::item::{cell_in, is_assert, item_in};
use mix_lines::Words;
use mix_machine::Place;
use mix_session::Session;
use mix_word::Location;
use std::alloc::Global;
use undo_core::Memory;

// How many columns a table has at most.
const MOST: usize = 32;

// The next word, unless it is `assert`.
fn next_item<'a>(words: &mut Words<'a>) -> Option<&'a [u8]>
    ensures item { MatchOption result (before_assert words.old ≡ []) (λ word. before_assert words.old ≡ word.now ∷ before_assert words.new) }
    ensures less { IfSome result (λ _. length words.new < length words.old) }
{
    match words.next() {
        None => None,
        Some(word) => { if is_assert(word) { None } else { Some(word) } }
    }
}

fn place_at(number: u16) -> Place
    requires { number < 4000 }
    ensures { result ≡ number }
{
    Place::of(number).unwrap()
}

// Adds the columns of so many cells.
fn add_cells(columns: &mut Vec<Column>, first: u16, count: u16) -> Result<(), Memory>
    requires { first + count ≤ 4000 }
    ensures { OnOk result (columns.new.items ≡ columns.old.items ++ cell_columns first count) }
{
    let alloc = *columns.allocator();
    let mut added = 0;
    while added < count {
        let place = place_at(first + added);
        let location = Location(place.number());
        let name = format!(in alloc; "{location}")?.into_bytes();
        columns.push(Column {
            name,
            item: Item::Cell(place),
        })?;
        added += 1;
    }
    Ok(())
}

// Adds the columns of the cells from one to another, if they may be columns.
fn add_between(columns: &mut Vec<Column>, first: Place, last: Place) -> Result<bool, Memory>
    ensures { IfOk result (λ read. joined columns.old.items (columns_between first last) ≡ (if read then Some columns.new.items else None)) }
{
    let (first, last) = (first.number(), last.number());
    if first > last || usize::from(last - first) >= MOST {
        return Ok(false);
    }
    add_cells(columns, first, last - first + 1)?;
    Ok(true)
}

// Adds the column of a register or a cell.
fn add_item(session: &Session, word: &[u8], columns: &mut Vec<Column>) -> Result<bool, Memory>
    ensures { IfOk result (λ read. joined columns.old.items (option_map (λ item. record { name = word.now; item = item } ∷ []) (item_in session.now word.now))
        ≡ (if read then Some columns.new.items else None)) }
{
    match item_in(session, word) {
        None => Ok(false),
        Some(item) => {
            let name = Vec::from_slice(*columns.allocator(), word)?;
            columns.push(Column { name, item })?;
            Ok(true)
        }
    }
}

// Adds those of the cells from one to another, where this follows the first expression.
fn add_range(
    session: &Session,
    first: &[u8],
    rest: &[u8],
    columns: &mut Vec<Column>,
) -> Result<bool, Memory>
    ensures { IfOk result (λ read. joined columns.old.items (columns_after session.now first.now rest.now) ≡ (if read then Some columns.new.items else None)) }
{
    let [_, next, last @ ..] = rest else {
        return Ok(false);
    };
    if *next != b'.' {
        return Ok(false);
    }
    match (cell_in(session, first), cell_in(session, last)) {
        (Some(from), Some(to)) => add_between(columns, from, to),
        _ => Ok(false),
    }
}

fn stop_in(word: &[u8]) -> Option<usize>
    ensures { result ≡ position (λ byte. byte == 46) word.now }
{
    word.iter().position(|byte| *byte == b'.')
}

// Adds the columns of a word: of a register or a cell, or of the cells from one to another.
fn add_columns(session: &Session, word: &[u8], columns: &mut Vec<Column>) -> Result<bool, Memory>
    ensures { IfOk result (λ read. joined columns.old.items (columns_of session.now word.now) ≡ (if read then Some columns.new.items else None)) }
{
    match stop_in(word) {
        None => add_item(session, word, columns),
        Some(at) => add_range(session, &word[..at], &word[at..], columns),
    }
}

// The columns, if there is one at least and not too many.
fn fitting(columns: Vec<Column>) -> Option<Vec<Column>>
    ensures { option_map (λ c. c.items) result ≡ fitting columns.items }
{
    if 0 < columns.len() && columns.len() <= MOST {
        Some(columns)
    } else {
        None
    }
}

/// The columns that words name, up to `assert`.
#[tactic(auto, unfolding(crate::specs::Reading::columns_in))]
pub(crate) fn columns_in(
    alloc: Global,
    session: &Session,
    text: &[u8],
) -> Result<Option<Vec<Column>>, Memory>
    ensures { IfOk result (λ columns. option_map (λ c. c.items) columns ≡ columns_in session.now (words text.now)) }
{
    let mut columns = Vec::new(alloc);
    let mut words = Words::of(text);
    while let Some(word) = next_item(&mut words) {
        if !add_columns(session, word, &mut columns)? {
            return Ok(None);
        }
        if columns.len() > MOST {
            return Ok(None);
        }
    }
    Ok(fitting(columns))
}

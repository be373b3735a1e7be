//! The table of the passages of a line, as text.
use crate::asked::{Column, Passages};
use crate::rows::rows_of;
use mix_session::Session;
use mix_word::Number;
use std::alloc::{AllocError, Global};
use undo_core::Memory;

// Appends a text right in so many places.
fn add_right(text: &mut Vec<u8>, places: usize, column: &[u8]) -> Result<(), AllocError> {
    for _place in column.len()..places {
        text.push(b' ')?;
    }
    text.extend_from_slice(column)
}

// Appends a text in a column, in which its name and any number of a word fit.
fn add_in(text: &mut Vec<u8>, column: &Column, bytes: &[u8]) -> Result<(), AllocError> {
    text.extend_from_slice(b"  ")?;
    add_right(text, column.name.len().max(11), bytes)
}

/// The table: a head line, a line for each row, and how many states come before them. Only out of
/// memory refuses it.
pub fn passages_text(
    alloc: Global,
    session: &Session,
    asked: &Passages,
) -> Result<Vec<u8>, Memory> {
    let table = rows_of(alloc, session, asked)?;
    let mut text = Vec::new(alloc);
    add_right(&mut text, 7, b"state")?;
    for column in &asked.columns {
        add_in(&mut text, column, &column.name)?;
    }
    if let Some(assertion) = &asked.assertion {
        text.extend_from_slice(b"  ")?;
        text.extend_from_slice(&assertion.words)?;
    }
    text.push(b'\n')?;
    for row in &table.rows {
        let number = row.number;
        let number = format!(in alloc; "{number}")?;
        add_right(&mut text, 7, number.as_bytes())?;
        for (column, word) in asked.columns.iter().zip(&row.words) {
            let value = Number(*word);
            let value = format!(in alloc; "{value}")?;
            add_in(&mut text, column, value.as_bytes())?;
        }
        if let Some(holds) = row.holds {
            text.extend_from_slice(if holds { b"  true" } else { b"  false" })?;
        }
        text.push(b'\n')?;
    }
    if table.before > 0 {
        let before = table.before;
        let line = format!(in alloc; ".. and {before} before\n")?;
        text.extend_from_slice(line.as_bytes())?;
    }
    Ok(text)
}

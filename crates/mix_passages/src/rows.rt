//! The passages of a line: of the last states in which the machine is at it, the chosen words and
//! the truth of the assertion.
ghost use Rattle.std.specs.Prelude.{◌≡◌, ◌++◌, IfOk, OnOk, map};
ghost use Rattle.mix_passages.specs.Rows.{row_at, row_of, table_of, words_of};

use crate::asked::{Column, Passages};
use crate::assertion::holds;
use crate::item::word_of;
use mix_machine::{Word, World};
use mix_session::Session;
use std::alloc::{AllocError, Global};
use std::marker::Model;
use undo_core::Memory;

// How many rows a table has at most.
const MOST: usize = 200;

/// A state in which the machine is at the location: how many changes led to it, the word of each
/// column, and whether the assertion is true, if there is one.
#[derive(Drop)]
pub struct Row {
    pub number: usize,
    pub words: Vec<Word>,
    pub holds: Option<bool>,
}

impl Model for Row {
    ghost use Rattle.mix_passages.specs.Rows.{RowValue};

    ghost Value = { RowValue };

    ghost view = { λ r. record { number = r.number; words = r.words.items; holds = r.holds } };
}

/// The rows, in rising order, and how many states come before them.
#[derive(Drop)]
pub struct Table {
    pub rows: Vec<Row>,
    pub before: usize,
}

impl Model for Table {
    ghost use Rattle.mix_passages.specs.Rows.{TableValue};

    ghost Value = { TableValue };

    ghost view = { λ t. record { rows = t.rows.items; before = t.before } };
}

fn words_of(alloc: Global, world: &World, columns: &[Column]) -> Result<Vec<Word>, AllocError>
    ensures { IfOk result (λ words. words.items ≡ words_of world.now columns.now) }
{
    let mut words = Vec::new(alloc);
    let mut rest = columns;
    while let [column, after @ ..] = rest {
        words.push(word_of(world, column.item))?;
        rest = after;
    }
    Ok(words)
}

fn row_of(alloc: Global, world: &World, asked: &Passages, number: usize) -> Result<Row, AllocError>
    ensures { IfOk result (λ row. row ≡ row_of world.now asked.now number) }
{
    let words = words_of(alloc, world, &asked.columns)?;
    let holds = match &asked.assertion {
        None => None,
        Some(assertion) => Some(holds(world, assertion)),
    };
    Ok(Row {
        number,
        words,
        holds,
    })
}

// Adds the rows of some states; in rising order no change is done twice.
fn add_rows(
    session: &Session,
    asked: &Passages,
    states: &[usize],
    rows: &mut Vec<Row>,
) -> Result<(), Memory>
    ensures { OnOk result (rows.new.items ≡ rows.old.items ++ map (row_at session.now.timeline asked.now) states.now) }
{
    let alloc = *rows.allocator();
    let mut moments = session.moments(alloc)?;
    let mut rest = states;
    while let [number, after @ ..] = rest {
        moments.come_to(alloc, *number)?;
        rows.push(row_of(alloc, moments.world(), asked, *number)?)?;
        rest = after;
    }
    Ok(())
}

/// A row for each of the last 200 states in which the machine is at the location, in rising order,
/// and how many such states come before. Only out of memory refuses it.
pub fn rows_of(alloc: Global, session: &Session, asked: &Passages) -> Result<Table, Memory>
    ensures { IfOk result (λ table. table ≡ table_of session.now.timeline asked.now) }
{
    let mut states = session.passages(alloc, asked.place)?;
    let before = states.len().saturating_sub(MOST);
    states.truncate(MOST);
    states.reverse();
    let mut rows = Vec::new(alloc);
    add_rows(session, asked, &states, &mut rows)?;
    Ok(Table { rows, before })
}

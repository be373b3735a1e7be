//! What `show analysis` says: the counts of the book, which stand in brackets in the lines of the source, beside those that are measured.

ghost use Rattle.std.specs.Prelude.{◌≡◌, ◌<◌, ◌≤◌, ◌++◌, if◌then◌else◌, None, IfOk, OnOk, Some, is_some, map};
ghost use Rattle.mix_formula.specs.Prelude.{all_named, all_rows, bracket_of};
ghost use Rattle.mixal_asm.specs.Prelude.{source_value, source_at};
ghost use Rattle.mix_session.specs.Tally.{tally_in};
ghost use Rattle.mix_views.specs.Analysis.{given_in, given_onto, row_at, row_if, row_of, rows_below, rows_in};

use mix_formula::{Analysis, Named, Row, analysis_of, bracket_of, given_of};
use mix_lines::Words;
use mix_machine::Place;
use mix_refused::Memory;
use mix_session::{Session, Tally, tally_in};
use mix_word::CELLS;
use mixal_asm::{Program, Source};
use std::alloc::Global;

/// The analysis of the changes done, by the values of names that are given in some words (1.3.2); none where a word gives none. Only out of memory refuses
/// it.
pub fn analysis_asked<'a>(
    alloc: Global,
    session: &'a Session,
    words: &mut Words<'a>,
) -> Result<Option<Analysis<'a>>, Memory>
    ensures { IfOk result (λ said. is_some said ≡ is_some (given_in words.old)) }
{
    let mut given = Vec::new(alloc);
    if !add_given(words, &mut given)? {
        return Ok(None);
    }
    let rows = rows_in(alloc, session)?;
    Ok(Some(analysis_of(alloc, &rows, &given)?))
}

// The values that words give, each one as NAME=VALUE; whether each does.
fn add_given<'a>(words: &mut Words<'a>, given: &mut Vec<Named<'a>>) -> Result<bool, Memory>
    ensures { IfOk result (λ all. given_onto (all_named given.old.items) (given_in words.old) ≡ (if all then Some (all_named given.new.items) else None)) }
{
    while let Some(word) = words.next() {
        let Some(value) = given_of(word) else {
            return Ok(false);
        };
        given.push(value)?;
    }
    Ok(true)
}

/// The lines of the instructions of the source that have a formula in brackets, by rising location, with how often each was executed by the changes
/// done, and how long that took. Only out of memory refuses it.
pub fn rows_in(alloc: Global, session: &Session) -> Result<Vec<Row<'_>>, Memory>
    ensures { IfOk result (λ rows. all_rows rows.items ≡ rows_in session.now) }
{
    let tallies = session.counts(alloc)?;
    let rows = rows_below(alloc, session.program(), &tallies.cells, CELLS)?;
    Ok(rows)
}

#[tactic(auto, unfolding(crate::specs::Analysis::rows_below))]
fn rows_below<'a>(
    alloc: Global,
    program: &'a Program,
    tallies: &[Tally],
    cells: u16,
) -> Result<Vec<Row<'a>>, Memory>
    requires { cells ≤ 4000 }
    ensures { IfOk result (λ rows. all_rows rows.items ≡ rows_below program.now (tally_in tallies.now) cells) }
{
    let mut rows = Vec::new(alloc);
    let mut number = 0;
    while number < cells {
        add_row(program, tally_in(tallies, number), number, &mut rows)?;
        number += 1;
    }
    Ok(rows)
}

// The row of a cell, if the line that put its word there has one.
fn add_row<'a>(
    program: &'a Program,
    tally: Tally,
    number: u16,
    rows: &mut Vec<Row<'a>>,
) -> Result<(), Memory>
    requires { number < 4000 }
    ensures { OnOk result (all_rows rows.new.items ≡ all_rows rows.old.items ++ row_at tally (source_at program.now number)) }
{
    match program.source_at(place_at(number)) {
        None => Ok(()),
        Some(source) => add_source(source, tally, rows),
    }
}

fn place_at(number: u16) -> Place
    requires { number < 4000 }
    ensures { result ≡ number }
{
    match Place::of(number) {
        Some(place) => place,
        None => unreachable!(),
    }
}

fn add_source<'a>(source: &'a Source, tally: Tally, rows: &mut Vec<Row<'a>>) -> Result<(), Memory>
    ensures { OnOk result (all_rows rows.new.items ≡ all_rows rows.old.items ++ row_of tally (source_value source.now)) }
{
    match source {
        Source::Line(line, text) => {
            let has = source.is_instruction() && bracket_of(text).is_some();
            add_line(has, *line, text, tally, rows)
        }
        Source::Literal(_) | Source::Name(_) => Ok(()),
    }
}

// The row of a line, if it has one.
fn add_line<'a>(
    has: bool,
    line: u32,
    text: &'a [u8],
    tally: Tally,
    rows: &mut Vec<Row<'a>>,
) -> Result<(), Memory>
    ensures { OnOk result (all_rows rows.new.items ≡ all_rows rows.old.items ++ row_if has line text.now tally) }
{
    if has {
        rows.push(Row {
            line: line as usize,
            text,
            count: tally.count,
            time: tally.time,
        })?;
    }
    Ok(())
}

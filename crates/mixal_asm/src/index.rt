//! The index of a program (1.3.2). It is made once, at END, so that no question about a place, a line or a symbol goes over all rows.
ghost use Rattle.std.specs.Prelude.{◌≡◌, ◌≤◌, ◌-◌, ℕ, List, [], ◌∷◌, ◌++◌, length, map, slice_get, slice_set, IfOk, OnOk};
ghost use Rattle.std.specs.List.{filter_map};
ghost use Rattle.std.specs.List.Sorted.{IsNonDecreasingBy};
ghost use Rattle.std.specs.Map.{lookup};
ghost use Rattle.std.specs.Option.{option_map};
ghost use Rattle.std.specs.Str.{bytes_eq};
ghost use Rattle.mixal_text.specs.Line.{line_of};
ghost use Rattle.mixal_asm.specs.Row.{row_value, source_value};
ghost use Rattle.mixal_asm.specs.Source.{place_of, source_in, word_in, symbol_of_loc, symbol_of_read, definition_in};
ghost use Rattle.mixal_asm.specs.Index.{LeadsToLast, cell_of, is_later, place_from, IsFirstFrom, HasDefinitions, IsIndexed};

use crate::row::{Row, Shows, Source};
use indexmap::IndexMap;
use mix_refused::Memory;
use mix_word::{CELLS, Place, Word};
use mixal_text::{Label, Line, Symbol, read_line};
use std::alloc::{AllocError, Global};

/// What leads from a place, a line or a symbol to what a program has of it.
#[derive(Drop)]
pub(crate) struct Index {
    /// By place the number of the last row whose word was put there; how many rows there are, where none was.
    pub rows: Vec<usize>,
    /// By place the number of the last word that was put there; how many words there are, where none was.
    pub words: Vec<usize>,
    /// The lines that emit a word, in rising order, each with its place.
    pub cells: Vec<(u32, Place)>,
    /// The symbols that lines define, each with the number of its line.
    pub lines: IndexMap<Symbol, u32>,
}

impl Index {
    /// The index of these words and rows.
    pub(crate) fn of(alloc: Global, words: &[(Place, Word)], rows: &[Row]) -> Result<Index, Memory>
        ensures { IfOk result (λ index. IsIndexed words.now (map row_value rows.now) index) }
    {
        Ok(Index {
            rows: last_rows(alloc, words, rows, usize::from(CELLS))?,
            words: last_words(alloc, words, usize::from(CELLS))?,
            cells: cells_of(alloc, words, rows)?,
            lines: lines_of(alloc, rows)?,
        })
    }
}

// ---- by place

// Of each of so many places the number of the last row whose word stands there.
fn last_rows(
    alloc: Global,
    words: &[(Place, Word)],
    rows: &[Row],
    places: usize,
) -> Result<Vec<usize>, AllocError>
    requires { 4000 ≤ places }
    ensures count { IfOk result (λ numbers. length numbers.items ≡ places) }
    ensures last { IfOk result (λ numbers. LeadsToLast (source_in words.now) (λ row. row.source) (map row_value rows.now) (map row_value rows.now) numbers.items) }
{
    let mut numbers = vec![in alloc; rows.len(); places]?;
    for (i, row) in rows.iter().enumerate() {
        match place_of(words, row.shows) {
            Some(place) => note(&mut numbers, place, i),
            None => {}
        }
    }
    Ok(numbers)
}

// Of each of so many places the number of the last word that was put there.
fn last_words(
    alloc: Global,
    words: &[(Place, Word)],
    places: usize,
) -> Result<Vec<usize>, AllocError>
    requires { 4000 ≤ places }
    ensures count { IfOk result (λ numbers. length numbers.items ≡ places) }
    ensures last { IfOk result (λ numbers. LeadsToLast word_in (λ word. word.1) words.now words.now numbers.items) }
{
    let mut numbers = vec![in alloc; words.len(); places]?;
    for (i, word) in words.iter().enumerate() {
        note(&mut numbers, word.0, i);
    }
    Ok(numbers)
}

// Notes a number at a place.
fn note(numbers: &mut Vec<usize>, place: Place, number: usize)
    requires { 4000 ≤ length numbers.old.items }
    ensures { numbers.new.items ≡ slice_set numbers.old.items place number }
{
    numbers[usize::from(place.number())] = number;
}

// The place of the word that a row shows.
fn place_of(words: &[(Place, Word)], shows: Shows) -> Option<Place>
    ensures { result ≡ place_of words.now shows }
{
    match shows {
        Shows::Word(i) => words.get(i).map(|word| word.0),
        Shows::Nothing | Shows::Value(_) | Shows::Start => None,
    }
}

// ---- by line

// The lines of the source that emit a word, each with its place.
fn cells_of(
    alloc: Global,
    words: &[(Place, Word)],
    rows: &[Row],
) -> Result<Vec<(u32, Place)>, Memory>
    ensures rising { IfOk result (λ cells. IsNonDecreasingBy (λ cell. cell.0) cells.items) }
    ensures first { IfOk result (λ cells. IsFirstFrom words.now (map row_value rows.now) cells.items) }
{
    let mut cells = Vec::new(alloc);
    for row in rows {
        match cell_of(words, row) {
            Some(cell) => note_cell(&mut cells, cell)?,
            None => {}
        }
    }
    Ok(cells)
}

// A line of the source with the place of its word, if it emits one.
fn cell_of(words: &[(Place, Word)], row: &Row) -> Option<(u32, Place)>
    ensures { result ≡ cell_of words.now (row_value row.now) }
{
    match row.source {
        Source::Line(number, _) => place_of(words, row.shows).map(|place| (number, place)),
        Source::Literal(_) | Source::Name(_) => None,
    }
}

// One line more, unless it is no later one than the last.
fn note_cell(cells: &mut Vec<(u32, Place)>, cell: (u32, Place)) -> Result<(), Memory>
    requires { IsNonDecreasingBy (λ cell. cell.0) cells.old.items }
    ensures rising { OnOk result (IsNonDecreasingBy (λ cell. cell.0) cells.new.items) }
    ensures first { (number : ℕ) → OnOk result (slice_get (filter_map (place_from number) cells.new.items) 0 ≡ slice_get (filter_map (place_from number) (cells.old.items ++ cell ∷ [])) 0) }
{
    if is_later(cells, cell.0) {
        cells.push(cell)?;
    }
    Ok(())
}

// Whether a line comes after the last of some cells.
fn is_later(cells: &[(u32, Place)], line: u32) -> bool
    ensures { result ≡ is_later (slice_get cells.now (length cells.now - 1)) line }
{
    match cells.last() {
        Some(last) => last.0 < line,
        None => true,
    }
}

/// The place of the first of some lines, in rising order, that is from this number on.
pub(crate) fn first_from(cells: &[(u32, Place)], number: u64) -> Option<Place>
    requires { IsNonDecreasingBy (λ cell. cell.0) cells.now }
    ensures { result ≡ slice_get (filter_map (place_from number) cells.now) 0 }
{
    let first = cells.partition_point(|cell| u64::from(cell.0) < number);
    place_at(cells, first)
}

fn place_at(cells: &[(u32, Place)], i: usize) -> Option<Place>
    ensures { result ≡ option_map (λ cell. cell.1) (slice_get cells.now i) }
{
    cells.get(i).map(|cell| cell.1)
}

// ---- by symbol

// The symbols that lines of the source define.
fn lines_of(alloc: Global, rows: &[Row]) -> Result<IndexMap<Symbol, u32>, Memory>
    ensures { IfOk result (λ lines. HasDefinitions (map row_value rows.now) lines.entries) }
{
    let mut lines = IndexMap::new(alloc);
    for row in rows {
        match definition_in(&row.source) {
            Some((symbol, number)) => note_line(&mut lines, symbol, number)?,
            None => {}
        }
    }
    Ok(lines)
}

/// One symbol more with its line, unless it is there.
pub(crate) fn note_line(
    lines: &mut IndexMap<Symbol, u32>,
    symbol: Symbol,
    number: u32,
) -> Result<(), Memory>
    ensures { (other : List ℕ) → OnOk result (lookup (bytes_eq other) lines.new.entries ≡ lookup (bytes_eq other) (lines.old.entries ++ (symbol, number) ∷ [])) }
{
    if !lines.contains_key(&symbol) {
        lines.insert(symbol, number)?;
    }
    Ok(())
}

// The symbol that a line of the source defines, and the number of the line.
fn definition_in(source: &Source) -> Option<(Symbol, u32)>
    ensures { result ≡ definition_in (source_value source.now) }
{
    match source {
        Source::Line(number, text) => symbol_in(text).map(|symbol| (symbol, *number)),
        Source::Literal(_) | Source::Name(_) => None,
    }
}

// The symbol that the text of a line defines: one with a fault defines none.
fn symbol_in(text: &[u8]) -> Option<Symbol>
    ensures { result ≡ symbol_of_read (line_of text.now) }
{
    match read_line(text) {
        Ok(Line::Code { loc, .. }) => symbol_of_loc(loc),
        Ok(Line::Remark) | Err(_) => None,
    }
}

pub(crate) fn symbol_of_loc(loc: Option<Label>) -> Option<Symbol>
    ensures { result ≡ symbol_of_loc loc }
{
    match loc {
        Some(Label::Name(symbol)) => Some(symbol),
        Some(Label::Local(_)) | None => None,
    }
}

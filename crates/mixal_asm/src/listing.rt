//! The listing of an assembled source: a row for each line, what was inserted before END, and the symbols.
ghost use Rattle.std.specs.Prelude.{◌≡◌, ◌<◌, ◌-◌, ◌^◌, ◌++◌, Some, OnOk, IfOk};
ghost use Rattle.std.specs.Io.KnownBytes.{Appends, Keeps};
ghost use Rattle.mix_stream.specs.Stream.{AppendsFront, CountsFailure};
ghost use Rattle.mixal_asm.specs.Prelude.{Line, row_value, source_value};
ghost use Rattle.mixal_asm.specs.Listing.{blanks, shown_text, source_text, row_text, rows_text, symbol_text, names_text, symbols_text, listing, IsFault};

use crate::key::Key;
use crate::names::NameTable;
use crate::program::Program;
use crate::row::{Row, Shows, Source};
use mix_refused::{Memory, Refused};
use mix_stream::{Failed, Out, write_all};
use mix_word::{Location, Place, Word};
use mixal_text::Symbol;
use std::alloc::Global;
use std::fmt;

/// The places in which a symbol stands left.
const SYMBOL_PLACES: usize = 10;

impl Program {
    /// Writes the listing (1.3.2). Out of memory, nothing is written; where a write fails, a beginning of the listing is
    /// written.
    #[tactic(auto, unfolding(crate::specs::Listing::listing))]
    pub fn write_listing<W: Out>(&self, alloc: Global, out: &mut W) -> Result<(), Refused<Failed>>
        requires { W.failed out.old < 2 ^ 64 - 1 }
        ensures written { OnOk result (Appends (W.told out.old) (W.told out.new) (listing self.now)) }
        ensures begun { AppendsFront (W.told out.old) (W.told out.new) (listing self.now) }
        ensures memory { result ≡ Err Refused.Memory → Keeps (W.told out.old) (W.told out.new) }
        ensures failed { CountsFailure (IsFault result) (W.failed out.old) (W.failed out.new) }
    {
        let mut text = Vec::new(alloc);
        add_rows(alloc, &mut text, self)?;
        add_symbols(alloc, &mut text, &self.names)?;
        match write_all(out, text.as_slice()) {
            Ok(()) => Ok(()),
            Err(failed) => Err(Refused::Fault(failed)),
        }
    }
}

impl Program {
    /// The symbols with their values, as the listing ends with them (1.3.2). Only out of memory refuses them.
    pub fn symbols_text(&self, alloc: Global) -> Result<Vec<u8>, Memory>
        ensures { IfOk result (λ text. text.items ≡ symbols_text self.now.names) }
    {
        let mut text = Vec::new(alloc);
        add_symbols(alloc, &mut text, &self.names)?;
        Ok(text)
    }
}

// How many symbols there are, and each of them with its value.
#[tactic(auto, unfolding(crate::specs::Listing::symbols_text))]
fn add_symbols(alloc: Global, text: &mut Vec<u8>, names: &NameTable) -> Result<(), Memory>
    ensures { OnOk result (text.new.items ≡ text.old.items ++ symbols_text names.now) }
{
    let count = names.symbols();
    let line = format!(in alloc; "symbols {count}\n")?;
    text.extend_from_slice(line.as_bytes())?;
    add_names(alloc, text, names)?;
    Ok(())
}

fn add_rows(alloc: Global, text: &mut Vec<u8>, program: &Program) -> Result<(), Memory>
    ensures { OnOk result (text.new.items ≡ text.old.items ++ rows_text program.now program.now.rows) }
{
    for row in program.rows.iter() {
        add_row(alloc, text, program, row)?;
    }
    Ok(())
}

#[tactic(auto, unfolding(crate::specs::Listing::row_text))]
fn add_row(alloc: Global, text: &mut Vec<u8>, program: &Program, row: &Row) -> Result<(), Memory>
    ensures { OnOk result (text.new.items ≡ text.old.items ++ row_text program.now (row_value row.now)) }
{
    let shown = Shown(program, row.shows);
    let front = format!(in alloc; "{shown}  ")?;
    text.extend_from_slice(front.as_bytes())?;
    add_source(alloc, text, &row.source)?;
    text.push(b'\n')?;
    Ok(())
}

// The number and the text of a row.
#[tactic(auto, unfolding(crate::specs::Listing::source_text))]
fn add_source(alloc: Global, text: &mut Vec<u8>, source: &Source) -> Result<(), Memory>
    ensures { OnOk result (text.new.items ≡ text.old.items ++ source_text (source_value source.now)) }
{
    match source {
        Source::Line(number, line) => add_line(alloc, text, *number, line),
        Source::Literal(literal) => {
            text.extend_from_slice(b"       =")?;
            text.extend_from_slice(literal)?;
            text.push(b'=')?;
            Ok(())
        }
        Source::Name(symbol) => {
            text.extend_from_slice(b"       ")?;
            text.extend_from_slice(symbol.name())?;
            Ok(())
        }
    }
}

fn add_line(alloc: Global, text: &mut Vec<u8>, number: u32, line: &[u8]) -> Result<(), Memory>
    ensures { OnOk result (text.new.items ≡ text.old.items ++ source_text (Line number line.now)) }
{
    let number = format!(in alloc; "{number:>5}  ")?;
    text.extend_from_slice(number.as_bytes())?;
    text.extend_from_slice(line)?;
    Ok(())
}

fn add_names(alloc: Global, text: &mut Vec<u8>, names: &NameTable) -> Result<(), Memory>
    ensures { OnOk result (text.new.items ≡ text.old.items ++ names_text names.now) }
{
    for (key, value) in names.iter() {
        match key {
            Key::Name(symbol) => add_symbol(alloc, text, symbol, *value)?,
            Key::Local(..) | Key::Literal(_) => {}
        }
    }
    Ok(())
}

#[tactic(auto, unfolding(crate::specs::Listing::symbol_text))]
fn add_symbol(alloc: Global, text: &mut Vec<u8>, symbol: &Symbol, value: Word) -> Result<(), Memory>
    ensures { OnOk result (text.new.items ≡ text.old.items ++ symbol_text symbol.now value) }
{
    let name = symbol.name();
    text.extend_from_slice(name)?;
    add_blanks(text, SYMBOL_PLACES.saturating_sub(name.len()))?;
    let rest = format!(in alloc; "  {value}\n")?;
    text.extend_from_slice(rest.as_bytes())?;
    Ok(())
}

fn add_blanks(text: &mut Vec<u8>, count: usize) -> Result<(), Memory>
    ensures { OnOk result (text.new.items ≡ text.old.items ++ blanks count) }
{
    for _i in 0..count {
        text.push(b' ')?;
    }
    Ok(())
}

/// The 22 places of a row: what it shows of its line.
#[derive(Clone, Copy)]
struct Shown<'p>(&'p Program, Shows);

impl fmt::Display for Shown<'_> {
    ghost output = { λ s. Some (shown_text s.0.now s.1) };

    #[tactic(auto, unfolding(crate::specs::Listing::shown_text))]
    fn fmt<W: fmt::Write>(&self, f: &mut fmt::Formatter<W>) -> fmt::Result {
        let program = self.0;
        match self.1 {
            Shows::Nothing => write!(f, "                      "),
            Shows::Value(value) => write!(f, "      {value}"),
            Shows::Word(i) => {
                let placed = Placed(program.words.get(i).copied());
                write!(f, "{placed}")
            }
            Shows::Start => {
                let start = Location(program.start.number());
                write!(f, "{start}                  ")
            }
        }
    }
}

/// A word and its place.
#[derive(Clone, Copy)]
struct Placed(Option<(Place, Word)>);

impl fmt::Display for Placed {
    ghost use Rattle.mixal_asm.specs.Listing.{placed_word};

    ghost output = { λ p. Some (placed_word p.0) };

    fn fmt<W: fmt::Write>(&self, f: &mut fmt::Formatter<W>) -> fmt::Result {
        match self.0 {
            Some((place, word)) => {
                let location = Location(place.number());
                write!(f, "{location}  {word}")
            }
            None => write!(f, "                      "),
        }
    }
}

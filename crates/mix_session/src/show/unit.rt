//! What `show unit` writes of a unit.

ghost use Rattle.std.specs.Prelude.{◌≡◌, ◌<◌, ℕ, List, [], IfOk, Some, None, string_bytes, length, slice_index_or, flat_map};
ghost use Rattle.std.specs.Fmt.{WritesOnOk};
ghost use Rattle.mix_word.specs.Word.{WordValue};
ghost use Rattle.mix_session.specs.ShowUnit.{input_line, row_line, contents_text, counts_text, times_text, unit_line, unit_text, block_text};

use crate::show::each::{Each, Numbered};
use crate::show::words::{BlockLines, Characters};
use mix_machine::{Row, Unit, UnitKind, UnitNo, Word, World};
use std::alloc::{AllocError, Global};
use std::fmt;
use std::marker::PhantomData;

/// The line of a unit, and what it holds.
pub(super) fn unit_lines(alloc: Global, world: &World, number: UnitNo) -> Result<String, AllocError>
    ensures { IfOk result (λ s. string_bytes s ≡ unit_text world.now number) }
{
    let lines = UnitLines(world, number);
    let text = format!(in alloc; "{lines}")?;
    Ok(text)
}

/// The line of a unit, and what it holds.
#[derive(Clone, Copy)]
pub(super) struct UnitLines<'a>(pub &'a World, pub UnitNo);

impl fmt::Display for UnitLines<'_> {
    ghost output = { λ l. Some (unit_text l.0.now l.1) };

    #[tactic(auto, unfolding(crate::specs::ShowUnit::unit_text))]
    fn fmt<W: fmt::Write>(&self, f: &mut fmt::Formatter<W>) -> fmt::Result {
        let unit = self.0.unit(self.1);
        let (line, contents) = (UnitLine(self.1, unit), Contents(self.1.kind(), unit));
        write!(f, "{line}{contents}")
    }
}

/// The place of the next block of a unit, and how many blocks and rows it has.
#[derive(Clone, Copy)]
struct Counts<'a>(&'a Unit);

impl fmt::Display for Counts<'_> {
    ghost output = { λ c. Some (counts_text c.0.now) };

    #[tactic(auto, unfolding(crate::specs::ShowUnit::counts_text))]
    fn fmt<W: fmt::Write>(&self, f: &mut fmt::Formatter<W>) -> fmt::Result {
        let unit = self.0;
        let (place, blocks, rows) = (unit.place(), unit.blocks(), unit.rows());
        write!(f, "place {place} blocks {blocks} output {rows}")
    }
}

/// The delay of a unit and the time until which its last transfer takes; nothing where it has no delay.
#[derive(Clone, Copy)]
struct Times<'a>(&'a Unit);

impl fmt::Display for Times<'_> {
    ghost output = { λ t. Some (times_text t.0.now) };

    fn fmt<W: fmt::Write>(&self, f: &mut fmt::Formatter<W>) -> fmt::Result {
        let (delay, until) = (self.0.delay(), self.0.until());
        if delay == 0 {
            Ok(())
        } else {
            write!(f, " delay {delay} until {until}")
        }
    }
}

/// The line of a unit.
#[derive(Clone, Copy)]
struct UnitLine<'a>(UnitNo, &'a Unit);

impl fmt::Display for UnitLine<'_> {
    ghost output = { λ l. Some (unit_line l.0 l.1.now) };

    #[tactic(auto, unfolding(crate::specs::ShowUnit::unit_line))]
    fn fmt<W: fmt::Write>(&self, f: &mut fmt::Formatter<W>) -> fmt::Result {
        let number = self.0.number();
        let (counts, times) = (Counts(self.1), Times(self.1));
        write!(f, "unit {number} {counts}{times}\n")
    }
}

/// A kind of text that each block has.
trait BlockText {
    // The text of a block.
    ghost text: { List WordValue → List ℕ };

    /// Writes the text of a block.
    fn write<W: fmt::Write>(block: &[Word], f: &mut fmt::Formatter<W>) -> fmt::Result
        ensures { WritesOnOk W.write_str_gives f.old result (text block.now) f.new };
}

/// The lines of a block of a tape or a disk.
struct WordLines;

impl BlockText for WordLines {
    ghost text = { block_text };

    fn write<W: fmt::Write>(block: &[Word], f: &mut fmt::Formatter<W>) -> fmt::Result {
        let lines = BlockLines(block);
        write!(f, "{lines}")
    }
}

/// The line of a block that is read in characters.
struct InputLine;

impl BlockText for InputLine {
    ghost text = { input_line };

    fn write<W: fmt::Write>(block: &[Word], f: &mut fmt::Formatter<W>) -> fmt::Result {
        write!(f, "< {}\n", Characters(block))
    }
}

/// The blocks of a unit, by their numbers, each with its text of a kind.
struct UnitBlocks<B: BlockText>(PhantomData<B>);

impl<B: BlockText> Numbered for UnitBlocks<B> {
    type Of = Unit;

    ghost count = { λ u. length u.blocks };

    ghost text = { λ u i. B.text (slice_index_or u.blocks i []) };

    fn write<W: fmt::Write>(unit: &Unit, number: u16, f: &mut fmt::Formatter<W>) -> fmt::Result {
        B::write(block_at(unit, number), f)
    }
}

fn blocks<'a, B: BlockText>(unit: &'a Unit) -> Each<'a, UnitBlocks<B>>
    ensures { ⟦<Each<'a, UnitBlocks<B>> as fmt::Display>⟧.output result ≡ Some (flat_map B.text unit.now.blocks) }
{
    Each::between(unit, 0, unit.blocks())
}

/// The lines of the rows that were written, or of the marks of a new page, by their numbers.
struct UnitRows;

impl Numbered for UnitRows {
    type Of = Unit;

    ghost count = { λ u. length u.rows };

    ghost text = { λ u i. row_line (slice_index_or u.rows i None) };

    fn write<W: fmt::Write>(unit: &Unit, number: u16, f: &mut fmt::Formatter<W>) -> fmt::Result {
        match row_at(unit, number).words() {
            None => write!(f, "> %PAGE\n"),
            Some(words) => {
                let characters = Characters(words);
                write!(f, "> {characters}\n")
            }
        }
    }
}

fn rows<'a>(unit: &'a Unit) -> Each<'a, UnitRows>
    ensures { ⟦<Each<'a, UnitRows> as fmt::Display>⟧.output result ≡ Some (flat_map row_line unit.now.rows) }
{
    Each::between(unit, 0, unit.rows())
}

/// What a unit of a kind holds.
#[derive(Clone, Copy)]
struct Contents<'a>(UnitKind, &'a Unit);

impl fmt::Display for Contents<'_> {
    ghost output = { λ c. Some (contents_text c.0 c.1.now) };

    fn fmt<W: fmt::Write>(&self, f: &mut fmt::Formatter<W>) -> fmt::Result {
        let (blocks, inputs) = (blocks::<WordLines>(self.1), blocks::<InputLine>(self.1));
        let rows = rows(self.1);
        match self.0 {
            UnitKind::Tape | UnitKind::Disk => write!(f, "{blocks}"),
            UnitKind::CardReader => write!(f, "{inputs}"),
            UnitKind::CardPunch | UnitKind::Printer => write!(f, "{rows}"),
            UnitKind::Typewriter | UnitKind::PaperTape => write!(f, "{inputs}{rows}"),
        }
    }
}

pub(crate) fn block_at(unit: &Unit, number: u16) -> &[Word]
    requires { number < length unit.now.blocks }
    ensures { result.now ≡ slice_index_or unit.now.blocks number [] }
{
    unit.block(number).unwrap()
}

fn row_at(unit: &Unit, number: u16) -> &Row
    requires { number < length unit.now.rows }
    ensures { result.now ≡ slice_index_or unit.now.rows number None }
{
    unit.row(number).unwrap()
}

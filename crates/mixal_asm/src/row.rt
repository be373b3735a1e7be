//! What the listing has of a line.
ghost use Rattle.std.specs.Prelude.{◌≡◌};
ghost use Rattle.mixal_asm.specs.Row.{source_value};
ghost use Rattle.mixal_asm.specs.Source.{is_instruction};

use mix_word::Word;
use mixal_text::{Line, Op, Symbol, read_line};

/// What a row shows beside its text: nothing; the value that EQU gives; the word of this number, from 0 on, in the order
/// of the words, with its place; or the start.
#[derive(Clone, Copy)]
pub(crate) enum Shows {
    Nothing,
    Value(Word),
    Word(usize),
    Start,
}

/// Where a row of the listing comes from (1.3.2): a line of the source by its number and its text, a literal as it stands between
/// its equals signs, or an undefined symbol. The last two are lines that are inserted before END.
#[derive(Drop)]
pub enum Source {
    Line(u32, Vec<u8>),
    Literal(Vec<u8>),
    Name(Symbol),
}

impl Source {
    /// Whether it is the line of an instruction (1.3.2): a line of the source whose OP is a symbolic operation of MIX, and no
    /// pseudo-operation; no inserted line is one. It takes no memory.
    pub fn is_instruction(&self) -> bool
        ensures { result ≡ is_instruction (source_value self.now) }
    {
        match self {
            Source::Line(_, text) => matches!(
                read_line(text),
                Ok(Line::Code {
                    op: Op::Machine { .. },
                    ..
                })
            ),
            Source::Literal(_) | Source::Name(_) => false,
        }
    }
}

/// A row of the listing.
#[derive(Drop)]
pub(crate) struct Row {
    pub source: Source,
    pub shows: Shows,
}

//! An assembled source (1.3.2): what it gives to the machine, and what its names mean.
ghost use Rattle.std.specs.Prelude.{◌≡◌};
ghost use Rattle.mixal_asm.specs.Prelude.{Name, value_of, names_at, source_value, row_value};
ghost use Rattle.std.specs.Option.{option_map};
ghost use Rattle.mixal_asm.specs.Source.{source_at, word_at, cell_from, line_defining, symbols_of};

use crate::index::{Index, first_from};
use crate::key::Key;
use crate::names::NameTable;
use crate::row::{Row, Source};
use crate::symbols::Symbols;
use mix_word::{Place, Word};
use mixal_text::{Names, Symbol};
use std::marker::Model;

/// An assembled source (1.3.2). Its names are the finished map: every LOC, the undefined symbols, and that of END.
pub struct Program {
    pub(crate) words: Vec<(Place, Word)>,
    pub(crate) start: Place,
    pub(crate) names: NameTable,
    pub(crate) rows: Vec<Row>,
    pub(crate) patches: usize,
    pub(crate) index: Index,
}

// Written out, so that the proof of what drops a program has one call to read, and not those of its fields.
impl Drop for Program {
    fn drop(self) {
        let Program {
            words: _,
            start: _,
            names: _,
            rows: _,
            patches: _,
            index: _,
        } = self;
    }
}

impl Model for Program {
    ghost use Rattle.std.specs.Prelude.{map};
    ghost use Rattle.mixal_asm.specs.Program.{ProgramValue};

    ghost Value = { ProgramValue };

    ghost use Rattle.mixal_asm.specs.Row.{row_value};

    ghost view = { λ p. record {
      words = p.words.items;
      start = p.start;
      names = p.names;
      rows = map row_value p.rows.items;
      patches = p.patches;
    } };

    ghost use Rattle.mixal_asm.specs.Index.{IsIndexed};

    ghost invariant = { λ p. IsIndexed p.words.items (map row_value p.rows.items) p.index };
}

impl Program {
    /// The words with their places, in the order of the lines: a later one at the same place wins (1.3.2). It takes no memory.
    pub fn words(&self) -> &[(Place, Word)]
        ensures { result.now ≡ self.now.words }
    {
        self.words.as_slice()
    }

    /// Where the program begins (1.3.2): field (4:5) of the ADDRESS of END. It takes no memory.
    pub fn start(&self) -> Place
        ensures { result ≡ self.now.start }
    {
        self.start
    }

    /// The value of a symbol that the source uses or defines (1.3.2), and none of any other. It takes no memory.
    pub fn symbol(&self, symbol: &Symbol) -> Option<Word>
        ensures { result ≡ value_of self.now.names (Name symbol.now) }
    {
        self.names.value(&Key::Name(symbol.copied()))
    }

    /// Where the last word that was put at a place comes from (1.3.2): a line of the source, or one that was inserted before END;
    /// none where no word was put. It takes no memory.
    pub fn source_at(&self, place: Place) -> Option<&Source>
        ensures { option_map (λ source. source_value source.now) result ≡ source_at self.now place }
    {
        let number = self.index.rows[usize::from(place.number())];
        self.rows.get(number).map(|row| &row.source)
    }

    /// The last word that was put at a place (1.3.2), which the machine is loaded with; none where no word was put. It takes no memory.
    pub fn word_at(&self, place: Place) -> Option<Word>
        ensures { result ≡ word_at self.now place }
    {
        let number = self.index.words[usize::from(place.number())];
        self.words.get(number).map(|word| word.1)
    }

    /// The place of the first word that the lines of the source from this number on emit, if they emit any: no inserted line
    /// counts. It takes no memory.
    pub fn cell_from(&self, number: u64) -> Option<Place>
        ensures { result ≡ cell_from self.now number }
    {
        first_from(&self.index.cells, number)
    }

    /// The number of the line of the source whose LOC a symbol is, END among them (1.3.2); none for a symbol that the assembler
    /// defines, since no LOC does, and for one that the source has not. It takes no memory.
    pub fn line_of(&self, symbol: &Symbol) -> Option<u32>
        ensures { result ≡ line_defining self.now symbol.now }
    {
        self.index.lines.get(symbol).copied()
    }

    /// The symbols with their values, in the order in which they got them, as the listing ends with them. It takes no memory.
    pub fn symbols(&self) -> Symbols<'_>
        ensures { result ≡ symbols_of self.now.names }
    {
        Symbols::of(&self.names)
    }

    /// How many future references the source has (1.3.2): those of undefined symbols are among them, literals are not. It
    /// takes no memory.
    pub fn patches(&self) -> usize
        ensures { result ≡ self.now.patches }
    {
        self.patches
    }
}

/// A symbol by the finished map; dB is the last dH of the source.
impl Names for Program {
    ghost names = { λ p. names_at p.names p.names };

    fn value(&self, symbol: &Symbol) -> Option<Word> {
        self.symbol(symbol)
    }

    fn back(&self, digit: u8) -> Option<Word> {
        self.names.back(digit)
    }
}

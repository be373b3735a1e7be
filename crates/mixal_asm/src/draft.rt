//! What the lines so far give (1.3.2), and the two steps of which lines are made.
ghost use Rattle.std.specs.Prelude.{◌≡◌, ◌<◌, ◌≤◌, ◌&&◌, nat_le, ◌++◌, [], ◌∷◌, length, false, Ok, Err, OnOk, OnErr, IfOk, ◌+◌};
ghost use Rattle.mix_refused.specs.Refused.{IfFault};
ghost use Rattle.mix_word.specs.Word.{plus};
ghost use Rattle.mixal_asm.specs.PassOne.{at_first, is_awaited, with_name, with_word, with_loc, with_row, is_taken, names_at, number_after};

use crate::fault::AsmKind;
use crate::key::Key;
use crate::names::NameTable;
use crate::row::{Row, Shows, Source};
use crate::scope::{OwnLocal, own_local};
use crate::words::{Emitted, WordList};
use mix_refused::{Memory, Refused};
use mix_word::{Place, Sign, Word};
use mixal_text::Label;
use std::alloc::Global;
use std::marker::Model;

/// What the lines so far give: the location, the names, the words, the texts of the literals, and the rows of the listing.
#[derive(Drop)]
pub(crate) struct Draft<'s> {
    pub(crate) here: u16,
    pub(crate) names: NameTable,
    pub(crate) words: WordList,
    pub(crate) literals: Vec<&'s [u8]>,
    pub(crate) rows: Vec<Row>,
}

impl<'s> Model for Draft<'s> {
    ghost use Rattle.std.specs.Prelude.{map};
    ghost use Rattle.mixal_asm.specs.PassOne.{Before};

    ghost Value = { Before };

    ghost use Rattle.mixal_asm.specs.Row.{row_value};
    ghost use Rattle.mixal_asm.specs.Chain.{emitted_of};
    ghost use Rattle.mixal_asm.specs.Draft.{IsDraft};

    ghost view = { λ d. record {
      here = d.here;
      names = d.names;
      emitted = emitted_of d.words;
      literals = map (λ text. text.now) d.literals.items;
      rows = map row_value d.rows.items;
    } };

    ghost invariant = { λ d. IsDraft d.here d.names d.words };
}

impl<'s> Draft<'s> {
    ghost use Rattle.mixal_asm.specs.Row.{source_value};
    ghost use Rattle.mixal_asm.specs.Table.{IsNew};
    ghost use Rattle.mixal_asm.specs.Draft.{IsOpen, scope_value};

    /// Nothing yet, at location 0. It takes no memory.
    pub(crate) fn new(alloc: Global) -> Draft<'s>
        ensures { result ≡ at_first }
    {
        Draft {
            here: 0,
            names: NameTable::new(alloc),
            words: WordList::new(alloc),
            literals: Vec::new(alloc),
            rows: Vec::new(alloc),
        }
    }

    /// The location as a word, for which the asterisk stands.
    pub(crate) fn here_word(&self) -> Word
        ensures { result ≡ plus self.now.here }
    {
        Word::of(Sign::Plus, u32::from(self.here))
    }

    /// How many words there are.
    pub(crate) fn word_count(&self) -> usize
        ensures { result ≡ length self.now.emitted }
    {
        self.words.len()
    }

    /// The number of the next line.
    pub(crate) fn number(&self) -> u32
        requires { length self.now.rows ≤ 20000 }
        ensures { result ≡ number_after self.now }
    {
        self.rows.len() as u32 + 1
    }

    // Whether a value is too large for a word that waits for its name.
    fn refuses(&self, name: &Key, value: Word) -> bool
        ensures { result ≡ (is_awaited name.now self.now.emitted && nat_le 4096 value.magnitude) }
    {
        self.words.is_awaited(name) && value.magnitude() >= 4096
    }

    /// Gives a new name its value, in all words that wait for it too. Such a value is A9 where it does not fit two bytes.
    pub(crate) fn define(&mut self, name: Key, value: Word) -> Result<(), Refused<AsmKind>>
        requires { IsNew self.old.names name }
        ensures ok { OnOk result (with_name self.old name value ≡ Ok self.new) }
        ensures fault { IfFault result (λ kind. with_name self.old name value ≡ Err kind) }
        ensures named { OnOk result (self.new ≡ record self.old { names = self.old.names ++ (name, value) ∷ [] }) }
    {
        if self.refuses(&name, value) {
            return Err(Refused::Fault(AsmKind::AddressTooLarge));
        }
        self.names.define(name.copied(), value)?;
        self.words.close(&name, value);
        Ok(())
    }

    /// A word at the location, and the name that it waits for. At location 4000 it is A11.
    pub(crate) fn emit(&mut self, word: Word, awaits: Option<Key>) -> Result<(), Refused<AsmKind>>
        requires { IsOpen self.old.names awaits }
        ensures ok { OnOk result (with_word self.old word awaits ≡ Ok self.new) }
        ensures fault { IfFault result (λ kind. with_word self.old word awaits ≡ Err kind) }
        ensures more { OnOk result (self.new ≡ record self.old {
          here = self.old.here + 1;
          emitted = self.old.emitted ++ record { place = self.old.here; word = word; awaits = awaits } ∷ [];
        }) }
    {
        match Place::of(self.here) {
            Some(place) => {
                self.words.push(Emitted {
                    place,
                    word,
                    awaits,
                })?;
                self.here += 1;
                Ok(())
            }
            None => Err(Refused::Fault(AsmKind::LocationOutOfRange)),
        }
    }

    /// Gives the name of a LOC, if there is one, its value. It answers what dB means on the line.
    pub(crate) fn label(
        &mut self,
        loc: &Option<Label>,
        value: Word,
    ) -> Result<Option<OwnLocal>, Refused<AsmKind>>
        requires { is_taken self.old.names loc.now ≡ false }
        ensures ok { OnOk result (with_loc self.old loc.now value ≡ Ok self.new) }
        ensures own { IfOk result (λ own. scope_value self.new.names own ≡ names_at self.old.names self.new.names) }
        ensures fault { IfFault result (λ kind. with_loc self.old loc.now value ≡ Err kind) }
    {
        let own = own_local(&self.names, loc);
        match loc {
            None => Ok(own),
            Some(label) => {
                let name = self.names.name_of(label);
                self.define(name, value)?;
                Ok(own)
            }
        }
    }

    /// Sets the location, 0 to 4000.
    pub(crate) fn go_to(&mut self, here: u16)
        requires { here ≤ 4000 }
        ensures { self.new ≡ record self.old { here = here } }
    {
        self.here = here;
    }

    /// A text as a row keeps it.
    pub(crate) fn kept(&self, text: &[u8]) -> Result<Vec<u8>, Memory>
        ensures { IfOk result (λ kept. kept.items ≡ text.now) }
    {
        Ok(Vec::from_slice(*self.rows.allocator(), text)?)
    }

    /// A row of the listing.
    pub(crate) fn add_row(&mut self, source: Source, shows: Shows) -> Result<(), Memory>
        ensures { OnOk result (self.new ≡ with_row self.old (source_value source) shows) }
    {
        self.rows.push(Row { source, shows })?;
        Ok(())
    }
}

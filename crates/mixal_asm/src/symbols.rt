//! The symbols of a program (1.3.2).
ghost use Rattle.std.specs.Prelude.{◌≡◌};

use crate::key::Key;
use crate::names::NameTable;
use indexmap::map::Iter;
use mix_word::Word;
use mixal_text::Symbol;
use std::marker::Model;

/// The symbols of a program that are still to come, with their values (1.3.2).
#[derive(Drop)]
pub struct Symbols<'p> {
    names: Iter<'p, Key, Word>,
}

impl<'p> Model for Symbols<'p> {
    ghost use Rattle.std.specs.Prelude.{ℕ, List};
    ghost use Rattle.mix_word.specs.Word.{WordValue};
    ghost use Rattle.mixal_asm.specs.Source.{symbols_of};

    ghost Value = { List (List ℕ × WordValue) };

    ghost view = { λ s. symbols_of s.names };
}

impl<'p> Symbols<'p> {
    ghost use Rattle.mixal_asm.specs.Source.{symbols_of};

    /// All symbols of a table.
    pub(crate) fn of(names: &'p NameTable) -> Symbols<'p>
        ensures { result ≡ symbols_of names.now }
    {
        Symbols {
            names: names.iter(),
        }
    }
}

impl<'p> Iterator for Symbols<'p> {
    ghost use Rattle.std.specs.Prelude.{length};
    ghost use Rattle.std.specs.Iterator.{YieldsFirstBy, at_most};

    type Item = (&'p Symbol, Word);

    ghost next_gives = { YieldsFirstBy (λ item. (item.0.now, item.1)) (λ s. s) };

    ghost remaining = { λ s. at_most (length s) };

    fn next(&mut self) -> Option<(&'p Symbol, Word)> {
        while let Some((key, value)) = self.names.next() {
            if let Key::Name(symbol) = key {
                return Some((symbol, *value));
            }
        }
        None
    }
}

//! Ordinary symbols (1.3.2): one to ten letters and digits.
ghost use Rattle.std.specs.Prelude.{◌≡◌, IsTrue, List, ℕ};
ghost use Rattle.std.specs.List.{list_all, list_any};
ghost use Rattle.std.specs.Cmp.{partial_equiv_from_equiv};
ghost use Rattle.std.specs.Cmp.Lexicographic.{pointwise, nat_list_eq_equiv};
ghost use Rattle.std.specs.Prelude.{nat_eq};
ghost use Rattle.std.specs.Char.{is_ascii_uppercase};
ghost use Rattle.std.specs.Hash as fed;
ghost use Rattle.mixal_text.specs.Symbol.{is_capital_or_digit, is_ordinary, symbol_of};

use crate::local::Local;
use arrayvec::ArrayVec;
use std::hash::{Hash, Hasher};
use std::marker::Model;

/// The most characters of a symbol.
pub(crate) const MAX_CHARACTERS: usize = 10;

/// An ordinary symbol (1.3.2), seen as its name in capitals: one to ten letters and digits, at least one of them a
/// letter, and no local symbol such as `2H`.
#[derive(Drop)]
pub struct Symbol {
    characters: ArrayVec<u8, MAX_CHARACTERS>,
}

impl Model for Symbol {
    ghost use Rattle.std.specs.Prelude.{ℕ, List, IsTrue};
    ghost use Rattle.mixal_text.specs.Symbol.{is_ordinary};

    ghost Value = { List ℕ };

    ghost view = { λ s. s.characters.items };

    ghost invariant = { λ s. IsTrue (is_ordinary s.characters.items) };

    ghost inverse = { λ name. record { characters = record { items = name } } };
}

impl Symbol {
    /// The symbol of this name, in either case of letters. None where a text is no ordinary symbol: empty, over ten
    /// bytes, all digits, a local symbol, or with a byte that is no letter and no digit.
    #[tactic(auto, using(crate::proofs::SymbolLemmas::long_text), unfolding(crate::specs::Symbol::symbol_of))]
    pub fn of(name: &[u8]) -> Option<Symbol>
        ensures { result ≡ symbol_of name.now }
    {
        let mut characters = ArrayVec::new();
        if characters.try_extend_from_slice(name).is_err() {
            return None;
        }
        characters.make_ascii_uppercase();
        if is_ordinary(characters.as_slice()) {
            Some(Symbol { characters })
        } else {
            None
        }
    }

    /// The same symbol once more. It takes no memory.
    pub fn copied(&self) -> Symbol
        ensures { result ≡ self.now }
    {
        let mut characters = ArrayVec::new();
        characters
            .try_extend_from_slice(&self.characters[..])
            .unwrap();
        Symbol { characters }
    }

    /// The name, in capitals.
    pub fn name(&self) -> &[u8]
        ensures is { result.now ≡ self.now }
        ensures ordinary { IsTrue (is_ordinary result.now) }
    {
        &self.characters[..]
    }
}

#[tactic(auto, unfolding(crate::specs::Symbol::is_ordinary))]
fn is_ordinary(name: &[u8]) -> bool
    ensures { result ≡ is_ordinary name.now }
{
    name.len() <= MAX_CHARACTERS
        && has_letters_and_digits(name)
        && has_letter(name)
        && Local::of(name).is_none()
}

fn has_letters_and_digits(name: &[u8]) -> bool
    ensures { result ≡ list_all is_capital_or_digit name.now }
{
    name.iter()
        .all(|byte| byte.is_ascii_uppercase() || byte.is_ascii_digit())
}

fn has_letter(name: &[u8]) -> bool
    ensures { result ≡ list_any is_ascii_uppercase name.now }
{
    name.iter().any(|byte| byte.is_ascii_uppercase())
}

impl PartialEq for Symbol {
    ghost eq = { pointwise nat_eq };

    ghost laws = { partial_equiv_from_equiv nat_list_eq_equiv };

    fn eq(&self, other: &Self) -> bool {
        self.name() == other.name()
    }
}

impl Eq for Symbol {
    ghost laws = { nat_list_eq_equiv };
}

impl Hash for Symbol {
    ghost hash_input = { fed.slice fed.u8 };

    ghost use Rattle.std.specs.Cmp.Rules.{hashing};
    ghost use Rattle.std.proofs.Common.{rules};

    ghost respects_eq = { Prim.search (hashing, rules) };

    fn hash<H: Hasher>(&self, state: &mut H) {
        self.name().hash(state);
    }
}

//! What names mean in the ADDRESS of a line (1.3.2).
ghost use Rattle.std.specs.Prelude.{◌≡◌};
ghost use Rattle.mixal_asm.specs.declared.key.Key.TheVariants.{Name};
ghost use Rattle.mixal_asm.specs.Draft.{own_local};

use crate::key::Key;
use crate::names::NameTable;
use mix_word::Word;
use mixal_text::{Label, Names, Symbol};

/// The digit d of a line whose LOC is dH, and the value of the dH before it, which dB means there.
#[derive(Clone, Copy)]
pub(crate) struct OwnLocal {
    pub digit: u8,
    pub back: Option<Word>,
}

/// The names of a line: a symbol is known from its own line on, a dH only after it.
#[derive(Drop)]
pub(crate) struct Scope<'a> {
    pub names: &'a NameTable,
    pub own: Option<OwnLocal>,
}

impl<'a> Names for Scope<'a> {
    ghost use Rattle.mixal_asm.specs.Draft.{scope_value};

    ghost names = { λ s. scope_value s.names.now s.own };

    fn value(&self, symbol: &Symbol) -> Option<Word> {
        self.names.value(&Key::Name(symbol.copied()))
    }

    fn back(&self, digit: u8) -> Option<Word> {
        match self.own {
            Some(own) if own.digit == digit => own.back,
            _ => self.names.back(digit),
        }
    }
}

/// What dB means on a line with this LOC, where it is dH.
pub(crate) fn own_local(names: &NameTable, loc: &Option<Label>) -> Option<OwnLocal>
    ensures { result ≡ own_local names.now loc.now }
{
    match loc {
        Some(Label::Local(d)) => Some(OwnLocal {
            digit: *d,
            back: names.back(*d),
        }),
        Some(Label::Name(_)) | None => None,
    }
}

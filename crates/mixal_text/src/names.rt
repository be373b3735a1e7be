//! What names mean where an expression stands.
ghost use Rattle.std.specs.Prelude.{◌≡◌};
ghost use Rattle.mixal_text.specs.Names.{NamesValue};

use crate::symbol::Symbol;
use mix_word::Word;

/// The values of the names that an expression may use (1.3.2).
pub trait Names {
    ghost names: { Self → NamesValue };

    /// The value of a symbol, or none where it is not defined yet.
    fn value(&self, symbol: &Symbol) -> Option<Word>
        ensures { result ≡ (names self.now).value symbol.now };

    /// The value of dB, which is that of the closest earlier dH, or none where there is none. The digit is 0 to 9.
    fn back(&self, digit: u8) -> Option<Word>
        ensures { result ≡ (names self.now).back digit };
}

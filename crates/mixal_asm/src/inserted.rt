//! The lines that are inserted before END (1.3.2): the literals, and the symbols that no LOC defines.
ghost use Rattle.std.specs.Prelude.{◌≡◌, ℕ, List, ◌+◌, ◌<◌, drop, ◌||◌, [], ◌∷◌, ◌++◌, false, slice_get, option_copied, Some, None, Ok, Err, OnOk};
ghost use Rattle.mix_refused.specs.Refused.{IfFault};
ghost use Rattle.mix_word.specs.Word.{plus};
ghost use Rattle.mixal_asm.specs.declared.key.Key.TheVariants.{Name, Literal};
ghost use Rattle.mixal_asm.specs.PassOne.{value_of, is_defined, is_taken};
ghost use Rattle.mixal_asm.specs.Assembly.{literal_line, literal_lines, zero_line, zero_line_for, zero_lines, is_own, first_uses};

use crate::draft::Draft;
use crate::fault::AsmKind;
use crate::key::Key;
use crate::row::Source;
use mix_refused::Refused;
use mix_word::Word;
use mixal_text::{Label, Symbol};

// Whether a symbol is this LOC.
fn is_own(loc: &Option<Label>, symbol: &Symbol) -> bool
    ensures { result ≡ is_own loc.now symbol.now }
{
    match loc {
        Some(Label::Name(name)) => name == symbol,
        Some(Label::Local(_)) | None => false,
    }
}

impl<'s> Draft<'s> {
    ghost use Rattle.mixal_asm.specs.Draft.{HasNoLiteral};

    // A literal of this number, as a CON line at the location.
    fn literal_line(&mut self, j: usize, text: &'s [u8]) -> Result<(), Refused<AsmKind>>
        requires { value_of self.old.names (Literal j) ≡ None }
        ensures ok { OnOk result (literal_line self.old j text.now ≡ Ok self.new) }
        ensures fault { IfFault result (λ kind. literal_line self.old j text.now ≡ Err kind) }
        ensures names { OnOk result (self.new.names ≡ self.old.names ++ (Literal j, plus self.old.here) ∷ []) }
        ensures literals { OnOk result (self.new.literals ≡ self.old.literals) }
        ensures uses { OnOk result (first_uses self.new.emitted ≡ first_uses self.old.emitted) }
        ensures others { (symbol : List ℕ) → OnOk result (value_of self.new.names (Name symbol) ≡ value_of self.old.names (Name symbol)) }
    {
        let count = self.word_count();
        let value = self.read_literal(j, text)?;
        self.define(Key::Literal(j), self.here_word())?;
        self.emit_shown(Source::Literal(self.kept(text)?), count, value)
    }

    // A symbol that no LOC defines, as a line NAME CON 0 at the location.
    fn zero_line(&mut self, symbol: Symbol) -> Result<(), Refused<AsmKind>>
        requires { is_defined self.old.names (Name symbol) ≡ false }
        ensures ok { OnOk result (zero_line self.old symbol ≡ Ok self.new) }
        ensures fault { IfFault result (λ kind. zero_line self.old symbol ≡ Err kind) }
        ensures names { OnOk result (self.new.names ≡ self.old.names ++ (Name symbol, plus self.old.here) ∷ []) }
        ensures uses { OnOk result (first_uses self.new.emitted ≡ first_uses self.old.emitted) }
    {
        let count = self.word_count();
        self.define(Key::Name(symbol.copied()), self.here_word())?;
        self.emit_shown(Source::Name(symbol), count, Word::ZERO)
    }

    fn zero_line_for(&mut self, loc: &Option<Label>, name: Key) -> Result<(), Refused<AsmKind>>
        ensures ok { OnOk result (zero_line_for loc.now self.old name ≡ Ok self.new) }
        ensures fault { IfFault result (λ kind. zero_line_for loc.now self.old name ≡ Err kind) }
        ensures uses { OnOk result (first_uses self.new.emitted ≡ first_uses self.old.emitted) }
        ensures untaken { is_taken self.old.names loc.now ≡ false → OnOk result (is_taken self.new.names loc.now ≡ false) }
    {
        match name {
            Key::Name(symbol) => self.zero_line_unless(loc, symbol),
            Key::Local(..) | Key::Literal(_) => Ok(()),
        }
    }

    fn zero_line_unless(
        &mut self,
        loc: &Option<Label>,
        symbol: Symbol,
    ) -> Result<(), Refused<AsmKind>>
        ensures ok { OnOk result (zero_line_for loc.now self.old (Name symbol) ≡ Ok self.new) }
        ensures fault { IfFault result (λ kind. zero_line_for loc.now self.old (Name symbol) ≡ Err kind) }
        ensures uses { OnOk result (first_uses self.new.emitted ≡ first_uses self.old.emitted) }
        ensures untaken { is_taken self.old.names loc.now ≡ false → OnOk result (is_taken self.new.names loc.now ≡ false) }
    {
        if self.is_known(loc, &symbol) {
            Ok(())
        } else {
            self.zero_line(symbol)
        }
    }

    // Whether a symbol has a value, or gets one from this LOC.
    fn is_known(&self, loc: &Option<Label>, symbol: &Symbol) -> bool
        ensures { result ≡ (is_defined self.now.names (Name symbol.now) || is_own loc.now symbol.now) }
    {
        self.names.value(&Key::Name(symbol.copied())).is_some() || is_own(loc, symbol)
    }

    /// The name of this number among those that words wait for, in the order of first use.
    pub(crate) fn use_at(&self, i: usize) -> Option<Key>
        ensures { result ≡ slice_get (first_uses self.now.emitted) i }
    {
        match self.words.use_at(i) {
            Some(name) => Some(name.copied()),
            None => None,
        }
    }

    // The literal of this number, as a line, if there is one.
    fn literal_at(&mut self, j: usize) -> Result<(), Refused<AsmKind>>
        requires { value_of self.old.names (Literal j) ≡ None }
        ensures ok { OnOk result (literal_lines self.old j (drop j self.old.literals) ≡ literal_lines self.new (j + 1) (drop (j + 1) self.new.literals)) }
        ensures fault { IfFault result (λ kind. literal_lines self.old j (drop j self.old.literals) ≡ Err kind) }
        ensures fresh { OnOk result ((k : ℕ) → j < k → value_of self.old.names (Literal k) ≡ None → value_of self.new.names (Literal k) ≡ None) }
        ensures literals { OnOk result (self.new.literals ≡ self.old.literals) }
        ensures uses { OnOk result (first_uses self.new.emitted ≡ first_uses self.old.emitted) }
        ensures others { (symbol : List ℕ) → OnOk result (value_of self.new.names (Name symbol) ≡ value_of self.old.names (Name symbol)) }
    {
        match self.literal(j) {
            Some(text) => self.literal_line(j, text),
            None => Ok(()),
        }
    }

    fn literal(&self, j: usize) -> Option<&'s [u8]>
        ensures { option_copied result ≡ slice_get self.now.literals j }
    {
        self.literals.get(j).copied()
    }

    // The line of the symbol that is the name of this number, if there is one.
    fn zero_line_at(&mut self, loc: &Option<Label>, i: usize) -> Result<(), Refused<AsmKind>>
        ensures ok { OnOk result (zero_lines loc.now self.old (drop i (first_uses self.old.emitted)) ≡ zero_lines loc.now self.new (drop (i + 1) (first_uses self.new.emitted))) }
        ensures fault { IfFault result (λ kind. zero_lines loc.now self.old (drop i (first_uses self.old.emitted)) ≡ Err kind) }
        ensures uses { OnOk result (first_uses self.new.emitted ≡ first_uses self.old.emitted) }
        ensures untaken { is_taken self.old.names loc.now ≡ false → OnOk result (is_taken self.new.names loc.now ≡ false) }
    {
        match self.use_at(i) {
            Some(name) => self.zero_line_for(loc, name),
            None => Ok(()),
        }
    }

    // The literals in the order of their use.
    pub(crate) fn insert_literals(&mut self) -> Result<(), Refused<AsmKind>>
        requires { HasNoLiteral self.old.names }
        ensures ok { OnOk result (literal_lines self.old 0 self.old.literals ≡ Ok self.new) }
        ensures fault { IfFault result (λ kind. literal_lines self.old 0 self.old.literals ≡ Err kind) }
        ensures uses { OnOk result (first_uses self.new.emitted ≡ first_uses self.old.emitted) }
        ensures others { (symbol : List ℕ) → OnOk result (value_of self.new.names (Name symbol) ≡ value_of self.old.names (Name symbol)) }
    {
        for j in 0..self.literals.len() {
            self.literal_at(j)?;
        }
        Ok(())
    }

    // The undefined symbols in the order of their first use.
    pub(crate) fn insert_zeros(&mut self, loc: &Option<Label>) -> Result<(), Refused<AsmKind>>
        ensures ok { OnOk result (zero_lines loc.now self.old (first_uses self.old.emitted) ≡ Ok self.new) }
        ensures fault { IfFault result (λ kind. zero_lines loc.now self.old (first_uses self.old.emitted) ≡ Err kind) }
        ensures untaken { is_taken self.old.names loc.now ≡ false → OnOk result (is_taken self.new.names loc.now ≡ false) }
    {
        for i in 0..self.words.use_count() {
            self.zero_line_at(loc, i)?;
        }
        Ok(())
    }
}

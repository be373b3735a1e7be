//! The lines of a source but END, by OP (1.3.2).
ghost use Rattle.std.specs.Prelude.{◌≡◌, ◌<◌, ◌≤◌, ◌++◌, [], ◌∷◌, length, map, false, Some, None, Ok, Err, OnOk, IfOk};
ghost use Rattle.mix_refused.specs.Refused.{IfFault};
ghost use Rattle.mix_word.specs.declared.word.Sign.TheVariants.{Plus};
ghost use Rattle.mix_word.specs.Word.{number_of, word_of_parts};
ghost use Rattle.mixal_text.specs.Address.{value_of_a_part};
ghost use Rattle.mixal_asm.specs.declared.key.Key.TheVariants.{Literal};
ghost use Rattle.mixal_asm.specs.PassOne.{with_word, with_instruction, is_taken, machine_line, equ_line, orig_line, con_line, alf_line, location_of, instruction};

use crate::draft::Draft;
use crate::fault::AsmKind;
use crate::key::Key;
use crate::row::{Shows, Source};
use crate::words::with_address;
use mix_refused::Refused;
use mix_word::{Parts, Sign, Word};
use mixal_text::{APart, Label, Op};

/// An instruction whose address is +0 so far.
fn instruction_word(code: u8, index: u8, f: u8) -> Word
    requires index { index < 64 }
    requires f { f < 64 }
    requires code { code < 64 }
    ensures { result ≡ word_of_parts (record { sign = Plus; address = 0; index = index; f = f; code = code }) }
{
    Word::join(Parts {
        sign: Sign::Plus,
        address: 0,
        index,
        f,
        code,
    })
}

// The location that ORIG sets.
fn location_of(value: Word) -> Result<u16, AsmKind>
    ensures is { result ≡ location_of value }
    ensures bound { IfOk result (λ here. here ≤ 4000) }
{
    match value.natural() {
        Some(number) if number <= 4000 => Ok(number as u16),
        _ => Err(AsmKind::LocationOutOfRange),
    }
}

impl<'s> Draft<'s> {
    ghost use Rattle.mixal_asm.specs.Row.{source_value};
    ghost use Rattle.mixal_asm.specs.Draft.{IsDue, HasNoLiteral, shown_word};

    // An instruction that uses a literal.
    fn emit_literal(&mut self, word: Word, text: &'s [u8]) -> Result<(), Refused<AsmKind>>
        requires { HasNoLiteral self.old.names }
        ensures ok { OnOk result (with_word (record self.old { literals = self.old.literals ++ text.now ∷ [] }) word (Some (Literal (length self.old.literals))) ≡ Ok self.new) }
        ensures fault { IfFault result (λ kind. with_word (record self.old { literals = self.old.literals ++ text.now ∷ [] }) word (Some (Literal (length self.old.literals))) ≡ Err kind) }
    {
        let name = Key::Literal(self.literals.len());
        self.literals.push(text)?;
        self.emit(word, Some(name))
    }

    // An instruction by its A-part.
    fn emit_instruction(&mut self, word: Word, a: APart<'s>) -> Result<(), Refused<AsmKind>>
        requires due { IsDue self.old.names (value_of_a_part a) }
        requires unplaced { HasNoLiteral self.old.names }
        ensures ok { OnOk result (with_instruction self.old word (value_of_a_part a.entry) ≡ Ok self.new) }
        ensures fault { IfFault result (λ kind. with_instruction self.old word (value_of_a_part a.entry) ≡ Err kind) }
    {
        match a {
            APart::Value(value) => {
                if value.magnitude() >= 4096 {
                    return Err(Refused::Fault(AsmKind::AddressTooLarge));
                }
                self.emit(with_address(word, value), None)
            }
            APart::Name(symbol) => self.emit(word, Some(Key::Name(symbol))),
            APart::Ahead(d) => {
                let name = self.names.next_local(d);
                self.emit(word, Some(name))
            }
            APart::Literal(text) => self.emit_literal(word, text),
        }
    }

    /// A complete word, of this number among the words, and the row of its line.
    pub(crate) fn emit_shown(
        &mut self,
        source: Source,
        count: usize,
        word: Word,
    ) -> Result<(), Refused<AsmKind>>
        ensures ok { OnOk result (shown_word (source_value source) count (with_word self.old word None) ≡ Ok self.new) }
        ensures fault { IfFault result (λ kind. shown_word (source_value source) count (with_word self.old word None) ≡ Err kind) }
        ensures names { OnOk result (self.new.names ≡ self.old.names) }
        ensures literals { OnOk result (self.new.literals ≡ self.old.literals) }
        ensures emitted { OnOk result (self.new.emitted ≡ self.old.emitted ++ record { place = self.old.here; word = word; awaits = None } ∷ []) }
    {
        self.emit(word, None)?;
        self.add_row(source, Shows::Word(count))?;
        Ok(())
    }

    // The same of an instruction by its A-part.
    fn instruction_shown(
        &mut self,
        source: Source,
        count: usize,
        word: Word,
        a: APart<'s>,
    ) -> Result<(), Refused<AsmKind>>
        requires due { IsDue self.old.names (value_of_a_part a) }
        requires unplaced { HasNoLiteral self.old.names }
        ensures ok { OnOk result (shown_word (source_value source) count (with_instruction self.old word (value_of_a_part a.entry)) ≡ Ok self.new) }
        ensures fault { IfFault result (λ kind. shown_word (source_value source) count (with_instruction self.old word (value_of_a_part a.entry)) ≡ Err kind) }
    {
        self.emit_instruction(word, a)?;
        self.add_row(source, Shows::Word(count))?;
        Ok(())
    }

    /// An instruction, whose code and normal F are bytes.
    #[tactic(auto, unfolding(crate::specs::PassOne::machine_line))]
    pub(crate) fn machine_line(
        &mut self,
        text: &[u8],
        loc: &Option<Label>,
        code: u8,
        f: u8,
        address: &'s [u8],
    ) -> Result<(), Refused<AsmKind>>
        requires lines { length self.old.rows < 20000 }
        requires untaken { is_taken self.old.names loc.now ≡ false }
        requires unplaced { HasNoLiteral self.old.names }
        requires code { code < 64 }
        requires f { f < 64 }
        ensures ok { OnOk result (machine_line self.old text.now loc.now code f address.now ≡ Ok self.new) }
        ensures fault { IfFault result (λ kind. machine_line self.old text.now loc.now code f address.now ≡ Err kind) }
    {
        let number = self.number();
        let count = self.word_count();
        let own = self.label(loc, self.here_word())?;
        let operand = self.read_operand(own, Op::Machine { code, f }, text, address)?;
        let word = instruction_word(code, operand.index, operand.f);
        self.instruction_shown(
            Source::Line(number, self.kept(text)?),
            count,
            word,
            operand.a,
        )
    }

    /// EQU: its LOC gets the W-value.
    #[tactic(auto, unfolding(crate::specs::PassOne::equ_line))]
    pub(crate) fn equ_line(
        &mut self,
        text: &[u8],
        loc: &Option<Label>,
        address: &[u8],
    ) -> Result<(), Refused<AsmKind>>
        requires lines { length self.old.rows < 20000 }
        requires untaken { is_taken self.old.names loc.now ≡ false }
        ensures ok { OnOk result (equ_line self.old text.now loc.now address.now ≡ Ok self.new) }
        ensures fault { IfFault result (λ kind. equ_line self.old text.now loc.now address.now ≡ Err kind) }
    {
        let number = self.number();
        let value = self.read_value(None, text, address)?;
        self.label(loc, value)?;
        self.add_row(Source::Line(number, self.kept(text)?), Shows::Value(value))?;
        Ok(())
    }

    /// ORIG: the location becomes the number of the W-value, 0 to 4000, or else A11.
    #[tactic(auto, unfolding(crate::specs::PassOne::orig_line))]
    pub(crate) fn orig_line(
        &mut self,
        text: &[u8],
        loc: &Option<Label>,
        address: &[u8],
    ) -> Result<(), Refused<AsmKind>>
        requires lines { length self.old.rows < 20000 }
        requires untaken { is_taken self.old.names loc.now ≡ false }
        ensures ok { OnOk result (orig_line self.old text.now loc.now address.now ≡ Ok self.new) }
        ensures fault { IfFault result (λ kind. orig_line self.old text.now loc.now address.now ≡ Err kind) }
    {
        let number = self.number();
        let own = self.label(loc, self.here_word())?;
        let value = self.read_value(own, text, address)?;
        let here = location_of(value)?;
        self.go_to(here);
        self.add_row(Source::Line(number, self.kept(text)?), Shows::Nothing)?;
        Ok(())
    }

    /// CON: a word at the location.
    #[tactic(auto, unfolding(crate::specs::PassOne::con_line))]
    pub(crate) fn con_line(
        &mut self,
        text: &[u8],
        loc: &Option<Label>,
        address: &[u8],
    ) -> Result<(), Refused<AsmKind>>
        requires lines { length self.old.rows < 20000 }
        requires untaken { is_taken self.old.names loc.now ≡ false }
        ensures ok { OnOk result (con_line self.old text.now loc.now address.now ≡ Ok self.new) }
        ensures fault { IfFault result (λ kind. con_line self.old text.now loc.now address.now ≡ Err kind) }
    {
        let number = self.number();
        let count = self.word_count();
        let own = self.label(loc, self.here_word())?;
        let value = self.read_value(own, text, address)?;
        self.emit_shown(Source::Line(number, self.kept(text)?), count, value)
    }

    /// ALF: the word of five characters at the location.
    #[tactic(auto, unfolding(crate::specs::PassOne::alf_line))]
    pub(crate) fn alf_line(
        &mut self,
        text: &[u8],
        loc: &Option<Label>,
        word: Word,
    ) -> Result<(), Refused<AsmKind>>
        requires lines { length self.old.rows < 20000 }
        requires untaken { is_taken self.old.names loc.now ≡ false }
        ensures ok { OnOk result (alf_line self.old text.now loc.now word ≡ Ok self.new) }
        ensures fault { IfFault result (λ kind. alf_line self.old text.now loc.now word ≡ Err kind) }
    {
        let number = self.number();
        let count = self.word_count();
        self.label(loc, self.here_word())?;
        self.emit_shown(Source::Line(number, self.kept(text)?), count, word)
    }
}

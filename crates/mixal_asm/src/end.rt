//! END (1.3.2): its LOC, its ADDRESS, and the program.
ghost use Rattle.std.specs.Prelude.{◌≡◌, ◌<◌, slice_get, false, length, Ok, Err, IfOk, MatchResult};
ghost use Rattle.mix_word.specs.Word.{plus};
ghost use Rattle.mix_refused.specs.Refused.{IfFault};
ghost use Rattle.mixal_asm.specs.PassOne.{is_taken};
ghost use Rattle.mixal_asm.specs.Assembly.{is_unmet, first_unmet, met, program_at, end_value, start_of, first_uses, inserted, ended, end_line};

use crate::draft::Draft;
use crate::fault::AsmKind;
use crate::index::Index;
use crate::key::Key;
use crate::program::Program;
use crate::row::{Shows, Source};
use crate::scope::OwnLocal;
use mix_refused::{Memory, Refused};
use mix_word::{Place, Word};
use mixal_text::{Label, Misread, Span, TextFault};
use std::alloc::Global;

// The start, which is 0 to 3999, or else A15.
fn start_of(value: Word) -> Result<Place, AsmKind>
    ensures { result ≡ start_of value }
{
    match Place::of((value.magnitude() % 4096) as u16) {
        Some(start) => Ok(start),
        None => Err(AsmKind::StartOutOfRange),
    }
}

impl<'s> Draft<'s> {
    ghost use Rattle.mixal_asm.specs.Draft.{HasNoLiteral, scope_value, passes};

    // The value of the ADDRESS of END, which is 0 where it is left out.
    fn read_end(&self, own: Option<OwnLocal>, line: &[u8], address: &[u8]) -> Result<Word, AsmKind>
        ensures { result ≡ end_value (scope_value self.now.names own) (plus self.now.here) line.now address.now }
    {
        if address.is_empty() {
            Ok(Word::ZERO)
        } else {
            self.read_value(own, line, address)
        }
    }

    /// END, by its LOC and its ADDRESS: the lines that are inserted before it, its LOC and its row. It answers the start of the program.
    #[tactic(auto, unfolding(crate::specs::Assembly::end_line, crate::specs::Assembly::inserted))]
    pub(crate) fn end_line(
        &mut self,
        text: &[u8],
        loc: &Option<Label>,
        address: &[u8],
    ) -> Result<Place, Refused<AsmKind>>
        requires lines { length self.old.rows < 20000 }
        requires untaken { is_taken self.old.names loc.now ≡ false }
        requires unplaced { HasNoLiteral self.old.names }
        ensures ok { IfOk result (λ start. end_line self.old text.now loc.now address.now ≡ Ok (program_at self.new start)) }
        ensures fault { IfFault result (λ kind. end_line self.old text.now loc.now address.now ≡ Err kind) }
    {
        let number = self.number();
        self.insert_literals()?;
        self.insert_zeros(loc)?;
        self.ended(number, text, loc, address)
    }

    // The rest of END, where those lines are inserted.
    #[tactic(auto, unfolding(crate::specs::Assembly::ended))]
    fn ended(
        &mut self,
        number: u32,
        text: &[u8],
        loc: &Option<Label>,
        address: &[u8],
    ) -> Result<Place, Refused<AsmKind>>
        requires { is_taken self.old.names loc.now ≡ false }
        ensures ok { IfOk result (λ start. ended self.old number text.now loc.now address.now ≡ Ok (program_at self.new start)) }
        ensures fault { IfFault result (λ kind. ended self.old number text.now loc.now address.now ≡ Err kind) }
    {
        self.meet(loc)?;
        let own = self.label(loc, self.here_word())?;
        let value = self.read_end(own, text, address)?;
        let start = start_of(value)?;
        self.add_row(Source::Line(number, self.kept(text)?), Shows::Start)?;
        Ok(start)
    }

    // A dF that meets no dH, that of END included, is at fault where it is used first.
    fn meet(&self, loc: &Option<Label>) -> Result<(), AsmKind>
        ensures { MatchResult result
            (λ _. met self.now (first_unmet self.now loc.now) ≡ Ok self.now)
            (λ kind. met self.now (first_unmet self.now loc.now) ≡ Err kind) }
    {
        match self.first_unmet(loc) {
            None => Ok(()),
            Some(name) => Err(self.at_use(
                &name,
                Misread {
                    fault: TextFault::NoSuchLocalSymbol,
                    at: Span { from: 0, to: 2 },
                },
            )),
        }
    }

    // The first dF that meets no dH, that of END included.
    fn first_unmet(&self, loc: &Option<Label>) -> Option<Key>
        ensures { result ≡ first_unmet self.now loc.now }
    {
        for i in 0..self.words.use_count() {
            if self.is_unmet_at(loc, i) {
                return self.use_at(i);
            }
        }
        None
    }

    // Whether the name of this number is such a dF.
    fn is_unmet_at(&self, loc: &Option<Label>, i: usize) -> bool
        ensures { result ≡ passes (is_unmet self.now.names loc.now) (slice_get (first_uses self.now.emitted) i) }
    {
        match self.words.use_at(i) {
            Some(name @ Key::Local(..)) if self.names.value(name).is_none() => match loc {
                Some(loc) => self.names.name_of(loc) != *name,
                None => true,
            },
            _ => false,
        }
    }

    /// The program of all lines.
    pub(crate) fn into_program(self, alloc: Global, start: Place) -> Result<Program, Memory>
        ensures { IfOk result (λ program. program ≡ program_at self.entry start) }
    {
        let words = self.words.placed(alloc)?;
        let patches = self.words.references();
        let index = Index::of(alloc, &words, &self.rows)?;
        Ok(Program {
            words,
            start,
            names: self.names,
            rows: self.rows,
            patches,
            index,
        })
    }
}

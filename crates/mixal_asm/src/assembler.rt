//! The assembler, one line at a time (1.3.2).
ghost use Rattle.std.specs.Prelude.{◌≡◌, ◌<◌, length, Ok, Err, IfOk};
ghost use Rattle.mix_refused.specs.Refused.{IfFault};
ghost use Rattle.mixal_text.specs.Line.{HasBytes, value_of_line};
ghost use Rattle.mixal_asm.specs.Prelude.{at_first, number_after, kind_span};
ghost use Rattle.mixal_asm.specs.Assembly.{answer_of, answer_of_line, waiting_in};
ghost use Rattle.mixal_asm.specs.Draft.{HasNoLiteral, IsReady, WaitsFor, answer_at};
ghost use Rattle.mixal_asm.specs.Fed.{answer_of_fed};

use crate::draft::Draft;
use crate::fault::{AsmFault, AsmKind};
use crate::fed::Fed;
use mix_refused::Refused;
use mix_word::Place;
use mixal_text::{Line, read_line};
use std::alloc::Global;
use std::marker::Model;

/// The assembler of one source (1.3.2), seen as what the lines so far give. It goes once over the lines: a word whose address is
/// not known yet waits for its name, and is finished where the name gets its value.
#[derive(Drop)]
pub struct Assembler<'s> {
    draft: Draft<'s>,
    alloc: Global,
}

impl<'s> Model for Assembler<'s> {
    ghost use Rattle.mixal_asm.specs.PassOne.{Before};

    ghost Value = { Before };

    ghost use Rattle.mixal_asm.specs.Draft.{IsReady};

    ghost view = { λ a. a.draft };

    ghost invariant = { λ a. IsReady a.draft };
}

impl<'s> Assembler<'s> {
    /// An assembler before the first line. It takes no memory.
    pub fn new(alloc: Global) -> Assembler<'s>
        ensures { result ≡ at_first }
    {
        Assembler {
            draft: Draft::new(alloc),
            alloc,
        }
    }

    /// Hands in the next line, without its line end (1.3.2). The answer is the assembler for the line after it or, at END, the
    /// program. The first fault of the line is reported with its number: A1 to A12, A14 and A15, and A16 for line 20,001. A
    /// refusal drops the assembler.
    pub fn line(self, text: &'s [u8]) -> Result<Fed<'s>, Refused<AsmFault>>
        ensures ok { IfOk result (λ fed. answer_of self.entry text.now ≡ Ok (answer_of_fed fed)) }
        ensures fault { IfFault result (λ fault. (fault.line ≡ number_after self.entry) × ((fault.at ≡ kind_span text.now fault.kind) × (answer_of self.entry text.now ≡ Err fault.kind))) }
    {
        let alloc = self.alloc;
        let mut draft = self.draft;
        match add_line(&mut draft, text)? {
            None => Ok(Fed::More(Assembler { draft, alloc })),
            Some(start) => Ok(Fed::Done(draft.into_program(alloc, start)?)),
        }
    }

    /// How many future references so far no line has defined yet (1.3.2): literals are none. It takes no memory.
    pub fn waiting(&self) -> usize
        ensures { result ≡ waiting_in self.now }
    {
        self.draft.waiting()
    }
}

/// What a line gives: the lines so far with it and, at END, the start of their program; or its fault with its number.
pub(crate) fn add_line<'s>(
    draft: &mut Draft<'s>,
    text: &'s [u8],
) -> Result<Option<Place>, Refused<AsmFault>>
    requires { IsReady draft.old }
    ensures ok { IfOk result (λ end. answer_of draft.old text.now ≡ Ok (answer_at draft.new end)) }
    ensures fault { IfFault result (λ fault. (fault.line ≡ number_after draft.old) × ((fault.at ≡ kind_span text.now fault.kind) × (answer_of draft.old text.now ≡ Err fault.kind))) }
    ensures ready { IfOk result (λ end. WaitsFor end draft.new) }
{
    let number = draft.number();
    match answer(draft, text) {
        Ok(end) => Ok(end),
        Err(Refused::Fault(kind)) => Err(Refused::Fault(AsmFault::of(number, text, kind))),
        Err(Refused::Memory) => Err(Refused::Memory),
    }
}

/// The same without the number of the line.
#[tactic(auto, unfolding(crate::specs::Assembly::answer_of))]
pub(crate) fn answer<'s>(
    draft: &mut Draft<'s>,
    text: &'s [u8],
) -> Result<Option<Place>, Refused<AsmKind>>
    requires { HasNoLiteral draft.old.names }
    ensures ok { IfOk result (λ end. answer_of draft.old text.now ≡ Ok (answer_at draft.new end)) }
    ensures fault { IfFault result (λ kind. answer_of draft.old text.now ≡ Err kind) }
    ensures ready { IfOk result (λ end. WaitsFor end draft.new) }
{
    if draft.is_full() {
        return Err(Refused::Fault(AsmKind::SourceTooLong));
    }
    match read_line(text) {
        Ok(line) => answer_line(draft, text, line),
        Err(misread) => Err(Refused::Fault(AsmKind::Text(misread))),
    }
}

/// A line that was read. A symbol that has a value already is A4.
pub(crate) fn answer_line<'s>(
    draft: &mut Draft<'s>,
    text: &'s [u8],
    line: Line<'s>,
) -> Result<Option<Place>, Refused<AsmKind>>
    requires lines { length draft.old.rows < 20000 }
    requires unplaced { HasNoLiteral draft.old.names }
    requires bytes { HasBytes line }
    ensures ok { IfOk result (λ end. answer_of_line draft.old text.now (value_of_line line.entry) ≡ Ok (answer_at draft.new end)) }
    ensures fault { IfFault result (λ kind. answer_of_line draft.old text.now (value_of_line line.entry) ≡ Err kind) }
    ensures ready { IfOk result (λ end. WaitsFor end draft.new) }
{
    match line {
        Line::Remark => {
            draft.remark(text)?;
            Ok(None)
        }
        Line::Code { loc, op, address } => {
            if draft.is_taken(&loc) {
                return Err(Refused::Fault(AsmKind::DefinedTwice));
            }
            draft.code_line(text, &loc, op, address)
        }
    }
}

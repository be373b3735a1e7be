//! A line of the source by its OP (1.3.2).
ghost use Rattle.std.specs.Prelude.{◌≡◌, ◌<◌, nat_le, false, length, Ok, Err, OnOk, IfOk};
ghost use Rattle.mix_refused.specs.Refused.{IfFault};
ghost use Rattle.mixal_text.specs.Line.{IsOfBytes};
ghost use Rattle.mixal_asm.specs.PassOne.{is_taken, with_line, number_after};
ghost use Rattle.mixal_asm.specs.declared.row.Shows.TheVariants.{Nothing};
ghost use Rattle.mixal_asm.specs.Assembly.{max_lines, answer_of_op, waiting_in};

use crate::draft::Draft;
use crate::fault::AsmKind;
use crate::key::Key;
use crate::row::{Shows, Source};
use mix_refused::{Memory, Refused};
use mix_word::Place;
use mixal_text::{Label, Op};

/// The most lines that a source may have.
const MAX_LINES: usize = 20_000;

impl<'s> Draft<'s> {
    ghost use Rattle.mixal_asm.specs.Draft.{HasNoLiteral, WaitsFor, answer_at};

    /// Whether a LOC is a symbol that has a value already.
    pub(crate) fn is_taken(&self, loc: &Option<Label>) -> bool
        ensures { result ≡ is_taken self.now.names loc.now }
    {
        match loc {
            Some(Label::Name(symbol)) => self.names.value(&Key::Name(symbol.copied())).is_some(),
            Some(Label::Local(_)) | None => false,
        }
    }

    /// Whether there are as many lines as a source may have.
    pub(crate) fn is_full(&self) -> bool
        ensures { result ≡ nat_le max_lines (length self.now.rows) }
    {
        self.rows.len() >= MAX_LINES
    }

    /// How many future references no line has defined yet.
    pub(crate) fn waiting(&self) -> usize
        ensures { result ≡ waiting_in self.now }
    {
        self.words.waiting(&self.names)
    }

    /// A remark: its row alone.
    pub(crate) fn remark(&mut self, text: &[u8]) -> Result<(), Memory>
        requires { length self.old.rows < 20000 }
        ensures { OnOk result (self.new ≡ with_line self.old (number_after self.old) text.now Nothing) }
    {
        let number = self.number();
        self.add_row(Source::Line(number, self.kept(text)?), Shows::Nothing)
    }

    /// A line by its OP. At END it answers the start of the program.
    pub(crate) fn code_line(
        &mut self,
        text: &[u8],
        loc: &Option<Label>,
        op: Op,
        address: &'s [u8],
    ) -> Result<Option<Place>, Refused<AsmKind>>
        requires bytes { IsOfBytes op }
        requires lines { length self.old.rows < 20000 }
        requires untaken { is_taken self.old.names loc.now ≡ false }
        requires unplaced { HasNoLiteral self.old.names }
        ensures ok { IfOk result (λ end. answer_of_op self.old text.now loc.now op address.now ≡ Ok (answer_at self.new end)) }
        ensures fault { IfFault result (λ kind. answer_of_op self.old text.now loc.now op address.now ≡ Err kind) }
        ensures ready { IfOk result (λ end. WaitsFor end self.new) }
    {
        match op {
            Op::Machine { code, f } => self.machine_line(text, loc, code, f, address)?,
            Op::Equ => self.equ_line(text, loc, address)?,
            Op::Orig => self.orig_line(text, loc, address)?,
            Op::Con => self.con_line(text, loc, address)?,
            Op::Alf(word) => self.alf_line(text, loc, word)?,
            Op::End => return Ok(Some(self.end_line(text, loc, address)?)),
        }
        Ok(None)
    }
}

//! What the ADDRESS of a line says, by the names before it (1.3.2).
ghost use Rattle.std.specs.Prelude.{◌≡◌, ◌<◌, ◌≤◌, ◌-◌, ◌^◌, None, Ok, Err, IfOk, MatchResult};
ghost use Rattle.mix_word.specs.Word.{plus};
ghost use Rattle.mixal_text.specs.Address.{IsMachine, address_of, f_of, value_of_a_part, value_of_operand};
ghost use Rattle.mixal_text.specs.Prelude.{w_value_of, IsWithin};
ghost use Rattle.mixal_asm.specs.PassOne.{in_line, of_address};
ghost use Rattle.mixal_asm.specs.Assembly.{of_literal};
ghost use Rattle.mixal_asm.specs.User.{after_equals};

use crate::draft::Draft;
use crate::fault::AsmKind;
use crate::key::Key;
use crate::scope::{OwnLocal, Scope};
use mix_word::Word;
use mixal_text::{Misread, Op, Operand, Part, Span, part_span, w_value};

impl<'s> Draft<'s> {
    ghost use Rattle.mixal_asm.specs.Draft.{scope_value, IsDue};

    /// The W-value that the ADDRESS of a line says.
    pub(crate) fn read_value(
        &self,
        own: Option<OwnLocal>,
        line: &[u8],
        address: &[u8],
    ) -> Result<Word, AsmKind>
        ensures { result ≡ of_address line.now (w_value_of (scope_value self.now.names own) (plus self.now.here) address.now) }
    {
        let scope = Scope {
            names: &self.names,
            own,
        };
        match w_value(address, &scope, self.here_word()) {
            Ok(value) => Ok(value),
            Err(misread) => Err(AsmKind::Text(in_line(line, misread))),
        }
    }

    /// The W-value that the literal of this number says.
    pub(crate) fn read_literal(&self, j: usize, text: &[u8]) -> Result<Word, AsmKind>
        ensures { result ≡ of_literal self.now j (w_value_of (scope_value self.now.names None) (plus self.now.here) text.now) }
    {
        let scope = Scope {
            names: &self.names,
            own: None,
        };
        match w_value(text, &scope, self.here_word()) {
            Ok(value) => Ok(value),
            Err(misread) => Err(self.at_use(&Key::Literal(j), after_equals(misread))),
        }
    }

    /// The operand that the ADDRESS of a line with an instruction says.
    pub(crate) fn read_operand<'t>(
        &self,
        own: Option<OwnLocal>,
        op: Op,
        line: &[u8],
        address: &'t [u8],
    ) -> Result<Operand<'t>, AsmKind>
        requires { IsMachine op }
        ensures operand { MatchResult result
            (λ operand. of_address line.now (address_of (scope_value self.now.names own) (plus self.now.here) (f_of op) address.now) ≡ Ok (value_of_operand operand))
            (λ kind. of_address line.now (address_of (scope_value self.now.names own) (plus self.now.here) (f_of op) address.now) ≡ Err kind) }
        ensures index { IfOk result (λ operand. operand.index ≤ 6) }
        ensures f { f_of op < 64 → IfOk result (λ operand. operand.f < 64) }
        ensures due { IfOk result (λ operand. IsDue self.now.names (value_of_a_part operand.a)) }
    {
        let scope = Scope {
            names: &self.names,
            own,
        };
        match mixal_text::address(address, op, &scope, self.here_word()) {
            Ok(operand) => Ok(operand),
            Err(misread) => Err(AsmKind::Text(in_line(line, misread))),
        }
    }
}

/// What is at fault in the ADDRESS of a line, whose bytes are counted from the beginning of the line.
pub(crate) fn in_line(line: &[u8], misread: Misread) -> Misread
    requires { IsWithin 0 (2 ^ 63) misread.at }
    ensures { result ≡ in_line line.now misread }
{
    let start = part_span(line, Part::Address).from;
    Misread {
        fault: misread.fault,
        at: Span {
            from: start + misread.at.from,
            to: start + misread.at.to,
        },
    }
}

// What is at fault in a literal, whose bytes are counted from its equals sign.
fn after_equals(misread: Misread) -> Misread
    requires { IsWithin 0 (2 ^ 63 - 1) misread.at }
    ensures is { result ≡ after_equals misread }
    ensures within { IsWithin 0 (2 ^ 63) result.at }
{
    Misread {
        fault: misread.fault,
        at: Span {
            from: misread.at.from + 1,
            to: misread.at.to + 1,
        },
    }
}

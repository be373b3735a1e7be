//! What stands in the place of a line that was refused (1.3.2).
ghost use Rattle.std.specs.Prelude.{◌≡◌, ◌==◌, Ok, Err, IfOk};
ghost use Rattle.mix_refused.specs.Refused.{IfFault};
ghost use Rattle.mixal_text.specs.Line.{HasBytes, loc_of_line, value_of_line};
ghost use Rattle.mixal_asm.specs.Prelude.{number_after, kind_span};
ghost use Rattle.mixal_asm.specs.Draft.{HasNoLiteral, IsReady, WaitsFor, answer_at};
ghost use Rattle.mixal_asm.specs.Faults.{kept_loc, plain_line, mended_answer, is_mended, answer_with};

use crate::assembler::{answer, answer_line};
use crate::draft::Draft;
use crate::fault::{AsmFault, AsmKind};
use mix_refused::Refused;
use mix_word::Place;
use mixal_text::{Label, Line, Mnemonic, Op, TextFault, line_loc, line_op};

/// What a line gives, as `add_line` does, where the lines are mended at which a fault was told.
pub(crate) fn add_line_with<'s>(
    draft: &mut Draft<'s>,
    told: &[AsmFault],
    text: &'s [u8],
) -> Result<Option<Place>, Refused<AsmFault>>
    requires { IsReady draft.old }
    ensures ok { IfOk result (λ end. answer_with told.now draft.old text.now ≡ Ok (answer_at draft.new end)) }
    ensures fault { IfFault result (λ fault. (fault.line ≡ number_after draft.old) × ((fault.at ≡ kind_span text.now fault.kind) × (answer_with told.now draft.old text.now ≡ Err fault.kind))) }
    ensures ready { IfOk result (λ end. WaitsFor end draft.new) }
{
    let number = draft.number();
    match answer_with(draft, told, number, text) {
        Ok(end) => Ok(end),
        Err(Refused::Fault(kind)) => Err(Refused::Fault(AsmFault::of(number, text, kind))),
        Err(Refused::Memory) => Err(Refused::Memory),
    }
}

// The same without the number of the line.
#[tactic(auto, unfolding(crate::specs::Faults::answer_with))]
fn answer_with<'s>(
    draft: &mut Draft<'s>,
    told: &[AsmFault],
    number: u32,
    text: &'s [u8],
) -> Result<Option<Place>, Refused<AsmKind>>
    requires unplaced { HasNoLiteral draft.old.names }
    requires number { number ≡ number_after draft.old }
    ensures ok { IfOk result (λ end. answer_with told.now draft.old text.now ≡ Ok (answer_at draft.new end)) }
    ensures fault { IfFault result (λ kind. answer_with told.now draft.old text.now ≡ Err kind) }
    ensures ready { IfOk result (λ end. WaitsFor end draft.new) }
{
    if is_mended(told, number) {
        mended_answer(draft, text)
    } else {
        answer(draft, text)
    }
}

/// Whether a fault was told at a line.
pub(crate) fn is_mended(told: &[AsmFault], number: u32) -> bool
    ensures { result ≡ is_mended told.now number }
{
    told.iter().any(|fault| fault.line == number)
}

// What a mended line gives.
#[tactic(auto, unfolding(crate::specs::Faults::mended_answer))]
fn mended_answer<'s>(
    draft: &mut Draft<'s>,
    text: &'s [u8],
) -> Result<Option<Place>, Refused<AsmKind>>
    requires { HasNoLiteral draft.old.names }
    ensures ok { IfOk result (λ end. mended_answer draft.old text.now ≡ Ok (answer_at draft.new end)) }
    ensures fault { IfFault result (λ kind. mended_answer draft.old text.now ≡ Err kind) }
    ensures ready { IfOk result (λ end. WaitsFor end draft.new) }
{
    if draft.is_full() {
        return Err(Refused::Fault(AsmKind::SourceTooLong));
    }
    let line = plain_line(kept_loc(draft, text), line_op(text));
    answer_line(draft, text, line)
}

// Its LOC, if no line before has defined that.
fn kept_loc(draft: &Draft<'_>, text: &[u8]) -> Option<Label>
    ensures { result ≡ kept_loc draft.now.names (loc_of_line text.now) }
{
    match line_loc(text) {
        Ok(loc) => { if draft.is_taken(&loc) { None } else { loc } }
        Err(_) => None,
    }
}

// A line that keeps what its OP is for.
fn plain_line<'a>(loc: Option<Label>, op: Result<Mnemonic, TextFault>) -> Line<'a>
    ensures line { value_of_line result ≡ plain_line loc op }
    ensures bytes { HasBytes result }
{
    match op {
        Ok(Mnemonic::Equ) => Line::Code {
            loc,
            op: Op::Equ,
            address: b"0",
        },
        Ok(Mnemonic::Orig) => Line::Code {
            loc,
            op: Op::Orig,
            address: b"*",
        },
        Ok(Mnemonic::End) => Line::Code {
            loc,
            op: Op::End,
            address: b"0",
        },
        Ok(Mnemonic::Machine(_) | Mnemonic::Con | Mnemonic::Alf) | Err(_) => Line::Code {
            loc,
            op: Op::Con,
            address: b"0",
        },
    }
}

//! A whole source (1.3.2).
ghost use Rattle.std.specs.Prelude.{◌≡◌, [], Ok, Err, IfOk};
ghost use Rattle.mix_refused.specs.Refused.{IfFault};
ghost use Rattle.mix_lines.specs.Lines.{lines};
ghost use Rattle.mixal_asm.specs.Prelude.{kind_span, assembly, program_from, program_at, IsReady};

use crate::assembler::add_line;
use crate::draft::Draft;
use crate::fault::{AsmFault, AsmKind};
use crate::program::Program;
use mix_lines::split_line;
use mix_refused::Refused;
use mix_word::Place;
use std::alloc::Global;

/// The most bytes that a source may have.
pub const MAX_SOURCE_BYTES: usize = 1_048_576;

/// Assembles a source (1.3.2), up to END. Over 1,048,576 bytes are A16 at line 1, before all else; otherwise the first faulty
/// line is reported, and where no line is END, A13 at the line after the last.
#[tactic(auto, unfolding(crate::specs::Assembly::assembly))]
pub fn assemble(alloc: Global, text: &[u8]) -> Result<Program, Refused<AsmFault>>
    ensures ok { IfOk result (λ program. assembly text.now ≡ Ok program) }
    ensures fault { IfFault result (λ fault. assembly text.now ≡ Err fault) }
{
    if text.len() > MAX_SOURCE_BYTES {
        return Err(fault_at(1, AsmKind::SourceTooLong));
    }
    let mut draft = Draft::new(alloc);
    let start = add_lines(&mut draft, text)?;
    Ok(draft.into_program(alloc, start)?)
}

// The lines of a text up to END, which gives the start of their program.
fn add_lines<'s>(draft: &mut Draft<'s>, text: &'s [u8]) -> Result<Place, Refused<AsmFault>>
    requires { IsReady draft.old }
    ensures ok { IfOk result (λ start. program_from draft.old (lines text.now) ≡ Ok (program_at draft.new start)) }
    ensures fault { IfFault result (λ fault. program_from draft.old (lines text.now) ≡ Err fault) }
{
    let mut rest = text;
    while !rest.is_empty() {
        let (line, after) = split_line(rest);
        match add_line(draft, line)? {
            None => rest = after,
            Some(start) => return Ok(start),
        }
    }
    Err(fault_at(draft.number(), AsmKind::NoEnd))
}

/// A fault at a line, of which nothing is there.
pub(crate) fn fault_at(line: u32, kind: AsmKind) -> Refused<AsmFault>
    ensures { result ≡ Refused.Fault (record { line = line; at = kind_span [] kind; kind = kind }) }
{
    Refused::Fault(AsmFault::of(line, &[], kind))
}

//! All faults of a source (1.3.2).
ghost use Rattle.std.specs.Prelude.{◌≡◌, [], Ok, Err, IfOk};
ghost use Rattle.mix_refused.specs.Refused.{IfFault};
ghost use Rattle.mix_lines.specs.Lines.{lines};
ghost use Rattle.mixal_asm.specs.Prelude.{at_first, program_at, IsReady};
ghost use Rattle.mixal_asm.specs.Faults.{is_told, untold, program_with, faults_from, faults_of};

use crate::draft::Draft;
use crate::fault::{AsmFault, AsmKind};
use crate::mended::{add_line_with, is_mended};
use crate::source::{MAX_SOURCE_BYTES, fault_at};
use mix_lines::split_line;
use mix_refused::{Memory, Refused};
use mix_word::Place;
use std::alloc::Global;

/// The most faults of a source that are told.
pub const MAX_FAULTS: usize = 100;

/// The faults of a source (1.3.2), in the order of its lines: none where `assemble` gives a program; else the first one, and
/// then those of the source with that line mended, at most 100. A mended line keeps its LOC, if that is a label which no line
/// before defined, and has a word of 0 in place of an instruction or constant, `EQU 0`, `ORIG *` or `END 0`. A fault at a line
/// that is mended already is the last one.
#[tactic(auto, unfolding(crate::specs::Faults::faults_of))]
pub fn faults_of(alloc: Global, text: &[u8]) -> Result<Vec<AsmFault>, Memory>
    ensures faults { IfOk result (λ faults. faults.items ≡ faults_of text.now) }
{
    if text.len() > MAX_SOURCE_BYTES {
        let mut told = Vec::new(alloc);
        told.push(AsmFault {
            line: 1,
            at: None,
            kind: AsmKind::SourceTooLong,
        })?;
        return Ok(told);
    }
    faults_up_to(alloc, text, MAX_FAULTS)
}

// At most so many of them, of a source that is not too long.
fn faults_up_to(alloc: Global, text: &[u8], most: usize) -> Result<Vec<AsmFault>, Memory>
    ensures { IfOk result (λ faults. faults.items ≡ faults_from most [] (lines text.now)) }
{
    let mut told = Vec::new(alloc);
    let mut left = most;
    while left > 0 {
        match next_fault(alloc, text, &told)? {
            None => return Ok(told),
            Some(fault) => {
                let is_last = is_mended(&told, fault.line);
                told.push(fault)?;
                if is_last {
                    return Ok(told);
                }
            }
        }
        left -= 1;
    }
    Ok(told)
}

// The next fault to tell, of the source with the lines mended at which a fault was told.
fn next_fault(alloc: Global, text: &[u8], told: &[AsmFault]) -> Result<Option<AsmFault>, Memory>
    ensures { IfOk result (λ found. found ≡ untold told.now (program_with told.now at_first (lines text.now))) }
{
    let mut draft = Draft::new(alloc);
    match add_lines_with(&mut draft, told, text) {
        Ok(_) => Ok(None),
        Err(Refused::Fault(fault)) if is_told(told, fault) => Ok(None),
        Err(Refused::Fault(fault)) => Ok(Some(fault)),
        Err(Refused::Memory) => Err(Memory),
    }
}

// Whether a fault was told.
fn is_told(told: &[AsmFault], fault: AsmFault) -> bool
    ensures { result ≡ is_told told.now fault }
{
    told.iter().any(|other| other.line == fault.line && other.kind.number() == fault.kind.number())
}

// The lines of a text up to END with those lines mended, which gives the start of their program.
fn add_lines_with<'s>(
    draft: &mut Draft<'s>,
    told: &[AsmFault],
    text: &'s [u8],
) -> Result<Place, Refused<AsmFault>>
    requires { IsReady draft.old }
    ensures ok { IfOk result (λ start. program_with told.now draft.old (lines text.now) ≡ Ok (program_at draft.new start)) }
    ensures fault { IfFault result (λ fault. program_with told.now draft.old (lines text.now) ≡ Err fault) }
{
    let mut rest = text;
    while !rest.is_empty() {
        let (line, after) = split_line(rest);
        match add_line_with(draft, told, line)? {
            None => rest = after,
            Some(start) => return Ok(start),
        }
    }
    Err(fault_at(draft.number(), AsmKind::NoEnd))
}

//! All that there is to say of a source (1.3.2).
ghost use Rattle.std.specs.Prelude.{◌≡◌, ◌≤◌, ◌++◌, length, position, IfOk, OnOk};
ghost use Rattle.std.specs.List.{position_or_len};
ghost use Rattle.mix_lines.specs.Lines.{lines};
ghost use Rattle.mixal_asm.specs.Diagnose.{all_slips, diagnostics_of, goes_after, line_warnings, slips_at, undefined_at, up_to_end, warning_at, warnings_from, warnings_of, warnings_up_to_end, with_fault, with_faults};

use crate::behind::add_after_end;
use crate::diagnostic::{Diagnostic, Finding, Warning, warning_part};
use crate::fault::AsmFault;
use crate::faults::faults_of;
use crate::mentions::{Role, mentions, next_line};
use crate::source::MAX_SOURCE_BYTES;
use indexmap::IndexMap;
use mix_refused::Memory;
use mixal_text::{Slip, Survey, Symbol, part_span};
use std::alloc::Global;

/// What there is to say of a source (1.3.2), in the order of its lines: its faults, as `faults_of` has them, and before a later line
/// its warnings. A warning is no fault: where all are warnings, `assemble` gives a program.
#[tactic(auto, unfolding(crate::specs::Diagnose::diagnostics_of))]
pub fn diagnose(alloc: Global, text: &[u8]) -> Result<Vec<Diagnostic>, Memory>
    ensures diagnostics { IfOk result (λ list. list.items ≡ diagnostics_of text.now) }
{
    let faults = faults_of(alloc, text)?;
    let mut list = warnings_of(alloc, text)?;
    put_faults(&mut list, &faults)?;
    Ok(list)
}

// Puts faults, in their order, among what there is by their lines.
fn put_faults(list: &mut Vec<Diagnostic>, faults: &[AsmFault]) -> Result<(), Memory>
    ensures { OnOk result (list.new.items ≡ with_faults list.old.items faults.now) }
{
    let mut rest = faults;
    while let [fault, more @ ..] = rest {
        put_fault(list, *fault)?;
        rest = more;
    }
    Ok(())
}

// Puts a fault among what is of its line and of later ones.
fn put_fault(list: &mut Vec<Diagnostic>, fault: AsmFault) -> Result<(), Memory>
    ensures { OnOk result (list.new.items ≡ with_fault list.old.items fault) }
{
    let at = place_for(list, fault);
    list.insert(
        at,
        Diagnostic {
            line: fault.line_about(),
            at: fault.at,
            finding: Finding::Fault(fault.kind),
        },
    )?;
    Ok(())
}

#[tactic(auto, using(crate::proofs::DiagnoseLemmas::missed))]
fn place_for(list: &[Diagnostic], fault: AsmFault) -> usize
    ensures is { result ≡ position_or_len (goes_after fault) list.now }
    ensures within { result ≤ length list.now }
{
    match after(list, fault) {
        Some(at) => at,
        None => list.len(),
    }
}

fn after(list: &[Diagnostic], fault: AsmFault) -> Option<usize>
    ensures { result ≡ position (goes_after fault) list.now }
{
    list.iter().position(|other| goes_after(fault, other))
}

fn goes_after(fault: AsmFault, other: &Diagnostic) -> bool
    ensures { result ≡ goes_after fault other.now }
{
    let line = fault.line_about();
    line < other.line || (line == other.line && matches!(other.finding, Finding::Warning(_)))
}

// The warnings of a source. One of too many bytes is not looked at.
fn warnings_of(alloc: Global, text: &[u8]) -> Result<Vec<Diagnostic>, Memory>
    ensures { IfOk result (λ list. list.items ≡ warnings_of text.now) }
{
    if text.len() > MAX_SOURCE_BYTES {
        return Ok(Vec::new(alloc));
    }
    let mut list = warnings_up_to_end(alloc, text)?;
    add_after_end(&mut list, text)?;
    Ok(list)
}

fn warnings_up_to_end(alloc: Global, text: &[u8]) -> Result<Vec<Diagnostic>, Memory>
    requires { length text.now ≤ 1048576 }
    ensures { IfOk result (λ list. list.items ≡ warnings_up_to_end (up_to_end (lines text.now))) }
{
    let uses = mentions(alloc, Role::Use, text)?;
    let definitions = mentions(alloc, Role::Definition, text)?;
    let mut list = Vec::new(alloc);
    add_warnings(&mut list, &uses, &definitions, text)?;
    Ok(list)
}

// Appends the warnings of the lines of a text.
fn add_warnings(
    list: &mut Vec<Diagnostic>,
    uses: &IndexMap<Symbol, u32>,
    definitions: &IndexMap<Symbol, u32>,
    text: &[u8],
) -> Result<(), Memory>
    requires { length text.now ≤ 1048576 }
    ensures { OnOk result (list.new.items ≡ list.old.items ++ warnings_from uses.now.entries definitions.now.entries 1 (up_to_end (lines text.now))) }
{
    let mut number = 1;
    let mut rest = text;
    while let Some((line, after)) = next_line(rest) {
        add_line_warnings(list, uses, definitions, number, line)?;
        number += 1;
        rest = after;
    }
    Ok(())
}

#[tactic(auto, unfolding(crate::specs::Diagnose::line_warnings))]
fn add_line_warnings(
    list: &mut Vec<Diagnostic>,
    uses: &IndexMap<Symbol, u32>,
    definitions: &IndexMap<Symbol, u32>,
    number: u32,
    line: &[u8],
) -> Result<(), Memory>
    ensures { OnOk result (list.new.items ≡ list.old.items ++ line_warnings uses.now.entries definitions.now.entries number line.now) }
{
    let survey = Survey::of(line);
    add_undefined(list, uses, definitions, number, line, survey.used())?;
    add_slips(list, number, line, &survey)
}

// All slips, in the order in which those of a line are told.
const SLIPS: [Slip; 9] = [
    Slip::OperationAsLabel,
    Slip::NoLabel,
    Slip::AlfCut,
    Slip::AlfShort,
    Slip::BlankInAddress,
    Slip::NoField,
    Slip::WrongUnit,
    Slip::NoCell,
    Slip::NegativeShift,
];

// The slips of a line.
fn add_slips(
    list: &mut Vec<Diagnostic>,
    number: u32,
    line: &[u8],
    survey: &Survey<'_>,
) -> Result<(), Memory>
    requires { survey.now ≡ line.now }
    ensures { OnOk result (list.new.items ≡ list.old.items ++ slips_at number line.now all_slips) }
{
    let mut rest = &SLIPS[..];
    while let [slip, more @ ..] = rest {
        if survey.has(*slip) {
            push_warning(list, number, line, Warning::Slip(*slip))?;
        }
        rest = more;
    }
    Ok(())
}

// A symbol that a line is the first to use, and that is the LOC of no line.
fn add_undefined(
    list: &mut Vec<Diagnostic>,
    uses: &IndexMap<Symbol, u32>,
    definitions: &IndexMap<Symbol, u32>,
    number: u32,
    line: &[u8],
    used: Option<Symbol>,
) -> Result<(), Memory>
    ensures { OnOk result (list.new.items ≡ list.old.items ++ undefined_at uses.now.entries definitions.now.entries number line.now used) }
{
    match used {
        Some(symbol) => match uses.get(&symbol) {
            Some(first) if *first == number && !definitions.contains_key(&symbol) => {
                push_warning(list, number, line, Warning::UndefinedSymbol(symbol))
            }
            _ => Ok(()),
        },
        None => Ok(()),
    }
}

/// Appends a warning of a line, at the bytes that it is about.
pub(crate) fn push_warning(
    list: &mut Vec<Diagnostic>,
    number: u32,
    line: &[u8],
    warning: Warning,
) -> Result<(), Memory>
    ensures { OnOk result (list.new.items ≡ list.old.items ++ warning_at number line.now warning) }
{
    let at = part_span(line, warning_part(&warning));
    list.push(Diagnostic {
        line: number,
        at: Some(at),
        finding: Finding::Warning(warning),
    })?;
    Ok(())
}

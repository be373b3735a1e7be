//! What there is to say of a source, as a compiler reports it, or as one JSON object a line.

ghost use Rattle.std.specs.Prelude.{◌≡◌, IfOk, OnOk, false, not, string_bytes, true};
ghost use Rattle.std.specs.List.{list_any};
ghost use Rattle.mixal_asm.specs.Diagnose.{is_warning};
ghost use Rattle.mix_check.specs.Report.{Adds, Report, Says, SaysAll, has_faults, place_of};

use crate::checked::{Checked, before};
use crate::help::help_of;
use crate::mark::{add_marked, column_after};
use crate::values::{code, columns_of, meaning_with, severity};
use json::Writer;
use mix_refused::Memory;
use mix_shown::add_shown;
use mixal_asm::{Diagnostic, Finding, diagnose};
use std::alloc::{AllocError, Global};

/// How a binary of MDK's assembler, mixasm, begins: the number BEEFDEAD in four bytes, the last one first.
const BINARY: &[u8] = &[0xAD, 0xDE, 0xEF, 0xBE];

/// Appends what there is to say of a source to a text, and says whether it has a fault: of each fault `FILE:LINE:COLUMN: error: A7
/// undefined symbol`, of each warning `FILE:LINE:COLUMN: warning: X is defined nowhere: .. [undefined-symbol]`, the line, a mark
/// under what that is about (1.3.2), and `help: perhaps Y is meant` where a remedy is known that its text does not say. Columns count characters, from 1. A fault that is about no part of a line, as A13, has
/// neither a column nor the line. Control characters of the source are shown as question marks. Of a binary of mixasm it is said that
/// it is one.
pub fn add_report(
    alloc: Global,
    name: &str,
    source: &[u8],
    text: &mut Vec<u8>,
) -> Result<bool, Memory>
    ensures report { OnOk result (Adds (Report false name.now source.now) text.old.items text.new.items) }
    ensures faulty { IfOk result (λ faulty. faulty ≡ has_faults source.now) }
{
    let diagnostics = diagnose(alloc, source)?;
    let told = if source.starts_with(BINARY) {
        let line = format!(in alloc; "{name}: error: this is a binary of mixasm, not a source\n")?;
        Vec::from_slice(alloc, line.as_bytes())?
    } else {
        told(alloc, name, source, &diagnostics, false)?
    };
    text.extend_from_slice(told.as_slice())?;
    Ok(has_fault(&diagnostics))
}

/// Appends what there is to say of a source to a text as `add_report` does, but as JSON, and says whether it has a fault: of each
/// fault and of each warning one object a line, with its file, its line, the column of its first byte and that of what follows its
/// last byte, its severity, its number or name, its text, and `help` where a remedy is known that the text does not say (1.3.2). A fault that is about no part of a line, as A13, has no columns.
pub fn add_json_report(
    alloc: Global,
    name: &str,
    source: &[u8],
    text: &mut Vec<u8>,
) -> Result<bool, Memory>
    ensures report { OnOk result (Adds (Report true name.now source.now) text.old.items text.new.items) }
    ensures faulty { IfOk result (λ faulty. faulty ≡ has_faults source.now) }
{
    let diagnostics = diagnose(alloc, source)?;
    let told = told(alloc, name, source, &diagnostics, true)?;
    text.extend_from_slice(told.as_slice())?;
    Ok(has_fault(&diagnostics))
}

// What is said of some diagnostics, one after the other.
fn told(
    alloc: Global,
    name: &str,
    source: &[u8],
    diagnostics: &[Diagnostic],
    json: bool,
) -> Result<Vec<u8>, Memory>
    ensures { IfOk result (λ told. SaysAll json name.now diagnostics.now told.items) }
{
    let mut checked = Checked::of(alloc, source)?;
    let mut text = Vec::new(alloc);
    let mut rest = diagnostics;
    while let [diagnostic, more @ ..] = rest {
        let one = if json {
            object_of(alloc, name, &mut checked, diagnostic)?
        } else {
            lines_of(alloc, name, &mut checked, diagnostic)?
        };
        text.extend_from_slice(one.as_slice())?;
        rest = more;
    }
    Ok(text)
}

/// Whether one of some diagnostics is a fault.
pub(crate) fn has_fault(diagnostics: &[Diagnostic]) -> bool
    ensures { result ≡ list_any (λ d. not (is_warning d.finding)) diagnostics.now }
{
    diagnostics.iter().any(|diagnostic| matches!(diagnostic.finding, Finding::Fault(_)))
}

// Where a diagnostic is, what it says, the line, and a mark below it.
fn lines_of(
    alloc: Global,
    name: &str,
    source: &mut Checked<'_>,
    diagnostic: &Diagnostic,
) -> Result<Vec<u8>, Memory>
    ensures { IfOk result (λ lines. Says false name.now diagnostic.now lines.items) }
{
    let after = after_place(alloc, source, diagnostic)?;
    let place = place_of(alloc, name, diagnostic.line)?;
    let mut lines = Vec::from_slice(alloc, place.as_bytes())?;
    lines.extend_from_slice(after.as_slice())?;
    Ok(lines)
}

#[tactic(auto, using(std::proofs::Common::append_assoc), unfolding(crate::specs::Report::place_of))]
fn place_of(alloc: Global, name: &str, line: u32) -> Result<String, AllocError>
    ensures { IfOk result (λ s. string_bytes s ≡ place_of name.now line) }
{
    let place = format!(in alloc; "{name}:{line}:")?;
    Ok(place)
}

// What follows the number of its line.
fn after_place(
    alloc: Global,
    source: &mut Checked<'_>,
    diagnostic: &Diagnostic,
) -> Result<Vec<u8>, Memory> {
    let place = source.shown(diagnostic);
    let mut text = Vec::new(alloc);
    if let Some((line, span)) = place {
        let column = column_after(before(line, span.from));
        let column = format!(in alloc; "{column}:")?;
        text.extend_from_slice(column.as_bytes())?;
    }
    match &diagnostic.finding {
        Finding::Fault(kind) => {
            let kind = *kind;
            let fault = format!(in alloc; " error: {kind}")?;
            text.extend_from_slice(fault.as_bytes())?;
            let help = help_of(alloc, source, diagnostic, place)?;
            text.extend_from_slice(help.as_slice())?;
        }
        Finding::Warning(warning) => {
            text.extend_from_slice(b" warning: ")?;
            text.extend_from_slice(warning.subject())?;
            text.extend_from_slice(warning.text().as_bytes())?;
            text.extend_from_slice(b" [")?;
            text.extend_from_slice(warning.name().as_bytes())?;
            text.push(b']')?;
        }
    }
    text.push(b'\n')?;
    if let Some((line, span)) = place {
        add_marked(&mut text, line, span)?;
    }
    if let Some(help) = source.remedy(alloc, diagnostic)? {
        text.extend_from_slice(b"help: ")?;
        add_shown(&mut text, help.as_bytes())?;
        text.push(b'\n')?;
    }
    Ok(text)
}

// A diagnostic as an object, and a line feed.
fn object_of(
    alloc: Global,
    name: &str,
    source: &mut Checked<'_>,
    diagnostic: &Diagnostic,
) -> Result<Vec<u8>, Memory>
    ensures { IfOk result (λ line. Says true name.now diagnostic.now line.items) }
{
    let place = source.shown(diagnostic);
    let help = help_of(alloc, source, diagnostic, place)?;
    let finding = &diagnostic.finding;
    let (code, meaning) = (code(alloc, finding)?, meaning_with(alloc, finding, &help)?);
    let remedy = source.remedy(alloc, diagnostic)?;
    let mut writer = Writer::new(Vec::new(alloc));
    writer.begin_object()?;
    add_text(&mut writer, "file", name)?;
    add_number(&mut writer, "line", u64::from(diagnostic.line))?;
    add_columns(&mut writer, columns_of(place))?;
    add_text(&mut writer, "severity", severity(finding))?;
    add_text(&mut writer, "code", code.as_str())?;
    add_text(&mut writer, "text", meaning.as_str())?;
    add_help(&mut writer, &remedy)?;
    writer.end_object()?;
    let mut line = writer.into_inner();
    line.push(b'\n')?;
    Ok(line)
}

fn add_text(writer: &mut Writer<Global>, name: &str, text: &str) -> Result<(), AllocError>
    ensures { OnOk result (writer.new.before ≡ writer.old.before) }
{
    writer.key(name)?;
    writer.string(text)
}

fn add_number(writer: &mut Writer<Global>, name: &str, number: u64) -> Result<(), AllocError>
    ensures { OnOk result (writer.new.before ≡ writer.old.before) }
{
    writer.key(name)?;
    writer.u64(number)
}

fn add_columns(writer: &mut Writer<Global>, columns: Option<(u64, u64)>) -> Result<(), AllocError>
    ensures { OnOk result (writer.new.before ≡ writer.old.before) }
{
    match columns {
        Some((from, to)) => {
            add_number(writer, "column", from)?;
            add_number(writer, "endColumn", to)
        }
        None => Ok(()),
    }
}

fn add_help(writer: &mut Writer<Global>, remedy: &Option<String>) -> Result<(), AllocError>
    ensures { OnOk result (writer.new.before ≡ writer.old.before) }
{
    match remedy {
        Some(remedy) => add_text(writer, "help", remedy.as_str()),
        None => Ok(()),
    }
}

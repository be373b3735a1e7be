//! `mix/check`: what there is to say of a text.

use dap_asked::Fault;
use mix_check::{Checked, code, no_halt, no_halt_text, severity};
use mix_refused::{Memory, Refused};
use mixal_asm::{Diagnostic, diagnose};
use rpc_message::{Fields, Request};
use serde_json::{Value, json};
use std::alloc::Global;

/// The faults and the warnings of the text of a request, as `mixrev check --json` gives them, and whether a HLT is missing.
pub(crate) fn check_view(alloc: Global, request: &Request) -> Result<Value, Refused<Fault>> {
    match request.text("source") {
        Some(source) => Ok(check(alloc, source.as_bytes())?),
        None => Err(Refused::Fault(Fault::BadArgument)),
    }
}

fn check(alloc: Global, source: &[u8]) -> Result<Value, Memory> {
    let diagnostics = diagnose(alloc, source)?;
    let mut list = all_shown(alloc, source, &diagnostics)?;
    if let Some(line) = no_halt(source, &diagnostics) {
        list.push(json!(in alloc; {
            "line": line,
            "severity": "warning",
            "code": "no-halt",
            "text": no_halt_text()
        })?)?;
    }
    Ok(json!(in alloc; {"diagnostics": list})?)
}

fn all_shown(
    alloc: Global,
    source: &[u8],
    diagnostics: &[Diagnostic],
) -> Result<Vec<Value>, Memory> {
    let mut checked = Checked::of(alloc, source)?;
    let mut list = Vec::new(alloc);
    for diagnostic in diagnostics {
        list.push(diagnostic_shown(alloc, &mut checked, diagnostic)?)?;
    }
    Ok(list)
}

fn diagnostic_shown(
    alloc: Global,
    source: &mut Checked<'_>,
    diagnostic: &Diagnostic,
) -> Result<Value, Memory> {
    let finding = &diagnostic.finding;
    let mut body = Fields::new(alloc);
    body.number("line", u64::from(diagnostic.line))?;
    if let Some((from, to)) = source.columns(diagnostic) {
        body.number("column", from)?;
        body.number("endColumn", to)?;
    }
    body.text("severity", severity(finding))?;
    body.text("code", code(alloc, finding)?.as_str())?;
    body.text("text", source.meaning(alloc, diagnostic)?.as_str())?;
    if let Some(text) = source.remedy(alloc, diagnostic)? {
        body.text("remedy", text.as_str())?;
    }
    Ok(body.done())
}

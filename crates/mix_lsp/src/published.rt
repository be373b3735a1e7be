//! The diagnostics of a text, as the client is told them.

ghost use Rattle.std.specs.Prelude.{◌≡◌, None, IfOk, codes};
ghost use Rattle.serde_json.specs.Find.{get};
ghost use Rattle.serde_json.specs.View.{view};

use crate::finder::Finder;
use crate::place::Encoding;
use crate::replies::diagnostics;
use mix_check::{Checked, code};
use mix_refused::Memory;
use mixal_asm::{Diagnostic, Finding, diagnose};
use mixal_text::Span;
use serde_json::{Value, json};
use std::alloc::Global;

/// The message that tells the diagnostics of a text.
pub(crate) fn published(
    alloc: Global,
    encoding: Encoding,
    uri: &str,
    version: Option<i64>,
    text: &[u8],
) -> Result<Value, Memory>
    ensures { IfOk result (λ m. get (codes "id") (view m) ≡ None) }
{
    let list = diagnostics_in(alloc, encoding, text)?;
    let params = match version {
        Some(version) => { json!(in alloc; {"uri": uri, "diagnostics": list, "version": version})? }
        None => json!(in alloc; {"uri": uri, "diagnostics": list})?,
    };
    diagnostics(alloc, params)
}

/// The message that tells that there is nothing to say of a text any more.
pub(crate) fn withdrawn(alloc: Global, uri: &str) -> Result<Value, Memory>
    ensures { IfOk result (λ m. get (codes "id") (view m) ≡ None) }
{
    let params = json!(in alloc; {"uri": uri, "diagnostics": []})?;
    diagnostics(alloc, params)
}

fn diagnostics_in(alloc: Global, encoding: Encoding, text: &[u8]) -> Result<Vec<Value>, Memory> {
    let mut list = Vec::new(alloc);
    let found = diagnose(alloc, text)?;
    if !found.is_empty() {
        let mut checked = Checked::of(alloc, text)?;
        let mut finder = Finder::of(alloc, encoding, text);
        for diagnostic in &found {
            list.push(shown(alloc, &mut finder, &mut checked, diagnostic)?)?;
        }
    }
    Ok(list)
}

fn shown(
    alloc: Global,
    finder: &mut Finder<'_>,
    checked: &mut Checked<'_>,
    diagnostic: &Diagnostic,
) -> Result<Value, Memory> {
    let finding = &diagnostic.finding;
    let range = finder.range(diagnostic.line.saturating_sub(1), span_of(diagnostic.at))?;
    let severity: u64 = match finding {
        Finding::Fault(_) => 1,
        Finding::Warning(_) => 2,
    };
    let code = code(alloc, finding)?;
    let message = checked.meaning(alloc, diagnostic)?;
    let shown = json!(in alloc; {
        "range": range,
        "severity": severity,
        "code": code,
        "source": "mixrev",
        "message": message
    })?;
    Ok(shown)
}

/// The bytes that a diagnostic is about; none where its line begins, if it is about none.
pub(crate) fn span_of(at: Option<Span>) -> Span {
    match at {
        Some(at) => at,
        None => Span { from: 0, to: 0 },
    }
}

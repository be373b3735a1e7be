//! `mix/analysis`: the counts of the book beside those that are measured, as `show analysis` has them.

use dap_asked::Fault;
use mix_formula::{Analysis, Judged, beside_text, value_text};
use mix_lines::Words;
use mix_refused::{Memory, Refused};
use mix_session::{Refusal, Session};
use mix_views::analysis_asked;
use rpc_message::Request;
use serde_json::{Value, json};
use std::alloc::Global;

/// The lines that have a formula, each with its value and its count; the names with their values; and what is said beside the lines.
pub fn analysis_view<'a>(
    alloc: Global,
    session: &'a Session,
    request: &'a Request,
) -> Result<Value, Refused<Fault>> {
    let of = request.text("of").unwrap_or("");
    match analysis_asked(alloc, session, &mut Words::of(of.as_bytes()))? {
        Some(analysis) => Ok(analysis_shown(alloc, &analysis)?),
        None => Err(Refused::Fault(Fault::Session(Refusal::BadArgument))),
    }
}

fn analysis_shown(alloc: Global, analysis: &Analysis<'_>) -> Result<Value, Memory> {
    let mut lines = Vec::new(alloc);
    for judged in &analysis.lines {
        lines.push(line_shown(alloc, judged)?)?;
    }
    let mut names = Vec::new(alloc);
    for (name, value) in &analysis.names {
        let name = String::from_utf8_lossy(alloc, name)?;
        let value = value_text(alloc, *value)?;
        names.push(json!(in alloc; {"name": name.as_str(), "value": value.as_str()})?)?;
    }
    let text = String::from_utf8_lossy(alloc, &beside_text(alloc, analysis)?)?;
    Ok(json!(in alloc; {"lines": lines, "names": names, "text": text.as_str()})?)
}

fn line_shown(alloc: Global, judged: &Judged<'_>) -> Result<Value, Memory> {
    let (line, count) = (judged.row.line as u64, judged.row.count);
    let formula = String::from_utf8_lossy(alloc, judged.formula())?;
    let value = value_text(alloc, judged.value)?;
    let count = format!(in alloc; "{count}")?;
    Ok(json!(in alloc; {
        "line": line,
        "formula": formula.as_str(),
        "value": value.as_str(),
        "count": count.as_str(),
        "verdict": judged.verdict.text()
    })?)
}

//! `mix/passages`: the states in which the machine is at a line, as `show passages` has them.

use crate::view::nodes::numbers_shown;
use dap_asked::Fault;
use mix_passages::{Passages, Row, read_passages, rows_of};
use mix_refused::{Memory, Refused};
use mix_session::{Refusal, Session};
use rpc_message::{Fields, Request};
use serde_json::{Value, json};
use std::alloc::Global;

/// The columns, the assertion, a row for each of the last states, and how many states come before them.
pub fn passages_view(
    alloc: Global,
    session: &Session,
    request: &Request,
) -> Result<Value, Refused<Fault>> {
    let of = request.text("of").unwrap_or("");
    match read_passages(alloc, session, of.as_bytes())? {
        Some(passages) => Ok(passages_shown(alloc, session, &passages)?),
        None => Err(Refused::Fault(Fault::Session(Refusal::BadArgument))),
    }
}

fn passages_shown(alloc: Global, session: &Session, passages: &Passages) -> Result<Value, Memory> {
    let table = rows_of(alloc, session, passages)?;
    let mut body = Fields::new(alloc);
    let mut columns = Vec::new(alloc);
    for column in &passages.columns {
        columns.push(text_shown(alloc, &column.name)?)?;
    }
    body.list("columns", columns)?;
    if let Some(assertion) = &passages.assertion {
        body.put("assertion", text_shown(alloc, &assertion.words)?)?;
    }
    let mut rows = Vec::new(alloc);
    for row in &table.rows {
        rows.push(row_shown(alloc, row)?)?;
    }
    body.list("rows", rows)?;
    body.number("before", table.before as u64)?;
    Ok(body.done())
}

fn row_shown(alloc: Global, row: &Row) -> Result<Value, Memory> {
    let mut fields = Fields::new(alloc);
    fields.number("state", row.number as u64)?;
    fields.list("numbers", numbers_shown(alloc, &row.words)?)?;
    if let Some(holds) = row.holds {
        fields.flag("holds", holds)?;
    }
    Ok(fields.done())
}

fn text_shown(alloc: Global, text: &[u8]) -> Result<Value, Memory> {
    let text = String::from_utf8_lossy(alloc, text)?;
    Ok(Value::try_from_str(alloc, text.as_str())?)
}

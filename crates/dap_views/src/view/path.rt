//! `mix/path`: where the instructions were executed in the course of the changes, column by column.

use dap_asked::Fault;
use mix_refused::{Memory, Refused};
use mix_session::{Session, Span};
use mix_word::CELLS;
use rpc_message::Request;
use serde_json::{Value, json};
use std::alloc::Global;

/// The most columns that are asked for.
const MAX_COLUMNS: u64 = 500;

/// The columns of a range of the changes done: of each the cells whose instructions were executed in it, and how often.
pub fn path_view(
    alloc: Global,
    session: &Session,
    request: &Request,
) -> Result<Value, Refused<Fault>> {
    let done = session.changes().len() as u64;
    match request.number("columns") {
        Some(columns) if columns <= MAX_COLUMNS => {
            let span = Span {
                from: request.number("from").unwrap_or(0) as usize,
                until: request.number("until").unwrap_or(done) as usize,
                columns: columns as u16,
            };
            Ok(path_shown(alloc, session, span)?)
        }
        _ => Err(Refused::Fault(Fault::BadArgument)),
    }
}

fn path_shown(alloc: Global, session: &Session, span: Span) -> Result<Value, Memory> {
    let counts = session.path(alloc, span)?;
    let mut columns = Vec::new(alloc);
    for column in 0..span.columns {
        columns.push(column_shown(alloc, &counts, column)?)?;
    }
    let (from, until) = (span.from as u64, span.until as u64);
    Ok(json!(in alloc; {"from": from, "until": until, "columns": columns})?)
}

// The cells whose instructions were executed in a column, in rising order, each with how often.
fn column_shown(alloc: Global, counts: &[u64], column: u16) -> Result<Value, Memory> {
    let mut list = Vec::new(alloc);
    for cell in 0..CELLS {
        let at = usize::from(column) * usize::from(CELLS) + usize::from(cell);
        match counts.get(at) {
            Some(count) if *count > 0 => {
                list.push(json!(in alloc; {"cell": u64::from(cell), "count": *count})?)?;
            }
            _ => {}
        }
    }
    Ok(json!(in alloc; {"cells": list})?)
}

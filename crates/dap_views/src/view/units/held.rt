//! What a unit holds: the rows that it has written, and the blocks that it is still to read.

use dap_asked::characters;
use mix_machine::{Unit, UnitKind, Word};
use mix_refused::Memory;
use rpc_message::Fields;
use serde_json::Value;
use std::alloc::Global;

/// What a unit has to read and what it has written, where its kind does so.
pub(crate) fn put_held(
    alloc: Global,
    fields: &mut Fields,
    kind: UnitKind,
    unit: &Unit,
) -> Result<(), Memory> {
    match kind {
        UnitKind::Tape | UnitKind::Disk => Ok(()),
        UnitKind::CardReader => put_unread(alloc, fields, unit),
        UnitKind::CardPunch | UnitKind::Printer => put_rows(alloc, fields, unit),
        UnitKind::Typewriter | UnitKind::PaperTape => {
            put_unread(alloc, fields, unit)?;
            put_rows(alloc, fields, unit)
        }
    }
}

// The rows that were written; of each new page, before how many of them it begins.
fn put_rows(alloc: Global, fields: &mut Fields, unit: &Unit) -> Result<(), Memory> {
    let mut rows = Vec::new(alloc);
    let mut pages = Vec::new(alloc);
    for i in 0..unit.rows() {
        if let Some(row) = unit.row(i) {
            match row.words() {
                Some(words) => rows.push(text_shown(alloc, words)?)?,
                None => pages.push(Value::from(rows.len() as u64))?,
            }
        }
    }
    fields.list("rows", rows)?;
    fields.list("pages", pages)
}

// The rows that are still to be read.
fn put_unread(alloc: Global, fields: &mut Fields, unit: &Unit) -> Result<(), Memory> {
    let mut list = Vec::new(alloc);
    for i in unit.place()..unit.blocks() {
        if let Some(words) = unit.block(i) {
            list.push(text_shown(alloc, words)?)?;
        }
    }
    fields.list("unread", list)
}

fn text_shown(alloc: Global, words: &[Word]) -> Result<Value, Memory> {
    let text = characters(alloc, words)?;
    Ok(Value::String(text))
}

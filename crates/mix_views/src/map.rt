//! What `show map` says: the map of the changes done, a line for each row with its boxes.

use mix_map::{columns_of, map_of};
use mix_refused::Memory;
use mix_session::{Session, Span};
use mix_word::Location;
use std::alloc::Global;

/// The most rows that are told.
const MAX_ROWS: usize = 120;

/// The map of the changes done.
pub(crate) fn map_text(alloc: Global, session: &Session) -> Result<Vec<u8>, Memory> {
    let until = session.changes().len();
    let columns = columns_of(until);
    let span = Span {
        from: 0,
        until,
        columns,
    };
    let counts = session.path(alloc, span)?;
    let map = map_of(alloc, &counts, columns, MAX_ROWS)?;
    let found = map.found;
    let head = format!(in alloc; "map {until} changes, {columns} columns, {found} rows\n")?;
    let mut text = head.into_bytes();
    for (number, row) in map.rows.iter().enumerate() {
        let (place, times) = (Location(row.place), row.times);
        let name = format!(in alloc; "{place} {times}")?;
        text.extend_from_slice(name.as_bytes())?;
        for drawn in &map.boxes {
            if drawn.row == number {
                let (from, to, dark) = (drawn.from, drawn.to, drawn.dark);
                let shown = format!(in alloc; " {from}..{to}:{dark}")?;
                text.extend_from_slice(shown.as_bytes())?;
            }
        }
        text.push(b'\n')?;
    }
    Ok(text)
}

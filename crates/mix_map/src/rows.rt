//! The rows of a map: how often an instruction was executed, and from which column up to which.
ghost use Rattle.std.specs.Prelude.{◌≡◌, ◌++◌, IfOk, map};
ghost use Rattle.mix_map.specs.Map.{counted, row_seen, rows_below, times_in};

use crate::parts::MapRow;
use mix_word::CELLS;
use std::alloc::{AllocError, Global};

/// How often the instruction at a place was executed in a column; 0 where there is no such place or column.
pub(crate) fn count_at(counts: &[u64], columns: u16, column: u16, place: u16) -> u64
    ensures { result ≡ counted columns counts.now column place }
{
    if column < columns && place < CELLS {
        let at = usize::from(column) * usize::from(CELLS) + usize::from(place);
        counts.get(at).copied().unwrap_or(0)
    } else {
        0
    }
}

// The row of a place.
fn row_of(counts: &[u64], columns: u16, place: u16) -> MapRow
    ensures { row_seen result ≡ (place, times_in (counted columns counts.now) place columns) }
{
    let (mut times, mut most): (u128, u64) = (0, 0);
    let (mut from, mut to) = (0, 0);
    for column in 0..columns {
        let count = count_at(counts, columns, column, place);
        if count != 0 {
            from = if times == 0 { column } else { from };
            to = column + 1;
        }
        times += u128::from(count);
        most = most.max(count);
    }
    MapRow {
        place,
        times,
        most,
        from,
        to,
    }
}

/// The rows of all places whose instruction was executed.
#[tactic(auto, unfolding(crate::specs::Map::rows_below))]
pub(crate) fn executed(
    alloc: Global,
    counts: &[u64],
    columns: u16,
) -> Result<Vec<MapRow>, AllocError>
    ensures { IfOk result (λ rows. map row_seen rows.items ≡ rows_below (counted columns counts.now) columns 4000) }
{
    let mut rows = Vec::new(alloc);
    for place in 0..CELLS {
        let row = row_of(counts, columns, place);
        if row.times != 0 {
            rows.push(row)?;
        }
    }
    Ok(rows)
}

//! The map of a run: of how often each instruction was executed in each column of changes, the rows of a picture, and its boxes.
#![tactic(auto)]

mod boxes;
mod parts;
mod rows;

ghost use Rattle.std.specs.Prelude.{◌≡◌, ◌<◌, ℕ, IfOk, Some, length, map, max, min, take};
ghost use Rattle.std.specs.List.{slice_get};
ghost use Rattle.mix_map.specs.Map.{boxes_at, counted, one_if, row_seen, rows_below};

use crate::boxes::add_boxes;
use crate::rows::executed;
pub use parts::{MapBox, MapRow, RunMap};
use std::alloc::{AllocError, Global};

/// How many columns the map of so many changes has: one for each, and at most 240.
pub fn columns_of(total: usize) -> u16
    ensures { result ≡ min (max total 1) 240 }
{
    total.max(1).min(240) as u16
}

/// The map of some counts: that of place p in column c is the one of number 4000 c + p. It has a row for each place whose instruction was executed, of
/// which so many are kept, the first ones; each column in which it was is in just one box of the row.
pub fn map_of(
    alloc: Global,
    counts: &[u64],
    columns: u16,
    kept: usize,
) -> Result<RunMap, AllocError>
    ensures found { IfOk result (λ drawn. drawn.found ≡ length (rows_below (counted columns counts.now) columns 4000)) }
    ensures rows { IfOk result (λ drawn. map row_seen drawn.rows.items ≡ take kept (rows_below (counted columns counts.now) columns 4000)) }
    ensures boxes { IfOk result (λ drawn. (r c : ℕ) (row : MapRow) → slice_get drawn.rows.items r ≡ Some row → c < columns
        → boxes_at r c drawn.boxes.items ≡ one_if (counted columns counts.now c row.place)) }
{
    let mut rows = executed(alloc, counts, columns)?;
    let found = rows.len();
    let most = rows.iter().fold(0, |most: u64, row| row.most.max(most));
    rows.truncate(kept);
    let mut boxes = Vec::new(alloc);
    add_boxes(counts, columns, most, &rows, &mut boxes)?;
    Ok(RunMap { found, rows, boxes })
}

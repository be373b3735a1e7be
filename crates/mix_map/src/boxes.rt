//! The boxes of a map: of each row the columns that follow each other in which it is equally dark.
ghost use Rattle.std.specs.Prelude.{◌≡◌, ◌<◌, ◌==◌, ℕ, OnOk, Some, false};
ghost use Rattle.std.specs.List.{slice_get};
ghost use Rattle.mix_map.specs.Map.{boxes_at, counted, one_if};

use crate::parts::{MapBox, MapRow};
use crate::rows::count_at;
use std::alloc::AllocError;

// How dark the row of a place is in a column, by the digits of its count and of the most that one is; 0 where its instruction was not executed.
fn shade(counts: &[u64], columns: u16, most: u64, place: u16, column: u16) -> u16
    ensures { one_if result ≡ one_if (counted columns counts.now column place) }
{
    let count = count_at(counts, columns, column, place);
    if count == 0 {
        return 0;
    }
    let (digits, all) = (64 - count.leading_zeros(), 64 - most.leading_zeros());
    (3 + 7 * digits / all.max(1)) as u16
}

// Adds those of a row: each column in which its instruction was executed is in one of them.
fn add_row(
    counts: &[u64],
    columns: u16,
    most: u64,
    place: u16,
    number: usize,
    boxes: &mut Vec<MapBox>,
) -> Result<(), AllocError>
    requires { (c : ℕ) → c < columns → boxes_at number c boxes.old.items ≡ 0 }
    ensures own { OnOk result ((c : ℕ) → c < columns → boxes_at number c boxes.new.items ≡ one_if (counted columns counts.now c place)) }
    ensures others { OnOk result ((r c : ℕ) → (number == r) ≡ false → boxes_at r c boxes.new.items ≡ boxes_at r c boxes.old.items) }
{
    let (mut column, mut from) = (0, 0);
    while column < columns {
        let dark = shade(counts, columns, most, place, column);
        let to = column + 1;
        if shade(counts, columns, most, place, to) != dark {
            if dark != 0 {
                boxes.push(MapBox {
                    row: number,
                    from,
                    to,
                    dark,
                })?;
            }
            from = to;
        }
        column = to;
    }
    Ok(())
}

/// Adds those of some rows.
pub(crate) fn add_boxes(
    counts: &[u64],
    columns: u16,
    most: u64,
    rows: &[MapRow],
    boxes: &mut Vec<MapBox>,
) -> Result<(), AllocError>
    requires { (r c : ℕ) → boxes_at r c boxes.old.items ≡ 0 }
    ensures { OnOk result ((r c : ℕ) (row : MapRow) → slice_get rows.now r ≡ Some row → c < columns → boxes_at r c boxes.new.items ≡ one_if (counted columns counts.now c row.place)) }
{
    for number in 0..rows.len() {
        add_row(counts, columns, most, rows[number].place, number, boxes)?;
    }
    Ok(())
}

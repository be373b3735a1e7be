//! The map of a run: a picture of its lines against its changes, the darker, the oftener a line was executed, as SVG.
ghost use Rattle.std.specs.Prelude.{◌≡◌, ◌<◌, ◌≤◌, ◌^◌, IfOk, true};
ghost use Rattle.mix_run.specs.Opening.{is_picture};

use crate::print::loaded::line_at;
use crate::replaces::PICTURE;
use mix_map::{MapBox, MapRow, RunMap, columns_of};
use mix_refused::Memory;
use mix_word::Location;
use mixal_asm::Program;
use std::alloc::{AllocError, Global};

/// The most rows that are drawn.
pub(crate) const MAX_ROWS: usize = 120;

/// The picture of the map of so many changes.
pub(crate) fn picture_of(
    alloc: Global,
    program: &Program,
    total: usize,
    map: &RunMap,
) -> Result<Vec<u8>, Memory>
    ensures { IfOk result (λ text. is_picture text.items ≡ true) }
{
    let drawing = drawing_of(alloc, program, total, map)?;
    let mut text = Vec::from_slice(alloc, PICTURE)?;
    text.extend_from_slice(drawing.as_slice())?;
    Ok(text)
}

// What follows the beginning of a picture.
fn drawing_of(
    alloc: Global,
    program: &Program,
    total: usize,
    map: &RunMap,
) -> Result<Vec<u8>, AllocError> {
    let rows = map.rows.len();
    let found = map.found;
    let height = 12 + rows as u128 * u128::from(high_of(rows));
    let changes = counted(alloc, total as u128, "change")?;
    let mut text = Vec::new(alloc);
    let head = format!(in alloc;
        "{height}\" width=\"760\" height=\"{height}\" role=\"img\" aria-labelledby=\"map-title map-desc\" font-family=\"ui-monospace, Menlo, Consolas, monospace\" font-size=\"10\">\n<title id=\"map-title\">Map of {changes}</title>\n<desc id=\"map-desc\">"
    )?;
    text.extend_from_slice(head.as_bytes())?;
    if rows < found {
        let left_out = format!(in alloc; "These are the first {rows} of {found} instructions.\n")?;
        text.extend_from_slice(left_out.as_bytes())?;
    }
    for row in &map.rows {
        let (name, times) = (
            name_of(alloc, program, row)?,
            counted(alloc, row.times, "time")?,
        );
        let before = match line_at(program, row.place) {
            Some(_) => "Line",
            None => "Location",
        };
        let (from, until) = (bound_of(total, row.from) + 1, bound_of(total, row.to));
        let told = format!(in alloc;
            "{before} {name}: {times}, between changes {from} and {until}.\n"
        )?;
        text.extend_from_slice(told.as_bytes())?;
    }
    text.extend_from_slice(b"</desc>\n")?;
    for drawn in &map.boxes {
        let label = label_of(alloc, program, &map.rows, drawn)?;
        text.extend_from_slice(label.as_bytes())?;
        let shape = box_of(alloc, total, rows, drawn)?;
        text.extend_from_slice(shape.as_bytes())?;
    }
    let inner = height.saturating_sub(4);
    let close = format!(in alloc;
        "<rect x=\"36\" y=\"2\" width=\"720\" height=\"{inner}\" fill=\"none\" stroke=\"#5e5648\"/>\n</svg>\n"
    )?;
    text.extend_from_slice(close.as_bytes())?;
    Ok(text)
}

// So many of something: `1 change`, `2 changes`.
fn counted(alloc: Global, count: u128, name: &str) -> Result<String, AllocError> {
    let plural = if count == 1 { "" } else { "s" };
    Ok(format!(in alloc; "{count} {name}{plural}")?)
}

// The number of a row's line, or its location.
fn name_of(alloc: Global, program: &Program, row: &MapRow) -> Result<String, AllocError> {
    let text = match line_at(program, row.place) {
        Some(line) => format!(in alloc; "{line}")?,
        None => {
            let location = Location(row.place);
            format!(in alloc; "{location}")?
        }
    };
    Ok(text)
}

// The label before the first box of a row; low rows have one now and then.
fn label_of(
    alloc: Global,
    program: &Program,
    rows: &[MapRow],
    drawn: &MapBox,
) -> Result<String, AllocError> {
    let high = high_of(rows.len());
    let every = (10 + usize::from(high)) / usize::from(high);
    match rows.get(drawn.row) {
        Some(row) if row.from == drawn.from && drawn.row % every == 0 => {
            let name = name_of(alloc, program, row)?;
            let y = top_of(rows.len(), drawn.row) + u128::from(high.min(10));
            Ok(format!(in alloc;
                "<text x=\"32\" y=\"{y}\" fill=\"#5e5648\" text-anchor=\"end\">{name}</text>\n"
            )?)
        }
        _ => Ok(String::new(alloc)),
    }
}

fn box_of(alloc: Global, total: usize, rows: usize, drawn: &MapBox) -> Result<String, AllocError> {
    let (high, top) = (high_of(rows), top_of(rows, drawn.row));
    let left = edge_of(total, drawn.from);
    let wide = edge_of(total, drawn.to).saturating_sub(left);
    let (whole, tenths) = (drawn.dark / 10, drawn.dark % 10);
    Ok(format!(in alloc;
        "<rect x=\"{left}\" y=\"{top}\" width=\"{wide}\" height=\"{high}\" fill=\"#224a69\" fill-opacity=\"{whole}.{tenths}\"/>\n"
    )?)
}

// How high each of so many rows is.
fn high_of(rows: usize) -> u16
    ensures { 3 ≤ result }
{
    (300 / rows.max(1)).min(12).max(3) as u16
}

// The top of a row.
fn top_of(rows: usize, row: usize) -> u128
    ensures { result < 2 ^ 100 }
{
    4 + row as u128 * u128::from(high_of(rows))
}

// The left edge of a column.
fn edge_of(total: usize, column: u16) -> u32 {
    36 + 720 * u32::from(column) / u32::from(columns_of(total))
}

// How many changes there are before a column.
fn bound_of(total: usize, column: u16) -> u128
    ensures { result < 2 ^ 100 }
{
    let columns = u128::from(columns_of(total));
    (total as u128 * u128::from(column) + (columns - 1)) / columns
}

//! The lines of a program in the columns of the book, as a table of LaTeX.

use crate::print::loaded::line_at;
use crate::table::add_byte;
use mix_lines::{is_blank, is_comment, number};
use mix_refused::Memory;
use mix_session::{Tally, tally_in};
use mix_stream::Counted;
use mixal_asm::Program;
use mixal_text::{Part, part_span};
use std::alloc::Global;

/// A table of more rows may need more than a page.
const PAGE_ROWS: usize = 40;

const HEAD: &[u8] = b"{rlllrp{0.4\\linewidth}}\n\\toprule\n\
line & LOC & OP & ADDRESS & times & remarks \\\\\n\\midrule\n";

// A letter that the fonts of pdfTeX lack is printed as ?; other engines have letters of all scripts.
const ANY_SCRIPT: &[u8] =
    b"\\providecommand\\inanyscript[1]{\\begingroup\\def\\TextSymbolUnavailable\
{\\def\\TextSymbolUnavailable####1{?}\\fontencoding{T1}\\selectfont}\
\\expandafter\\def\\csname UTFviii@undefined@err\\endcsname##1{?}#1\\endgroup}\n";

/// A row for each line up to END (1.3.2): its number, LOC, OP and ADDRESS, its times and its remark. The times are how often its
/// instruction was executed, by tallies of the cells, or without these the formula in brackets of its remark.
pub(crate) fn typeset(
    alloc: Global,
    program: &Program,
    tallies: Option<&[Tally]>,
) -> Result<Vec<u8>, Memory> {
    let mut listing = Counted::of(Vec::new(alloc));
    if program.write_listing(alloc, &mut listing).is_err() {
        return Err(Memory);
    }
    let (mut rows, mut count) = (Vec::new(alloc), 0usize);
    for row in listing.inner.split(|byte| *byte == b'\n') {
        if let Some((line, text)) = numbered(row) {
            let times = match tallies {
                Some(tallies) => times_of(program, tallies, row, line).or(Some(0)),
                None => None,
            };
            add_row(alloc, &mut rows, line, text, times)?;
            count = count.saturating_add(1);
        }
    }
    let mut table = Vec::new(alloc);
    if !rows.is_ascii() {
        table.extend_from_slice(ANY_SCRIPT)?;
    }
    let (begin, head, end) = frame(count);
    for part in [begin, HEAD, head] {
        table.extend_from_slice(part)?;
    }
    table.extend_from_slice(rows.as_slice())?;
    table.extend_from_slice(end)?;
    Ok(table)
}

// What a table of so many rows begins with, has below its head, and ends with.
fn frame(rows: usize) -> (&'static [u8], &'static [u8], &'static [u8]) {
    if rows > PAGE_ROWS {
        (
            b"\\begin{longtable}",
            b"\\endhead\n",
            b"\\bottomrule\n\\end{longtable}\n",
        )
    } else {
        (b"\\begin{tabular}", b"", b"\\bottomrule\n\\end{tabular}\n")
    }
}

// The number and the text of a row of the listing, if it is that of a line.
fn numbered(row: &[u8]) -> Option<(u64, &[u8])> {
    Some((number(row.get(24..29)?.trim_ascii())?, row.get(31..)?))
}

// How often the instruction of a row was executed, if its line put the last word into its cell.
fn times_of(program: &Program, tallies: &[Tally], row: &[u8], line: u64) -> Option<u64> {
    let cell = u16::try_from(number(row.get(..4)?)?).ok()?;
    if u64::from(line_at(program, cell)?) == line {
        Some(tally_in(tallies, cell).count)
    } else {
        None
    }
}

// Appends the row of a line: its number, LOC, OP and ADDRESS, its times and its remark.
fn add_row(
    alloc: Global,
    rows: &mut Vec<u8>,
    number: u64,
    line: &[u8],
    count: Option<u64>,
) -> Result<(), Memory> {
    let digits = format!(in alloc; "{number} & ")?;
    rows.extend_from_slice(digits.as_bytes())?;
    let remark = add_code(rows, line)?;
    let (before, formula, after) = match bracketed(remark) {
        Some(parts) => parts,
        None => (remark, &remark[..0], &remark[..0]),
    };
    let counted = match count {
        None | Some(0) => String::new(alloc),
        Some(count) => format!(in alloc; "{count}")?,
    };
    let times = if count.is_none() {
        formula
    } else {
        counted.as_bytes()
    };
    let sign: &[u8] = if times.is_empty() { b"" } else { b"$" };
    for part in [sign, times, sign, b" & "] {
        rows.extend_from_slice(part)?;
    }
    for part in [before, after] {
        add_remark(rows, part.trim_ascii())?;
    }
    rows.extend_from_slice(b"\\\\\n")?;
    Ok(())
}

// Appends a part of a remark and a blank. One that is not in ASCII alone may be in any script.
fn add_remark(rows: &mut Vec<u8>, part: &[u8]) -> Result<(), Memory> {
    let in_script = !part.is_ascii() && str::from_utf8(part).is_ok();
    let (begin, end): (&[u8], &[u8]) = match (in_script, part) {
        (_, []) => (b"", b""),
        (true, _) => (b"\\inanyscript{", b"} "),
        (false, _) => (b"", b" "),
    };
    rows.extend_from_slice(begin)?;
    add_text(rows, part, b' ', in_script)?;
    rows.extend_from_slice(end)?;
    Ok(())
}

// Appends LOC, OP and ADDRESS; what follows them in the line.
fn add_code<'a>(rows: &mut Vec<u8>, line: &'a [u8]) -> Result<&'a [u8], Memory> {
    if is_comment(line) {
        rows.extend_from_slice(b"\\texttt{*} &  &  & ")?;
        return Ok(line.get(1..).unwrap_or(&[]));
    }
    let address = part_span(line, Part::Address);
    let mut rest = &line[address.to..];
    let quoted = line[..address.from].ends_with(b"\"");
    for span in [
        part_span(line, Part::Label),
        part_span(line, Part::Operation),
    ] {
        add_part(rows, &line[span.from..span.to], b"")?;
    }
    let quote: &[u8] = if quoted { b"\"" } else { b"" };
    if quoted && rest.starts_with(b"\"") {
        rest = &rest[1..];
    }
    add_part(rows, &line[address.from..address.to], quote)?;
    Ok(rest)
}

// Appends a part of a line in typewriter type, between quotation marks if ALF has them.
fn add_part(rows: &mut Vec<u8>, part: &[u8], quote: &[u8]) -> Result<(), Memory> {
    if !part.is_empty() || !quote.is_empty() {
        rows.extend_from_slice(b"\\texttt{")?;
        for text in [quote, part, quote] {
            add_text(rows, text, b'~', false)?;
        }
        rows.extend_from_slice(b"}")?;
    }
    rows.extend_from_slice(b" & ")?;
    Ok(())
}

// What is before, in and after the first brackets of a remark, if they have a formula.
fn bracketed(remark: &[u8]) -> Option<(&[u8], &[u8], &[u8])> {
    let open = remark.iter().position(|byte| *byte == b'[')?;
    let (before, rest) = remark.split_at(open);
    let close = rest.iter().position(|byte| *byte == b']')?;
    let (formula, after) = (rest.get(1..close)?, rest.get(close + 1..)?);
    let is_formula = formula.iter().all(|byte| byte.is_ascii_alphanumeric()
        || b" +-*/()".contains(byte));
    if is_formula {
        Some((before, formula, after))
    } else {
        None
    }
}

// Appends a text. A letter that may be printed as another one together with the one before it, such
// as two hyphens as a dash, is parted from that; a byte beyond ASCII is known in a script alone.
fn add_text(rows: &mut Vec<u8>, text: &[u8], blank: u8, in_script: bool) -> Result<(), Memory> {
    let mut last = b' ';
    for byte in text {
        if may_join(last) && may_join(*byte) {
            rows.extend_from_slice(b"{}")?;
        }
        last = *byte;
        if is_blank(last) {
            rows.push(blank)?;
        } else if last.is_ascii_control() || !last.is_ascii() && !in_script {
            rows.push(b'?')?;
        } else {
            add_byte(rows, last)?;
        }
    }
    Ok(())
}

fn may_join(byte: u8) -> bool {
    b"-<>,'`?!".contains(&byte)
}

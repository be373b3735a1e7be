//! A table of numbers and texts, as CSV, JSON or LaTeX.

mod latex;

use crate::print::loaded::line_at;
use crate::table::latex::{add_latex_row, digits};
use csv::{ByteRecord, Writer};
use json::Writer as JsonWriter;
pub(crate) use latex::add_byte;
use mix_refused::Memory;
use mix_word::{Sign, Word};
use mixal_asm::Program;
use std::alloc::Global;

/// The form of a table: comma-separated values (RFC 4180, but with line feeds), an array of JSON
/// objects, or a LaTeX `tabular` with the rules of booktabs.
#[derive(Clone, Copy)]
pub enum TableFormat {
    Csv,
    Json,
    Latex,
}

/// A field of a table: a number with its sign, which -0 has too, a text, or nothing.
#[derive(Clone, Copy)]
pub(crate) enum Field<'a> {
    Number(Sign, u128),
    Text(&'a str),
    Missing,
}

impl<'a> Field<'a> {
    pub(crate) fn number(number: u128) -> Field<'a> {
        Field::Number(Sign::Plus, number)
    }

    pub(crate) fn signed(word: Word) -> Field<'a> {
        Field::Number(word.sign(), u128::from(word.magnitude()))
    }

    /// The line of the source that put its word into a cell.
    pub(crate) fn line(program: &Program, location: u16) -> Field<'a> {
        match line_at(program, location) {
            Some(line) => Field::number(u128::from(line)),
            None => Field::Missing,
        }
    }
}

/// A table that is written row by row: its form, the names of its columns, and whether the next row
/// is the first.
#[derive(Drop)]
pub(crate) struct Table {
    format: TableFormat,
    names: &'static [&'static str],
    first: bool,
}

impl Table {
    /// Appends what is before the rows. LaTeX aligns the columns by the letters of `columns`.
    pub(crate) fn begin(
        alloc: Global,
        format: TableFormat,
        names: &'static [&'static str],
        columns: &str,
        text: &mut Vec<u8>,
    ) -> Result<Table, Memory> {
        let mut head = Vec::new(alloc);
        for name in names {
            head.push(Field::Text(name))?;
        }
        match format {
            TableFormat::Csv => add_record(alloc, &head, text)?,
            TableFormat::Json => text.push(b'[')?,
            TableFormat::Latex => {
                let begin = format!(in alloc; "\\begin{{tabular}}{{{columns}}}\n\\toprule\n")?;
                text.extend_from_slice(begin.as_bytes())?;
                add_latex_row(alloc, &head, text)?;
                text.extend_from_slice(b"\\midrule\n")?;
            }
        }
        Ok(Table {
            format,
            names,
            first: true,
        })
    }

    /// Appends a row.
    pub(crate) fn add_row(
        &mut self,
        alloc: Global,
        fields: &[Field<'_>],
        text: &mut Vec<u8>,
    ) -> Result<(), Memory> {
        match self.format {
            TableFormat::Csv => add_record(alloc, fields, text)?,
            TableFormat::Json => {
                text.extend_from_slice(if self.first { b"\n{" } else { b",\n{" })?;
                add_members(alloc, self.names, fields, text)?;
                text.push(b'}')?;
            }
            TableFormat::Latex => add_latex_row(alloc, fields, text)?,
        }
        self.first = false;
        Ok(())
    }

    /// Appends what is after the rows.
    pub(crate) fn end(&self, text: &mut Vec<u8>) -> Result<(), Memory> {
        match self.format {
            TableFormat::Csv => {}
            TableFormat::Json => text.extend_from_slice(b"\n]\n")?,
            TableFormat::Latex => text.extend_from_slice(b"\\bottomrule\n\\end{tabular}\n")?,
        }
        Ok(())
    }
}

// A row of CSV. What a spreadsheet would take for a formula is after an apostrophe.
fn add_record(alloc: Global, fields: &[Field<'_>], text: &mut Vec<u8>) -> Result<(), Memory> {
    let mut row = ByteRecord::new(alloc);
    for field in fields {
        let plain = match field {
            Field::Number(sign, magnitude) => digits(alloc, *sign, *magnitude)?,
            Field::Text(text) => match text.as_bytes() {
                [b'=' | b'+' | b'-' | b'@' | b'\t' | b'\r', ..] => format!(in alloc; "'{text}")?,
                _ => String::from_str(alloc, text)?,
            },
            Field::Missing => String::new(alloc),
        };
        row.push_field(plain.as_bytes())?;
    }
    let mut writer = Writer::from_writer(Vec::new(alloc));
    if writer.write_byte_record(&row).is_err() {
        return Err(Memory);
    }
    match writer.into_inner() {
        Ok(line) => text.extend_from_slice(&line)?,
        Err(_) => return Err(Memory),
    }
    Ok(())
}

// The members of an object of JSON, each field after the name of its column, which needs no escape.
fn add_members(
    alloc: Global,
    names: &[&str],
    fields: &[Field<'_>],
    text: &mut Vec<u8>,
) -> Result<(), Memory> {
    let mut before: &[u8] = b"\"";
    for (name, field) in names.iter().zip(fields) {
        for part in [before, name.as_bytes(), b"\":"] {
            text.extend_from_slice(part)?;
        }
        match field {
            Field::Number(sign, magnitude) => {
                let digits = digits(alloc, *sign, *magnitude)?;
                text.extend_from_slice(digits.as_bytes())?;
            }
            Field::Text(value) => {
                let mut writer = JsonWriter::new(Vec::new(alloc));
                writer.string(value)?;
                text.extend_from_slice(&writer.into_inner())?;
            }
            Field::Missing => text.extend_from_slice(b"null")?,
        }
        before = b",\"";
    }
    Ok(())
}

//! What clap found of a command line, as values.

use clap::ArgMatches;
use mix_plan::{AskedTable, TableFormat, TableOf, UnitSet};
use std::alloc::{AllocError, Global};

/// The name of a file that the words give: clap refuses words without it.
pub(crate) fn required(
    alloc: Global,
    words: &ArgMatches<'_>,
    id: &str,
) -> Result<String, AllocError> {
    String::from_str(alloc, words.get_str(id).unwrap_or("-"))
}

/// Some texts, each as a string of its own.
pub(crate) fn owned(alloc: Global, texts: &[&str]) -> Result<Vec<String>, AllocError> {
    let mut names = Vec::new(alloc);
    for text in texts {
        names.push(String::from_str(alloc, text)?)?;
    }
    Ok(names)
}

/// The name of a file that the words may give.
pub(crate) fn optional(
    alloc: Global,
    words: &ArgMatches<'_>,
    id: &str,
) -> Result<Option<String>, AllocError> {
    match words.get_str(id) {
        Some(name) => Ok(Some(String::from_str(alloc, name)?)),
        None => Ok(None),
    }
}

/// What the table is about: the values of names, or else the part whose changes are asked for. A register may have the book's r before its name.
pub(crate) fn subject(alloc: Global, words: &ArgMatches<'_>) -> Result<Option<String>, AllocError> {
    if words.contains_id("formulas") {
        return optional(alloc, words, "formulas");
    }
    let Some(part) = words.get_str("writes") else {
        return Ok(None);
    };
    let registers = [
        ("rA", "A"),
        ("rX", "X"),
        ("rI1", "I1"),
        ("rI2", "I2"),
        ("rI3", "I3"),
        ("rI4", "I4"),
        ("rI5", "I5"),
        ("rI6", "I6"),
        ("rJ", "J"),
    ];
    for (written, name) in registers {
        if part.eq_ignore_ascii_case(written) {
            return Ok(Some(String::from_str(alloc, name)?));
        }
    }
    Ok(Some(String::from_str(alloc, part)?))
}

/// The table that is asked for, if one is.
pub(crate) fn table(words: &ArgMatches<'_>) -> Option<AskedTable> {
    let format = if words.get_flag("latex") {
        Some(TableFormat::Latex)
    } else if words.get_flag("json") {
        Some(TableFormat::Json)
    } else if words.get_flag("csv") {
        Some(TableFormat::Csv)
    } else {
        None
    };
    let of = if words.get_flag("counts") {
        TableOf::Counts
    } else if words.contains_id("formulas") {
        TableOf::Formulas
    } else if words.contains_id("writes") {
        TableOf::Writes
    } else if words.get_flag("trace") && format.is_some() {
        TableOf::Trace
    } else {
        return None;
    };
    Some(AskedTable {
        of,
        format: format.unwrap_or(TableFormat::Csv),
    })
}

/// The number that a text writes.
pub(crate) fn number(text: &str) -> Option<u64> {
    text.parse::<u64>().ok()
}

/// The units whose rows are written: all, where none is named.
pub(crate) fn units(words: &ArgMatches<'_>) -> UnitSet {
    let named = words.get_strs("unit");
    let prints = |unit| match named {
        Some(texts) => texts.iter().any(|text| number(text) == Some(unit)),
        None => true,
    };
    UnitSet {
        card_punch: prints(17),
        printer: prints(18),
        typewriter: prints(19),
        paper_tape: prints(20),
    }
}

//! What `show analysis` writes.

use crate::analysis::{Analysis, Judged, Verdict};
use crate::arithmetic::{Operator, Reckoned, outcome};
use crate::found::{natural, part_of};
use crate::text::after_opening;
use crate::value::{Value, told};
use mix_refused::Memory;
use std::alloc::{AllocError, Global};

/// The lines of `show analysis`: for each row its count, the formula's value and `ok`, `no`, `gave` or `?`, and what `beside_text` says.
pub fn analysis_text(alloc: Global, analysis: &Analysis) -> Result<Vec<u8>, Memory> {
    let mut text = Vec::new(alloc);
    for judged in &analysis.lines {
        let (count, line, verdict) = (judged.row.count, judged.row.line, judged.verdict.text());
        let value = value_text(alloc, judged.value)?;
        let value = value.as_str();
        let columns = format!(in alloc; "{count:>10}  {value:>10}  {verdict:<4}{line:>5}  ")?;
        text.extend_from_slice(columns.as_bytes())?;
        text.extend_from_slice(judged.row.text)?;
        text.push(b'\n')?;
        add_unread(&mut text, judged)?;
    }
    add_sums(&mut text, analysis)?;
    Ok(text)
}

/// What is said beside the rows: which formulas cannot be read, the names with their values, the time as a sum of formulas, which lines are left out of
/// it, and how many rows agree.
pub fn beside_text(alloc: Global, analysis: &Analysis) -> Result<Vec<u8>, Memory> {
    let mut text = Vec::new(alloc);
    for judged in &analysis.lines {
        add_unread(&mut text, judged)?;
    }
    add_sums(&mut text, analysis)?;
    Ok(text)
}

// Appends where a formula cannot be read.
fn add_unread(text: &mut Vec<u8>, judged: &Judged) -> Result<(), AllocError> {
    let Value::Unreadable(place) = judged.value else {
        return Ok(());
    };
    let (alloc, row) = (*text.allocator(), judged.row);
    let line = row.line;
    let before = row.text.len().saturating_sub(after_opening(row.text).len());
    let column = before as u128 + place as u128 + 1;
    let unread = format!(in alloc; "? line {line} column {column}: the formula cannot be read\n")?;
    text.extend_from_slice(unread.as_bytes())
}

// Appends the names, the time, and how many rows agree.
fn add_sums(text: &mut Vec<u8>, analysis: &Analysis) -> Result<(), AllocError> {
    let alloc = *text.allocator();
    text.extend_from_slice(b"names")?;
    for (name, value) in &analysis.names {
        let value = value_text(alloc, *value)?;
        text.push(b' ')?;
        text.extend_from_slice(name)?;
        text.push(b'=')?;
        text.extend_from_slice(value.as_bytes())?;
    }
    text.push(b'\n')?;
    add_time(text, &analysis.lines)?;
    let (mut agree, mut differ, mut open, mut gave): (u64, u64, u64, u64) = (0, 0, 0, 0);
    for judged in &analysis.lines {
        match judged.verdict {
            Verdict::Agrees => agree = agree.saturating_add(1),
            Verdict::Differs => differ = differ.saturating_add(1),
            Verdict::Open => open = open.saturating_add(1),
            Verdict::Gave => gave = gave.saturating_add(1),
        }
    }
    let verdicts = format!(in alloc; "lines {agree} ok, {differ} no, {open} ?")?;
    text.extend_from_slice(verdicts.as_bytes())?;
    if gave > 0 {
        let givers = format!(in alloc; ", {gave} gave a name its value")?;
        text.extend_from_slice(givers.as_bytes())?;
    }
    text.push(b'\n')?;
    Ok(())
}

/// A value as a text.
pub fn value_text(alloc: Global, value: Value) -> Result<String, AllocError> {
    match value {
        Value::Known(number) => format!(in alloc; "{number}"),
        Value::Unknown => String::from_str(alloc, "?"),
        Value::Unreadable(_) => String::from_str(alloc, "unread"),
        Value::TooLarge => String::from_str(alloc, "large"),
    }
}

// Appends the time as a sum: each formula once, with the time of one execution of all its lines; what was measured, and what the formulas come to;
// and which lines are left out.
fn add_time(text: &mut Vec<u8>, lines: &[Judged]) -> Result<(), AllocError> {
    let alloc = *text.allocator();
    text.extend_from_slice(b"time ")?;
    let mut listed: Vec<&[u8]> = Vec::new(alloc);
    let mut measured: u128 = 0;
    let mut worth = Reckoned::Known(0);
    for judged in lines {
        let Some(share) = judged.share() else {
            continue;
        };
        let formula = judged.formula();
        measured = measured.saturating_add(judged.row.time);
        let product = outcome(Operator::Multiply, natural(share), part_of(judged.value));
        worth = outcome(Operator::Add, worth, product);
        if listed.iter().any(|other| *other == formula) {
            continue;
        }
        if !listed.is_empty() {
            text.extend_from_slice(b" + ")?;
        }
        listed.push(formula)?;
        let factor = factor_of(formula, lines);
        let factor = format!(in alloc; "{factor}(")?;
        text.extend_from_slice(factor.as_bytes())?;
        text.extend_from_slice(formula)?;
        text.push(b')')?;
    }
    if listed.is_empty() {
        text.push(b'0')?;
    }
    let worth = value_text(alloc, told(worth))?;
    let sums = format!(in alloc; " = {measured} = {worth}\n")?;
    text.extend_from_slice(sums.as_bytes())?;
    for judged in lines {
        if judged.share().is_none() {
            let line = judged.row.line;
            let left_out = format!(in alloc; "time of line {line} is left out\n")?;
            text.extend_from_slice(left_out.as_bytes())?;
        }
    }
    Ok(())
}

// The time of one execution of all lines of a formula.
fn factor_of(formula: &[u8], lines: &[Judged]) -> u128 {
    let mut sum: u128 = 0;
    for judged in lines {
        if judged.formula() == formula {
            sum = sum.saturating_add(judged.share().unwrap_or(0));
        }
    }
    sum
}

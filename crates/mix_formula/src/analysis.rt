//! The counts of a program beside its formulas: of each line the value and whether it agrees, and the names with their values.

ghost use Rattle.std.specs.Prelude.{◌≡◌, IfOk, List, map};
ghost use Rattle.mix_formula.specs.Judged.{judged_by, judged_seen};
ghost use Rattle.mix_formula.specs.Prelude.{NameValue, all_named, all_rows};
ghost use Rattle.mix_formula.specs.Rows.{row_value};

use crate::found::{all_values, is_count};
use crate::names::{Named, has_given, is_same_name, value_in};
use crate::rows::{Row, formula_in};
use crate::text::is_name;
use crate::value::{Value, value_of};
use mix_refused::Memory;
use std::alloc::Global;

/// How a line's count agrees with its formula.
#[derive(Clone, Copy)]
pub enum Verdict {
    /// They are equal.
    Agrees,
    /// They are not.
    Differs,
    /// They are, by that alone that the count gave a name its value.
    Gave,
    /// The formula has no value.
    Open,
}

impl Verdict {
    /// As it is written.
    pub fn text(self) -> &'static str {
        match self {
            Verdict::Agrees => "ok",
            Verdict::Differs => "no",
            Verdict::Gave => "gave",
            Verdict::Open => "?",
        }
    }
}

/// A line with the value of its formula.
#[derive(Clone, Copy)]
pub struct Judged<'a> {
    pub row: Row<'a>,
    pub value: Value,
    pub verdict: Verdict,
}

impl<'a> Judged<'a> {
    /// Its formula.
    pub fn formula(&self) -> &'a [u8] {
        formula_in(self.row.text)
    }

    /// The time of one execution, if its formula can be read and each took as long, as far as its sum says: so it is in the sum of the time.
    pub(crate) fn share(&self) -> Option<u128> {
        let count = u128::from(self.row.count);
        if matches!(self.value, Value::Unreadable(_)) || count == 0 || self.row.time % count != 0 {
            None
        } else {
            Some(self.row.time / count)
        }
    }
}

/// The counts of a program beside its formulas.
#[derive(Drop)]
pub struct Analysis<'a> {
    /// The lines that have a formula.
    pub lines: Vec<Judged<'a>>,
    /// The names with their values, if they have one, in the order in which they first are in the lines.
    pub names: Vec<(&'a [u8], Value)>,
}

// A line by the values of names. One whose count gave a name its value agrees by that alone.
fn judged_line<'a>(names: &[Named], row: &Row<'a>) -> Judged<'a>
    ensures { judged_seen result ≡ judged_by (all_named names.now) (row_value row.now) }
{
    let value = value_of(formula_in(row.text), names);
    let verdict = match value {
        Value::Known(_) if !is_count(value, row.count) => Verdict::Differs,
        Value::Known(_) if has_given(names, row.line) => Verdict::Gave,
        Value::Known(_) => Verdict::Agrees,
        Value::Unknown | Value::Unreadable(_) | Value::TooLarge => Verdict::Open,
    };
    Judged {
        row: *row,
        value,
        verdict,
    }
}

/// The counts of a program beside its formulas: the names have the values that are given, or are found from the counts. Only out of memory refuses it.
pub fn analysis_of<'a>(
    alloc: Global,
    rows: &[Row<'a>],
    given: &[Named<'a>],
) -> Result<Analysis<'a>, Memory>
    ensures { IfOk result (λ a. (names : List NameValue) × (map judged_seen a.lines.items ≡ map (judged_by names) (all_rows rows.now))) }
{
    let values = all_values(alloc, rows, given)?;
    let mut lines = Vec::new(alloc);
    for row in rows {
        lines.push(judged_line(&values, row))?;
    }
    let names = names_in(alloc, &lines, &values)?;
    Ok(Analysis { lines, names })
}

// The names of the formulas that can be read, each with its value.
fn names_in<'a>(
    alloc: Global,
    lines: &[Judged<'a>],
    values: &[Named],
) -> Result<Vec<(&'a [u8], Value)>, Memory> {
    let mut names: Vec<(&'a [u8], Value)> = Vec::new(alloc);
    for line in lines {
        if matches!(line.value, Value::Unreadable(_)) {
            continue;
        }
        for word in line.formula().split(|byte| !byte.is_ascii_alphanumeric()) {
            if !is_name(word) || names.iter().any(|named| is_same_name(named.0, word)) {
                continue;
            }
            let value = match value_in(values, word) {
                Some(value) => Value::Known(value),
                None => Value::Unknown,
            };
            names.push((word, value))?;
        }
    }
    Ok(names)
}

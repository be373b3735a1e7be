//! The values of names that are found from what is measured.
ghost use Rattle.std.specs.Prelude.{◌≡◌, pos};
ghost use Rattle.mix_formula.specs.Prelude.{within};
ghost use Rattle.mix_formula.specs.Found.{is_count, part_of};

use crate::arithmetic::{Operator, Reckoned, outcome};
use crate::names::{Named, Scope, is_same_name, value_in};
use crate::rows::{Row, formula_in};
use crate::text::is_name;
use crate::value::{Value, value_with};
use std::alloc::{AllocError, Global};

// Whether a line may give a name its value.
#[derive(Clone, Copy)]
enum Turn {
    // It is to be asked.
    Due,
    // It gave none: it is asked again when another of its names has a value.
    Waits,
    // Each of its names has a value.
    Over,
}

// A line, and whether it may give a value.
#[derive(Clone, Copy)]
struct Line<'a> {
    row: Row<'a>,
    turn: Turn,
}

// A formula and what its value should be, by the names that have one and one that has none.
#[derive(Clone, Copy)]
struct Equation<'a> {
    names: &'a [Named<'a>],
    formula: &'a [u8],
    name: &'a [u8],
    count: u64,
}

/// Whether a value is a count.
pub(crate) fn is_count(value: Value, count: u64) -> bool
    ensures { result ≡ is_count value count }
{
    match value {
        Value::Known(number) => number >= 0 && number as u64 == count,
        Value::Unknown | Value::Unreadable(_) | Value::TooLarge => false,
    }
}

/// A value as a part of a sum.
pub(crate) fn part_of(value: Value) -> Reckoned
    ensures { result ≡ part_of value }
{
    match value {
        Value::Known(number) => Reckoned::Known(number),
        Value::Unknown | Value::Unreadable(_) => Reckoned::Unknown,
        Value::TooLarge => Reckoned::TooLarge,
    }
}

/// A whole number as a part of a sum.
pub(crate) fn natural(number: u128) -> Reckoned
    ensures { result ≡ within (pos number) }
{
    if number < 9_223_372_036_854_775_808 {
        Reckoned::Known(number as i64)
    } else {
        Reckoned::TooLarge
    }
}

/// Whether a word is the name of a formula.
pub(crate) fn has_name(formula: &[u8], name: &[u8]) -> bool {
    formula
        .split(|byte| !byte.is_ascii_alphanumeric())
        .any(|word| is_same_name(word, name))
}

impl Equation<'_> {
    // The value of the formula, if the name has this one.
    fn at(&self, value: i64) -> Value {
        let (name, line, names) = (self.name, None, self.names);
        let tried = Some(Named { name, value, line });
        value_with(self.formula, &Scope { names, tried })
    }

    // The value of the name by which the formula is the count, if it is (count - f(0)) / (f(1) - f(0)).
    fn solution(&self) -> Option<i64> {
        let (at_0, at_1) = (part_of(self.at(0)), part_of(self.at(1)));
        let above = outcome(Operator::Subtract, natural(u128::from(self.count)), at_0);
        let below = outcome(Operator::Subtract, at_1, at_0);
        match outcome(Operator::Divide, above, below) {
            Reckoned::Known(value) if is_count(self.at(value), self.count) => Some(value),
            _ => None,
        }
    }
}

// What a line gives: its formula has to have one name without a value alone, since with a second one
// it has none at 0.
fn found_by<'a>(names: &[Named], row: &Row<'a>) -> (Turn, Option<Named<'a>>) {
    let formula = formula_in(row.text);
    let open = formula
        .split(|byte| !byte.is_ascii_alphanumeric())
        .find(|word| is_name(word) && value_in(names, word).is_none());
    let Some(name) = open else {
        return (Turn::Over, None);
    };
    let equation = Equation {
        names,
        formula,
        name,
        count: row.count,
    };
    match equation.solution() {
        Some(value) => {
            let line = Some(row.line);
            (Turn::Over, Some(Named { name, value, line }))
        }
        None => (Turn::Waits, None),
    }
}

/// The values of all names: the given ones, and those that lines give: each time the first line that
/// gives one, until none does. A line is asked again only where a name of its formula came to have a
/// value. Only out of memory refuses it.
pub(crate) fn all_values<'a>(
    alloc: Global,
    rows: &[Row<'a>],
    given: &[Named<'a>],
) -> Result<Vec<Named<'a>>, AllocError> {
    let mut names = Vec::from_slice(alloc, given)?;
    let mut lines = Vec::new(alloc);
    for row in rows {
        lines.push(Line {
            row: *row,
            turn: Turn::Due,
        })?;
    }
    let most = rows.len().saturating_mul(rows.len().saturating_add(1));
    for _turn in 0..most {
        let due = lines.iter().position(|line| matches!(line.turn, Turn::Due));
        let Some(at) = due else {
            break;
        };
        let (turn, found) = found_by(&names, &lines[at].row);
        lines[at].turn = turn;
        if let Some(found) = found {
            names.push(found)?;
            for line in lines.iter_mut() {
                let formula = formula_in(line.row.text);
                if matches!(line.turn, Turn::Waits) && has_name(formula, found.name) {
                    line.turn = Turn::Due;
                }
            }
        }
    }
    Ok(names)
}

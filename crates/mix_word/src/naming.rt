//! The names of the operations (1.3.1), and an operation by its name.
ghost use Rattle.std.specs.Prelude.{◌≡◌, ◌<◌, ◌≤◌, ◌↔◌, Some, None, drop, length};
ghost use Rattle.std.specs.List.{find};
ghost use Rattle.std.specs.Option.{option_map};
ghost use Rattle.std.specs.Str.{bytes_eq};
ghost use Rattle.mix_word.specs.Prelude.{Operation, name_of, operations, operation_named};

use crate::operation::Operation;
use crate::rows::{Row, rows};

/// How many capitals and digits the longest names have (1.3.1).
pub const MAX_LETTERS: usize = 4;

/// The operation of this name (1.3.1), in capitals as it is given, or none where no operation has it; floating operations have none.
pub fn named(name: &[u8]) -> Option<Operation>
    ensures is { result ≡ operation_named name.now }
    ensures law { (op : Operation) → (result ≡ Some op) ↔ (name_of op ≡ name.now) }
    ensures long { MAX_LETTERS < length name.now → result ≡ None }
{
    let from = first_row(name);
    first_named(rows_from(rows(), from), name)
}

// The rows from one on.
#[tactic(auto, using(crate::proofs::NameLemmas::rests))]
fn rows_from(rows: &[Row], from: usize) -> &[Row]
    requires { from ≤ length rows.now }
    ensures { result.now ≡ drop from rows.now }
{
    &rows[from..]
}

// A row before which no operation of this name stands: names that begin in the same way stand together.
#[tactic(auto, unfolding(crate::specs::Table::operations, crate::specs::Table::operation_named))]
fn first_row(name: &[u8]) -> usize
    ensures is { find (λ op. bytes_eq (name_of op) name.now) (drop result operations) ≡ operation_named name.now }
    ensures within { result ≤ length operations }
{
    match name {
        [b'L', ..] => 15,
        [b'S', b'T', ..] => 31,
        [b'J', b'A', ..] => 56,
        [b'J', b'1', ..] => 62,
        [b'J', b'2', ..] => 68,
        [b'J', b'3', ..] => 74,
        [b'J', b'4', ..] => 80,
        [b'J', b'5', ..] => 86,
        [b'J', b'6', ..] => 92,
        [b'J', b'X', ..] => 98,
        [b'J', ..] => 41,
        [b'I', b'N', b'C', ..] => 104,
        [b'D', b'E', ..] => 105,
        [b'E', ..] => 106,
        [b'C', b'M', ..] => 136,
        _ => 0,
    }
}

fn first_named(rows: &[Row], name: &[u8]) -> Option<Operation>
    ensures { result ≡ option_map (λ r. r.0) (find (λ r. bytes_eq r.1.now name.now) rows.now) }
{
    let row = row_named(rows, name)?;
    Some(row.0)
}

fn row_named(rows: &[Row], name: &[u8]) -> Option<Row>
    ensures { result ≡ find (λ r. bytes_eq r.1.now name.now) rows.now }
{
    rows.iter().copied().find(|row| row.1.as_bytes() == name)
}

impl Operation {
    /// The name (1.3.1): two to four capitals and digits.
    pub fn name(self) -> &'static str
        ensures is { result.now ≡ name_of self }
        ensures named { operation_named result.now ≡ Some self }
        ensures longest { length result.now ≤ MAX_LETTERS }
    {
        self.row().1
    }
}

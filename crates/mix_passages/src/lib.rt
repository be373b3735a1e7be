//! The passages of a line: the states of a run in which the machine is at it, with chosen values and an assertion on them (1.2.1), as a table.
#![tactic(auto)]

mod asked;
mod assertion;
mod columns;
mod item;
mod read;
mod rows;
mod table;

pub use asked::{Assertion, Column, Item, Passages, Relation, Side};
pub use read::read_passages;
pub use rows::{Row, Table, rows_of};
pub use table::passages_text;

//! Views: what a page shows of the program, the machine and its changes, as values. They only look.

mod analysis;
mod asked;
mod bundle;
mod change;
mod check;
mod counts;
mod decoded;
mod done;
mod next;
mod nodes;
mod passages;
mod path;
mod program;
mod state;
mod units;
mod writes;

use crate::view::bundle::bundle_view;
use crate::view::check::check_view;
pub use analysis::analysis_view;
pub use change::change_view;
pub use counts::counts_view;
use dap_asked::{Fault, Given};
use mix_machine::{Reg, Word};
use mix_refused::{Memory, Refused};
use mix_session::{Altered, Letters, ShortLetters};
use mix_word::{Number, Short};
pub use next::next_view;
pub use nodes::nodes_view;
pub use passages::passages_view;
pub use path::path_view;
pub use program::program_view;
use rpc_message::{Fields, Request};
use serde_json::Value;
pub use state::state_view;
use std::alloc::Global;
pub use units::units_view;
pub use writes::writes_view;

/// What is asked of a text that the request gives.
pub fn given_view(alloc: Global, given: Given, request: &Request) -> Result<Value, Refused<Fault>> {
    match given {
        Given::Check => check_view(alloc, request),
        Given::Bundle => bundle_view(alloc, request),
    }
}

// A number that may be greater than what a page counts exactly, in decimal digits.
fn put_digits(alloc: Global, fields: &mut Fields, name: &str, number: u128) -> Result<(), Memory> {
    let digits = format!(in alloc; "{number}")?;
    fields.text(name, digits.as_str())
}

// A word as its bytes, as its number and in characters.
fn put_word(alloc: Global, fields: &mut Fields, word: Word) -> Result<(), Memory> {
    let letters = Letters(word);
    let bytes = format!(in alloc; "{word}")?;
    let characters = format!(in alloc; "{letters}")?;
    put_texts(alloc, fields, bytes.as_str(), word, characters.as_str())
}

// The word of a register: five bytes of rA and rX, two of the others.
fn put_register(
    alloc: Global,
    fields: &mut Fields,
    register: Reg,
    word: Word,
) -> Result<(), Memory> {
    match register {
        Reg::A | Reg::X => put_word(alloc, fields, word),
        Reg::I1 | Reg::I2 | Reg::I3 | Reg::I4 | Reg::I5 | Reg::I6 | Reg::J => {
            let (short, letters) = (Short(word), ShortLetters(word));
            let bytes = format!(in alloc; "{short}")?;
            let characters = format!(in alloc; "{letters}")?;
            put_texts(alloc, fields, bytes.as_str(), word, characters.as_str())
        }
    }
}

fn put_texts(
    alloc: Global,
    fields: &mut Fields,
    bytes: &str,
    word: Word,
    characters: &str,
) -> Result<(), Memory> {
    fields.text("word", bytes)?;
    put_number(alloc, fields, "number", word)?;
    fields.text("characters", characters)
}

// A word alone.
fn word_shown(alloc: Global, word: Word) -> Result<Value, Memory> {
    let mut fields = Fields::new(alloc);
    put_word(alloc, &mut fields, word)?;
    Ok(fields.done())
}

// The number of a word, with its sign: that of -0 too.
fn put_number(alloc: Global, fields: &mut Fields, name: &str, word: Word) -> Result<(), Memory> {
    fields.put(name, number_shown(alloc, word)?)
}

fn number_shown(alloc: Global, word: Word) -> Result<Value, Memory> {
    let number = Number(word);
    let number = format!(in alloc; "{number}")?;
    Ok(Value::try_from_str(alloc, number.as_str())?)
}

// The name of a part of the machine, as after `until` in a command.
fn part_name(alloc: Global, part: Altered) -> Result<String, Memory> {
    let text = match part {
        Altered::Register(register) => format!(in alloc; "{}", register.name())?,
        Altered::Over => format!(in alloc; "over")?,
        Altered::Cmp => format!(in alloc; "cmp")?,
        Altered::Loc => format!(in alloc; "loc")?,
        Altered::Clock => format!(in alloc; "clock")?,
        Altered::Cell(place) => format!(in alloc; "cell {}", place.number())?,
        Altered::Break(place) => format!(in alloc; "break {}", place.number())?,
        Altered::Unit(number) => format!(in alloc; "unit {}", number.number())?,
    };
    Ok(text)
}

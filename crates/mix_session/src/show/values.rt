//! What `show value` and `show values` write: words as bytes, as numbers and in characters.

ghost use Rattle.std.specs.Prelude.{◌≡◌, ◌++◌, OnOk, IfOk};
ghost use Rattle.mix_session.specs.ShowValue.{columns_text, value_line, register_values, cell_values, values_text, cell_values_text};

use crate::show::cells::place_at;
use crate::show::columns::{add_left, add_right};
use crate::show::lines::{Lines, add_lines};
use crate::show::words::{Letters, ShortLetters};
use mix_machine::{Place, Reg, World};
use mix_word::{Location, Number, Short, Word};
use std::alloc::{AllocError, Global};

/// The line of one word.
pub(super) fn value_lines(alloc: Global, word: Word) -> Result<Vec<u8>, AllocError>
    ensures { IfOk result (λ text. text.items ≡ value_line word) }
{
    let mut text = Vec::new(alloc);
    add_word(alloc, &mut text, word)?;
    Ok(text)
}

/// The lines of the registers.
pub(super) fn register_value_lines(alloc: Global, world: &World) -> Result<Vec<u8>, AllocError>
    ensures { IfOk result (λ text. text.items ≡ values_text world.now) }
{
    let mut text = Vec::new(alloc);
    for register in Reg::ALL {
        add_register(alloc, &mut text, world, register)?;
    }
    Ok(text)
}

/// The lines of the cells from a first to a last one.
pub(super) fn cell_value_lines(
    alloc: Global,
    world: &World,
    first: Place,
    last: Place,
) -> Result<Vec<u8>, AllocError>
    ensures { IfOk result (λ text. text.items ≡ cell_values_text world.now first last) }
{
    let mut text = Vec::new(alloc);
    let lines = CellValues(world);
    add_lines(alloc, &mut text, &lines, first.number(), last.number() + 1)?;
    Ok(text)
}

/// The machine whose cells are shown.
#[derive(Clone, Copy)]
struct CellValues<'a>(&'a World);

impl Lines for CellValues<'_> {
    ghost count = { λ _. 4000 };

    ghost line = { λ l. cell_values l.0.now };

    fn add(&self, alloc: Global, text: &mut Vec<u8>, number: u16) -> Result<(), AllocError> {
        let location = Location(number);
        let front = format!(in alloc; "{location} ")?;
        text.extend_from_slice(front.as_bytes())?;
        add_word(alloc, text, self.0.cell(place_at(number)))
    }
}

fn add_register(
    alloc: Global,
    text: &mut Vec<u8>,
    world: &World,
    register: Reg,
) -> Result<(), AllocError>
    ensures { OnOk result (text.new.items ≡ text.old.items ++ register_values world.now register) }
{
    add_left(text, 2, register.name().as_bytes())?;
    text.push(b' ')?;
    let word = world.register(register);
    match register {
        Reg::A | Reg::X => add_word(alloc, text, word),
        Reg::I1 | Reg::I2 | Reg::I3 | Reg::I4 | Reg::I5 | Reg::I6 | Reg::J => {
            let (short, letters) = (Short(word), ShortLetters(word));
            let (bytes, letters) = (
                format!(in alloc; "{short}")?,
                format!(in alloc; "{letters}")?,
            );
            add_columns(alloc, text, bytes.as_bytes(), word, letters.as_bytes())
        }
    }
}

// A word of five bytes.
fn add_word(alloc: Global, text: &mut Vec<u8>, word: Word) -> Result<(), AllocError>
    ensures { OnOk result (text.new.items ≡ text.old.items ++ value_line word) }
{
    let (letters, bytes) = (Letters(word), format!(in alloc; "{word}")?);
    let letters = format!(in alloc; "{letters}")?;
    add_columns(alloc, text, bytes.as_bytes(), word, letters.as_bytes())
}

// The bytes of a word, its number and its characters.
#[tactic(auto, unfolding(crate::specs::ShowValue::columns_text))]
fn add_columns(
    alloc: Global,
    text: &mut Vec<u8>,
    bytes: &[u8],
    word: Word,
    letters: &[u8],
) -> Result<(), AllocError>
    ensures { OnOk result (text.new.items ≡ text.old.items ++ columns_text bytes.now word letters.now) }
{
    let number = Number(word);
    let number = format!(in alloc; "{number}")?;
    add_left(text, 16, bytes)?;
    text.push(b' ')?;
    add_right(text, 11, number.as_bytes())?;
    text.extend_from_slice(b"  \"")?;
    text.extend_from_slice(letters)?;
    text.extend_from_slice(b"\"\n")?;
    Ok(())
}

//! What `show code` writes: cells as instructions, and the lines of the source that they come from.

ghost use Rattle.std.specs.Prelude.{◌≡◌, ◌++◌, OnOk, IfOk, codes};
ghost use Rattle.mixal_asm.specs.Prelude.{source_value, source_at};
ghost use Rattle.mix_session.specs.ShowCode.{is_overwritten, line_number, line_text, code_text, code_line, codes_text};

use crate::show::cells::place_at;
use crate::show::columns::{add_blanks, add_left, add_right};
use crate::show::lines::{Lines, add_lines};
use mix_machine::{Place, World};
use mix_word::{Instruction, Location};
use mixal_asm::{Program, Source};
use std::alloc::{AllocError, Global};

/// The lines of the cells from a first to a last one.
pub(super) fn code_lines(
    alloc: Global,
    program: &Program,
    world: &World,
    first: Place,
    last: Place,
) -> Result<Vec<u8>, AllocError>
    ensures { IfOk result (λ text. text.items ≡ codes_text program.now world.now first last) }
{
    let mut text = Vec::new(alloc);
    let code = Code { program, world };
    add_lines(alloc, &mut text, &code, first.number(), last.number() + 1)?;
    Ok(text)
}

/// A program, and the machine whose cells are shown.
#[derive(Clone, Copy)]
pub(super) struct Code<'a> {
    pub program: &'a Program,
    pub world: &'a World,
}

impl Lines for Code<'_> {
    ghost count = { λ _. 4000 };

    ghost line = { λ c. code_line c.program.now c.world.now };

    #[tactic(auto, unfolding(crate::specs::ShowCode::code_line))]
    fn add(&self, alloc: Global, text: &mut Vec<u8>, number: u16) -> Result<(), AllocError> {
        let place = place_at(number);
        let (location, word) = (Location(number), self.world.cell(place));
        let front = format!(in alloc; "{location}  {word}  ")?;
        text.extend_from_slice(front.as_bytes())?;
        self.add_instruction(alloc, text, place)?;
        text.push(b'\n')?;
        Ok(())
    }
}

impl Code<'_> {
    // The instruction of a cell, and the line that it comes from, if it comes from one.
    fn add_instruction(
        &self,
        alloc: Global,
        text: &mut Vec<u8>,
        place: Place,
    ) -> Result<(), AllocError>
        ensures { OnOk result (text.new.items ≡ text.old.items ++ code_text self.now.program.now self.now.world.now place (source_at self.now.program.now place)) }
    {
        let instruction = Instruction(self.world.cell(place));
        let instruction = format!(in alloc; "{instruction}")?;
        match self.program.source_at(place) {
            None => text.extend_from_slice(instruction.as_bytes()),
            Some(source) => {
                add_left(text, 17, instruction.as_bytes())?;
                self.add_source(alloc, text, place, source)
            }
        }
    }

    /// Two blanks and the line of the source that a cell comes from.
    pub(super) fn add_source(
        &self,
        alloc: Global,
        text: &mut Vec<u8>,
        place: Place,
        source: &Source,
    ) -> Result<(), AllocError>
        ensures { OnOk result (text.new.items ≡ text.old.items ++ (codes "  " ++ line_text (is_overwritten self.now.program.now self.now.world.now place) (source_value source.now))) }
    {
        text.extend_from_slice(b"  ")?;
        match self.program.word_at(place) {
            None => add_line(alloc, text, false, source),
            Some(put) => add_line(alloc, text, !put.is_same(self.world.cell(place)), source),
        }
    }
}

// A line of the source: its number, a mark where its cell is overwritten, a blank, and its bytes.
#[tactic(auto, unfolding(crate::specs::ShowCode::line_text))]
fn add_line(
    alloc: Global,
    text: &mut Vec<u8>,
    overwritten: bool,
    source: &Source,
) -> Result<(), AllocError>
    ensures { OnOk result (text.new.items ≡ text.old.items ++ line_text overwritten (source_value source.now)) }
{
    add_number(alloc, text, source)?;
    text.push(if overwritten { b'*' } else { b' ' })?;
    text.push(b' ')?;
    match source {
        Source::Line(_, line) => text.extend_from_slice(line),
        Source::Literal(literal) => {
            text.push(b'=')?;
            text.extend_from_slice(literal)?;
            text.push(b'=')?;
            Ok(())
        }
        Source::Name(symbol) => text.extend_from_slice(symbol.name()),
    }
}

// The number of a line, which no inserted line has.
fn add_number(alloc: Global, text: &mut Vec<u8>, source: &Source) -> Result<(), AllocError>
    ensures { OnOk result (text.new.items ≡ text.old.items ++ line_number (source_value source.now)) }
{
    match source {
        Source::Line(number, _) => {
            let number = format!(in alloc; "{number}")?;
            add_right(text, 5, number.as_bytes())
        }
        Source::Literal(_) | Source::Name(_) => add_blanks(text, 5),
    }
}

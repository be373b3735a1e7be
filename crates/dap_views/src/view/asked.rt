//! The cells that `mix/state` is asked for, and what is shown of each.

ghost use Rattle.std.specs.Prelude.{IfOk};
ghost use Rattle.dap_views.specs.Asked.{IsRange};

use crate::view::decoded::{put_field, put_instruction};
use crate::view::put_word;
use dap_asked::{Fault, place_at};
use mix_machine::{Place, Word, World};
use mix_refused::{Memory, Refused};
use mix_word::{CELLS, Field, Instruction};
use rpc_message::{Fields, Request, natural};
use serde_json::Value;
use std::alloc::Global;

/// The ranges of cells that a request asks for, each by its first cell and its last.
pub(crate) fn ranges_asked(
    alloc: Global,
    request: &Request,
) -> Result<Vec<(u16, u16)>, Refused<Fault>> {
    match request.argument("cells") {
        None => Ok(Vec::new(alloc)),
        Some(list) => match list.as_array() {
            Some(list) => ranges_in(alloc, list.as_slice()),
            None => Err(Refused::Fault(Fault::BadArgument)),
        },
    }
}

// Ranges of no more cells together than the memory has.
fn ranges_in(alloc: Global, list: &[Value]) -> Result<Vec<(u16, u16)>, Refused<Fault>> {
    let mut ranges = Vec::new(alloc);
    let mut left = CELLS;
    for range in list {
        match range_of(range) {
            Ok((first, last)) => {
                let count = last + 1 - first;
                if left < count {
                    return Err(Refused::Fault(Fault::BadArgument));
                }
                left -= count;
                ranges.push((first, last))?;
            }
            Err(why) => return Err(Refused::Fault(why)),
        }
    }
    Ok(ranges)
}

// A range: a list of its first cell and its last.
fn range_of(range: &Value) -> Result<(u16, u16), Fault>
    ensures { IfOk result (λ range. IsRange range) }
{
    let list = range.as_array().ok_or(Fault::BadArgument)?;
    let [first, last] = list.as_slice() else {
        return Err(Fault::BadArgument);
    };
    let first = natural(first).ok_or(Fault::BadArgument)?;
    let last = natural(last).ok_or(Fault::BadArgument)?;
    if first > last {
        return Err(Fault::BadArgument);
    }
    if last >= u64::from(CELLS) {
        return Err(Fault::NoSuchThing);
    }
    Ok((first as u16, last as u16))
}

/// The cells that are asked for, and what of each beside its word and its text: the number of a field, and the instruction in its parts.
#[derive(Clone, Copy)]
pub(crate) struct AskedCells<'a> {
    pub world: &'a World,
    pub field: Option<Field>,
    pub instructions: bool,
    pub nonzero: bool,
    pub ranges: &'a [(u16, u16)],
}

/// What is shown of them, in rising order.
pub(crate) fn cells(alloc: Global, asked: &AskedCells<'_>) -> Result<Vec<Value>, Memory> {
    let mut list = Vec::new(alloc);
    for number in 0..CELLS {
        let place = place_at(number);
        if is_asked(asked, place) {
            list.push(cell_shown(alloc, asked, place)?)?;
        }
    }
    Ok(list)
}

fn is_asked(asked: &AskedCells<'_>, place: Place) -> bool {
    let (number, word) = (place.number(), asked.world.cell(place));
    let is_in = |range: &(u16, u16)| range.0 <= number && number <= range.1;
    (asked.nonzero && word != Word::ZERO) || asked.ranges.iter().any(is_in)
}

fn cell_shown(alloc: Global, asked: &AskedCells<'_>, place: Place) -> Result<Value, Memory> {
    let word = asked.world.cell(place);
    let mut fields = Fields::new(alloc);
    fields.number("cell", u64::from(place.number()))?;
    put_word(alloc, &mut fields, word)?;
    let instruction = Instruction(word);
    let text = format!(in alloc; "{instruction}")?;
    fields.text("text", text.as_str())?;
    put_field(alloc, &mut fields, asked.field, "value", word)?;
    if asked.instructions {
        put_instruction(alloc, &mut fields, asked.world, word)?;
    }
    Ok(fields.done())
}

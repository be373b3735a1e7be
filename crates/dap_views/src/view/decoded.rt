//! What a word is shown as beside its bytes, where that is asked for: as the number of a field of it, and as the instruction that it is.

use crate::view::put_number;
use dap_asked::Fault;
use mix_machine::{Place, Reg, Sign, Word, World};
use mix_refused::{Memory, Refused};
use mix_word::{Decoded, Field, Operation, Parts, Uses, add, decode};
use rpc_message::{Fields, Request};
use serde_json::Value;
use std::alloc::Global;

/// The field that a request asks for by its code, if it asks for one.
pub(crate) fn field_asked(request: &Request) -> Result<Option<Field>, Refused<Fault>> {
    let Some(code) = request.number("field") else {
        return Ok(None);
    };
    match u8::try_from(code).ok().and_then(Field::of) {
        Some(field) => Ok(Some(field)),
        None => Err(Refused::Fault(Fault::NoSuchThing)),
    }
}

/// The number of a field in a word, if one is asked for.
pub(crate) fn put_field(
    alloc: Global,
    fields: &mut Fields,
    field: Option<Field>,
    name: &str,
    word: Word,
) -> Result<(), Memory> {
    match field {
        None => Ok(()),
        Some(field) => put_number(alloc, fields, name, word.field_value(field)),
    }
}

/// The instruction that a word is, if its C and F name an operation.
pub(crate) fn put_instruction(
    alloc: Global,
    fields: &mut Fields,
    world: &World,
    word: Word,
) -> Result<(), Memory> {
    let parts = word.parts();
    match decode(parts.code, parts.f) {
        Decoded::Named(operation) => fields.put(
            "instruction",
            instruction_shown(alloc, world, parts, operation)?,
        ),
        Decoded::Floating | Decoded::Unknown => Ok(()),
    }
}

// With M, as it is now, and V, if it has one.
fn instruction_shown(
    alloc: Global,
    world: &World,
    parts: Parts,
    operation: Operation,
) -> Result<Value, Memory> {
    let address = Word::of(parts.sign, u32::from(parts.address));
    let address = add(address, index_of(world, parts.index)).0;
    let mut fields = Fields::new(alloc);
    fields.text("operation", operation.name())?;
    fields.number("index", u64::from(parts.index))?;
    fields.number("field", u64::from(parts.f))?;
    put_number(alloc, &mut fields, "address", address)?;
    if let Some(value) = operand_by(world, operation.uses(), parts.f, address) {
        put_number(alloc, &mut fields, "value", value)?;
    }
    Ok(fields.done())
}

// The index register of a number; +0 where there is none.
fn index_of(world: &World, index: u8) -> Word {
    match index {
        1 => world.register(Reg::I1),
        2 => world.register(Reg::I2),
        3 => world.register(Reg::I3),
        4 => world.register(Reg::I4),
        5 => world.register(Reg::I5),
        6 => world.register(Reg::I6),
        _ => Word::of(Sign::Plus, 0),
    }
}

// V, of an operation that uses the field F of the cell M, if there are both.
fn operand_by(world: &World, uses: Uses, f: u8, m: Word) -> Option<Word> {
    match uses {
        Uses::Operand => {
            let place = u16::try_from(m.natural()?).ok().and_then(Place::of)?;
            Some(world.cell(place).field_value(Field::of(f)?))
        }
        _ => None,
    }
}

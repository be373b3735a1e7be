//! The memory as bytes.

ghost use Rattle.std.specs.Prelude.{◌≡◌, ◌≤◌, IfOk, IfSome, Ok, Err, codes};
ghost use Rattle.mix_refused.specs.Refused.{IfFault};
ghost use Rattle.dap_asked.specs.Layout.{byte_of_reference};
ghost use Rattle.dap_asked.specs.Memory.{integer_asked, start_asked};

use crate::fault::Fault;
use crate::layout::{MEMORY_BYTES, byte_of_reference, byte_reference, memory_byte};
use base64::engine::general_purpose::STANDARD;
use mix_machine::World;
use mix_refused::Refused;
use rpc_message::{Fields, Request};
use serde_json::Value;
use std::alloc::Global;

/// A whole number that a request has, or 0.
pub fn integer_asked(request: &Request, name: &str) -> i64
    ensures { result ≡ integer_asked request.now name.now }
{
    request.integer(name).unwrap_or(0)
}

/// The byte that a request about the memory names.
pub fn start_of(request: &Request) -> Result<u64, Refused<Fault>>
    ensures is { IfOk result (λ start. start_asked request.now ≡ Ok start) }
    ensures bound { IfOk result (λ start. start ≤ 24000) }
    ensures refused { IfFault result (λ why. start_asked request.now ≡ Err why) }
{
    let Some(reference) = request.text("memoryReference") else {
        return Err(Refused::Fault(Fault::BadArgument));
    };
    match byte_asked(request, reference) {
        Some(start) => Ok(start),
        None => Err(Refused::Fault(Fault::NoSuchThing)),
    }
}

// The byte of a reference, with the offset that a request has.
fn byte_asked(request: &Request, reference: &str) -> Option<u64>
    ensures is { result ≡ byte_of_reference reference.now (integer_asked request.now (codes "offset")) }
    ensures bound { IfSome result (λ byte. byte ≤ 24000) }
{
    byte_of_reference(reference, integer_asked(request, "offset"))
}

/// Bytes of the memory, in base64; those beyond it can't be read.
pub fn read_memory(
    alloc: Global,
    world: &World,
    request: &Request,
) -> Result<Value, Refused<Fault>> {
    let start = start_of(request)?;
    let Some(count) = request.number("count") else {
        return Err(Refused::Fault(Fault::BadArgument));
    };
    let there = count.min(MEMORY_BYTES - start);
    let mut bytes = Vec::new(alloc);
    for i in 0..there {
        bytes.push(memory_byte(world, start + i))?;
    }
    let data = STANDARD.encode(alloc, bytes.as_slice())?;
    let mut body = Fields::new(alloc);
    body.text("address", byte_reference(alloc, start)?.as_str())?;
    body.text("data", data.as_str())?;
    if there < count {
        body.number("unreadableBytes", count - there)?;
    }
    Ok(body.done())
}

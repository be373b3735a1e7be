//! Where a `goto` leads, and writes of the memory.

ghost use Rattle.std.specs.Prelude.{◌≡◌, ◌∷◌, [], ◌+◌, ◌≤◌, ◌<◌, IfOk, Ok, Err, length};
ghost use Rattle.mix_refused.specs.Refused.{IfFault};
ghost use Rattle.dap_points.specs.Written.{byte_with, bytes_asked, cells_of, cells_with, cells_written, count_written, word_with, write_asked, with_cells, SetsSome, Writes};

use crate::points::cell_of_line;
use base64::DecodeAllocError;
use base64::engine::general_purpose::STANDARD;
use dap_asked::{
    CELL_BYTES, Fault, MEMORY_BYTES, cell_name, line_for, memory_byte, place_at, source_line,
    start_of, word_of,
};
use mix_machine::{Change, Place, Word, World};
use mix_refused::{Memory, Refused};
use mix_session::Session;
use rpc_message::Request;
use serde_json::{Value, json};
use std::alloc::Global;

/// The cells that a `goto` to a line of the source may lead to: the first one from the line on.
pub fn goto_targets(
    alloc: Global,
    session: &Session,
    first: u64,
    request: &Request,
) -> Result<Value, Refused<Fault>> {
    let Some(line) = request.number("line") else {
        return Err(Refused::Fault(Fault::BadArgument));
    };
    let mut list = Vec::new(alloc);
    if let Some((cell, line)) = cell_of_line(session.program(), source_line(first, line)) {
        let (label, line) = (cell_name(alloc, cell.number())?, line_for(first, line));
        let id = u64::from(cell.number());
        list.push(json!(in alloc; {"id": id, "label": label, "line": line})?)?;
    }
    Ok(json!(in alloc; {"targets": list})?)
}

/// Writes bytes in base64 into the memory, a change for each cell that they lie in, and tells how many they are. All bytes are looked at before
/// a cell is changed.
#[tactic(auto, using(crate::proofs::WrittenLemmas::none_written))]
pub fn write_memory(
    alloc: Global,
    session: &mut Session,
    request: &Request,
) -> Result<usize, Refused<Fault>>
    ensures program { session.new.program ≡ session.old.program }
    ensures first { session.new.timeline.first ≡ session.old.timeline.first }
    ensures writes { Writes (write_asked session.old request.now) session.old.timeline session.new.timeline result }
    ensures count { IfOk result (λ count. count ≡ count_written (write_asked session.old request.now)) }
{
    let asked = write_asked(alloc, session, request)?;
    set_cells(session, asked.cells.as_slice())?;
    Ok(asked.count)
}

// The cells that a write sets, each with its word, and how many bytes it writes.
#[derive(Drop)]
struct Write {
    cells: Vec<(Place, Word)>,
    count: usize,
}

// What a request to write asks for.
fn write_asked(alloc: Global, session: &Session, request: &Request) -> Result<Write, Refused<Fault>>
    ensures is { IfOk result (λ asked. write_asked session.now request.now ≡ Ok (asked.cells.items, asked.count)) }
    ensures refused { IfFault result (λ why. write_asked session.now request.now ≡ Err why) }
{
    let start = start_of(request)?;
    let bytes = bytes_asked(alloc, request)?;
    let cells = cells_written(alloc, session.world(), start, bytes.as_slice())?;
    Ok(Write {
        cells,
        count: bytes.len(),
    })
}

// The bytes that a request has in base64.
fn bytes_asked(alloc: Global, request: &Request) -> Result<Vec<u8>, Refused<Fault>>
    ensures is { IfOk result (λ bytes. bytes_asked request.now ≡ Ok bytes.items) }
    ensures refused { IfFault result (λ why. bytes_asked request.now ≡ Err why) }
{
    let Some(data) = request.text("data") else {
        return Err(Refused::Fault(Fault::BadArgument));
    };
    match STANDARD.decode(alloc, data.as_bytes()) {
        Ok(bytes) => Ok(bytes),
        Err(DecodeAllocError::OutOfMemory) => Err(Refused::Memory),
        Err(DecodeAllocError::DecodeError(_)) => Err(Refused::Fault(Fault::BadArgument)),
    }
}

// The cells that bytes set from one on, each with its word.
fn cells_written(
    alloc: Global,
    world: &World,
    start: u64,
    bytes: &[u8],
) -> Result<Vec<(Place, Word)>, Refused<Fault>>
    requires { start ≤ 24000 }
    ensures is { IfOk result (λ cells. cells_written world.now start bytes.now ≡ Ok cells.items) }
    ensures refused { IfFault result (λ why. cells_written world.now start bytes.now ≡ Err why) }
{
    let count = bytes.len() as u64;
    if count > MEMORY_BYTES - start {
        return Err(Refused::Fault(Fault::NoSuchThing));
    }
    if count == 0 {
        return Ok(Vec::new(alloc));
    }
    cells_with(alloc, world, start, bytes)
}

// The cells from that of the first byte to that of the last.
fn cells_with(
    alloc: Global,
    world: &World,
    start: u64,
    bytes: &[u8],
) -> Result<Vec<(Place, Word)>, Refused<Fault>>
    requires some { 0 < length bytes.now }
    requires within { start + length bytes.now ≤ 24000 }
    ensures is { IfOk result (λ cells. cells_with (word_with world.now start bytes.now) (cells_of start (length bytes.now)) ≡ Ok cells.items) }
    ensures refused { IfFault result (λ why. cells_with (word_with world.now start bytes.now) (cells_of start (length bytes.now)) ≡ Err why) }
{
    let mut cells = Vec::new(alloc);
    let end = (start + bytes.len() as u64 - 1) / CELL_BYTES + 1;
    for number in start / CELL_BYTES..end {
        match word_with(world, start, bytes, number) {
            Ok(word) => cells.push((place_at(number as u16), word))?,
            Err(fault) => return Err(Refused::Fault(fault)),
        }
    }
    Ok(cells)
}

// The word of a cell, where bytes were written from one on.
fn word_with(world: &World, start: u64, bytes: &[u8], cell: u64) -> Result<Word, Fault>
    requires { cell < 4000 }
    ensures { result ≡ word_with world.now start bytes.now cell }
{
    let at = cell * CELL_BYTES;
    word_of(
        byte_with(world, start, bytes, at),
        byte_with(world, start, bytes, at + 1),
        byte_with(world, start, bytes, at + 2),
        byte_with(world, start, bytes, at + 3),
        byte_with(world, start, bytes, at + 4),
        byte_with(world, start, bytes, at + 5),
    )
    .ok_or(Fault::BadArgument)
}

// A byte of the memory, where bytes were written from one on.
fn byte_with(world: &World, start: u64, bytes: &[u8], at: u64) -> u8
    requires { at < 24000 }
    ensures { result ≡ byte_with world.now start bytes.now at }
{
    if at < start {
        return memory_byte(world, at);
    }
    match bytes.get((at - start) as usize) {
        Some(byte) => *byte,
        None => memory_byte(world, at),
    }
}

// Sets cells, one after the other. The machine refuses none.
fn set_cells(session: &mut Session, cells: &[(Place, Word)]) -> Result<(), Memory>
    ensures program { session.new.program ≡ session.old.program }
    ensures first { session.new.timeline.first ≡ session.old.timeline.first }
    ensures all { IfOk result (λ _. session.new.timeline ≡ with_cells session.old.timeline cells.now) }
    ensures some { SetsSome session.old.timeline cells.now session.new.timeline }
{
    for cell in cells {
        set_cell(session, *cell)?;
    }
    Ok(())
}

fn set_cell(session: &mut Session, cell: (Place, Word)) -> Result<(), Memory>
    ensures program { session.new.program ≡ session.old.program }
    ensures first { session.new.timeline.first ≡ session.old.timeline.first }
    ensures all { IfOk result (λ _. session.new.timeline ≡ with_cells session.old.timeline (cell ∷ [])) }
    ensures some { SetsSome session.old.timeline (cell ∷ []) session.new.timeline }
{
    let (place, word) = cell;
    match session.execute(mix_session::Request::Change(Change::SetCell(place, word))) {
        Ok(_) => Ok(()),
        Err(Memory) => Err(Memory),
    }
}

//! The values of the machine as texts.

ghost use Rattle.std.specs.Prelude.{◌≡◌, ◌<◌, IfOk, string_bytes};
ghost use Rattle.dap_asked.specs.Value.{row_characters};

use crate::deed::{Worth, hovered, worth_of};
use crate::scope::{part_of, scope_of};
use mix_machine::{Part, Place, Reg, Word, World};
use mix_refused::Memory;
use mix_said::sentence;
use mix_session::{Altered, Characters, Held, Session};
use mix_word::Number;
use rpc_message::Request;
use std::alloc::Global;

/// A word: its sign and bytes, and its number.
pub fn word_value(alloc: Global, word: Word) -> Result<String, Memory> {
    let number = Number(word);
    let text = format!(in alloc; "{word} = {number}")?;
    Ok(text)
}

/// What a register holds: sign and bytes, of which an index register and rJ have two, and the number.
pub fn register_value(alloc: Global, world: &World, register: Reg) -> Result<String, Memory> {
    let number = Number(world.register(register));
    let held = Held(world, Altered::Register(register));
    let text = format!(in alloc; "{held} = {number}")?;
    Ok(text)
}

/// A cell by its number, in four digits.
pub fn cell_name(alloc: Global, number: u16) -> Result<String, Memory> {
    let text = format!(in alloc; "{number:04}")?;
    Ok(text)
}

/// What a part of the machine holds, but for a unit.
pub fn held(alloc: Global, world: &World, part: Altered) -> Result<String, Memory> {
    let held = Held(world, part);
    let text = format!(in alloc; "{held}")?;
    Ok(text)
}

/// The characters of words, without the blanks at their end.
pub fn characters(alloc: Global, words: &[Word]) -> Result<String, Memory>
    ensures { IfOk result (λ s. string_bytes s ≡ row_characters words.now) }
{
    let characters = Characters(words);
    let text = format!(in alloc; "{characters}")?;
    Ok(String::from_str(alloc, text.as_str().trim_end())?)
}

/// The cell at the location, if there is one.
pub fn cell_at(world: &World) -> Option<Place> {
    Place::of(world.loc())
}

/// The cell of a number.
pub fn place_at(number: u16) -> Place
    requires { number < 4000 }
    ensures { result ≡ number }
{
    Place::of(number).unwrap()
}

/// The value of the variable that a request names, or nothing if there is none.
pub fn value_asked(alloc: Global, world: &World, request: &Request) -> Result<String, Memory> {
    let name = request.text("name").unwrap_or("");
    let scope = request.number("variablesReference").and_then(scope_of);
    match scope.and_then(|scope| part_of(scope, name)) {
        Some(part) => part_value(alloc, world, part),
        None => Ok(String::new(alloc)),
    }
}

// What a part of the machine holds, as its variable shows it.
fn part_value(alloc: Global, world: &World, part: Part) -> Result<String, Memory> {
    match part {
        Part::Register(register) => register_value(alloc, world, register),
        Part::Over => held(alloc, world, Altered::Over),
        Part::Cmp => held(alloc, world, Altered::Cmp),
        Part::Loc => held(alloc, world, Altered::Loc),
        Part::Clock => held(alloc, world, Altered::Clock),
        Part::Cell(place) => word_value(alloc, world.cell(place)),
        Part::Unit(_) => Ok(String::new(alloc)),
    }
}

/// What the expression of a request is worth, or nothing if it is worth nothing.
pub fn worth_asked(alloc: Global, session: &Session, request: &Request) -> Result<String, Memory> {
    match expression_asked(session, request) {
        Some(worth) => worth_text(alloc, session.world(), &worth),
        None => Ok(String::new(alloc)),
    }
}

/// The same, or what the operation does that a hover names.
pub fn evaluated(alloc: Global, session: &Session, request: &Request) -> Result<String, Memory> {
    match expression_asked(session, request) {
        Some(worth) => worth_text(alloc, session.world(), &worth),
        None => match hovered(request) {
            Some(operation) => sentence(alloc, operation),
            None => Ok(String::new(alloc)),
        },
    }
}

/// The number of what the expression of a request is worth, if it is worth one.
pub fn number_asked(
    alloc: Global,
    session: &Session,
    request: &Request,
) -> Result<Option<String>, Memory> {
    match expression_asked(session, request) {
        Some(worth) => number_of_worth(alloc, session.world(), &worth),
        None => Ok(None),
    }
}

fn number_of_worth(alloc: Global, world: &World, worth: &Worth) -> Result<Option<String>, Memory> {
    match worth {
        Worth::Word(word) => Ok(Some(number_text(alloc, *word)?)),
        Worth::Held(part) => number_held(alloc, world, *part),
    }
}

// The number of what a part holds, if it is a word or a number.
fn number_held(alloc: Global, world: &World, part: Part) -> Result<Option<String>, Memory> {
    match part {
        Part::Register(register) => Ok(Some(number_text(alloc, world.register(register))?)),
        Part::Loc => Ok(Some(format!(in alloc; "{}", world.loc())?)),
        Part::Clock => Ok(Some(format!(in alloc; "{}", world.clock())?)),
        Part::Cell(place) => Ok(Some(number_text(alloc, world.cell(place))?)),
        Part::Over | Part::Cmp | Part::Unit(_) => Ok(None),
    }
}

// The number of a word, with its sign: that of -0 too.
fn number_text(alloc: Global, word: Word) -> Result<String, Memory> {
    let number = Number(word);
    let text = format!(in alloc; "{number}")?;
    Ok(text)
}

fn expression_asked(session: &Session, request: &Request) -> Option<Worth> {
    worth_of(session, request.text("expression")?)
}

fn worth_text(alloc: Global, world: &World, worth: &Worth) -> Result<String, Memory> {
    match worth {
        Worth::Word(word) => word_value(alloc, *word),
        Worth::Held(part) => part_value(alloc, world, *part),
    }
}

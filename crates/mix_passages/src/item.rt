//! A register or a cell, by the word that names it.
ghost use Rattle.std.specs.Prelude.{◌≡◌, codes};
ghost use Rattle.std.specs.Result.{result_ok};
ghost use Rattle.mix_machine.specs.World.{WorldState};
ghost use Rattle.mix_session.specs.Keyword.{is_name};
ghost use Rattle.mix_session.specs.Operand.{place_of};
ghost use Rattle.mix_passages.specs.Passages.{word_of};
ghost use Rattle.mix_passages.specs.Reading.{cell_in, is_defined, item_in, line_cell, register_in, register_named, register_written};

use crate::asked::Item;
use mix_lines::number;
use mix_machine::{Place, Reg, Sign, Word, World};
use mix_session::Session;
use mixal_text::{Names, Symbol, whole_expression};

/// The word that a register or a cell holds.
pub(crate) fn word_of(world: &World, item: Item) -> Word
    ensures { result ≡ word_of world.now item }
{
    match item {
        Item::Register(register) => world.register(register),
        Item::Cell(place) => world.cell(place),
    }
}

// The cell that a word's number names.
fn place_of(word: Word) -> Option<Place>
    ensures { result ≡ result_ok (place_of word) }
{
    u16::try_from(word.number()).ok().and_then(Place::of)
}

/// The cell that an expression names.
pub(crate) fn cell_in(session: &Session, word: &[u8]) -> Option<Place>
    ensures { result ≡ cell_in session.now word.now }
{
    let here = Word::of(Sign::Plus, u32::from(session.world().loc()));
    match whole_expression(word, session.program(), here) {
        Ok(value) => place_of(value),
        Err(_) => None,
    }
}

/// The cell of the first word that the lines from one on give.
pub(crate) fn line_cell(session: &Session, word: &[u8]) -> Option<Place>
    ensures { result ≡ line_cell session.now word.now }
{
    match number(word) {
        None => None,
        Some(line) => {
            if line == 0 {
                None
            } else {
                session.program().cell_from(line)
            }
        }
    }
}

fn is_defined(session: &Session, word: &[u8]) -> bool
    ensures { result ≡ is_defined session.now word.now }
{
    match Symbol::of(word) {
        None => false,
        Some(symbol) => session.program().value(&symbol).is_some(),
    }
}

fn register_named(word: &[u8]) -> Option<Reg>
    ensures { result ≡ register_named word.now }
{
    Reg::ALL
        .iter()
        .copied()
        .find(|r| word.eq_ignore_ascii_case(r.name().as_bytes()))
}

fn register_written(word: &[u8]) -> Option<Reg>
    ensures { result ≡ register_written word.now }
{
    match word.split_first() {
        None => None,
        Some((first, name)) => {
            if *first == b'r' || *first == b'R' {
                register_named(name)
            } else {
                None
            }
        }
    }
}

fn register_in(session: &Session, word: &[u8]) -> Option<Reg>
    ensures { result ≡ register_in session.now word.now }
{
    match register_written(word) {
        Some(register) => Some(register),
        None => {
            if is_defined(session, word) {
                None
            } else {
                register_named(word)
            }
        }
    }
}

/// What a word names: a register, or else a cell.
pub(crate) fn item_in(session: &Session, word: &[u8]) -> Option<Item>
    ensures { result ≡ item_in session.now word.now }
{
    match register_in(session, word) {
        Some(register) => Some(Item::Register(register)),
        None => match cell_in(session, word) {
            Some(place) => Some(Item::Cell(place)),
            None => None,
        },
    }
}

/// Whether a word is `assert`, in capitals or small letters.
pub(crate) fn is_assert(word: &[u8]) -> bool
    ensures { result ≡ is_name word.now (codes "assert") }
{
    word.eq_ignore_ascii_case(b"assert")
}

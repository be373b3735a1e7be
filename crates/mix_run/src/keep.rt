//! What a run leaves in the units, as a deck.
ghost use Rattle.std.specs.Prelude.{◌≡◌, ◌++◌, ◌<◌, [], ◌∷◌, drop, flat_map, length, slice_index_or, string_bytes, IfOk, OnOk};
ghost use Rattle.mix_word.specs.Prelude.{unit_count, sign_text};
ghost use Rattle.mix_session.specs.ShowUnit.{block_text, block_word_text, deck_word_text, pair_text, text_after};
ghost use Rattle.mix_run.specs.Keep.{first_kept, header_text, is_kept, kept_at, kept_block, kept_deck, kept_if, kept_part, kept_unit};

use crate::print::row::add_line;
use mix_machine::{Sign, Unit, UnitKind, UnitNo, Word, World};
use mix_refused::Memory;
use mix_word::UNITS;
use std::alloc::{AllocError, Global};

/// Appends the deck of what the units of a machine hold, if it is asked for.
pub(crate) fn keep_units(
    alloc: Global,
    world: &World,
    keep: bool,
    text: &mut Vec<u8>,
) -> Result<(), Memory>
    ensures { OnOk result (text.new.items ≡ text.old.items ++ kept_if keep world.now) }
{
    if keep {
        add_deck(alloc, world, text)
    } else {
        Ok(())
    }
}

#[tactic(auto, unfolding(crate::specs::Keep::kept_deck))]
fn add_deck(alloc: Global, world: &World, text: &mut Vec<u8>) -> Result<(), Memory>
    ensures { OnOk result (text.new.items ≡ text.old.items ++ kept_deck world.now) }
{
    let mut number = 0;
    while number < UNITS {
        add_unit(alloc, world, number, text)?;
        number += 1;
    }
    Ok(())
}

// The unit of a number.
fn add_unit(alloc: Global, world: &World, number: u8, text: &mut Vec<u8>) -> Result<(), Memory>
    requires { number < unit_count }
    ensures { OnOk result (text.new.items ≡ text.old.items ++ kept_at world.now number) }
{
    match UnitNo::of(number) {
        Some(unit) => add_unit_of(alloc, unit.kind(), number, world.unit(unit), text),
        None => unreachable!(),
    }
}

// A unit of a kind.
#[tactic(auto, unfolding(crate::specs::Keep::kept_unit))]
fn add_unit_of(
    alloc: Global,
    kind: UnitKind,
    number: u8,
    unit: &Unit,
    text: &mut Vec<u8>,
) -> Result<(), Memory>
    ensures { OnOk result (text.new.items ≡ text.old.items ++ kept_unit kind number unit.now) }
{
    if is_kept(kind, unit) {
        add_part(alloc, kind, number, unit, text)
    } else {
        Ok(())
    }
}

fn add_part(
    alloc: Global,
    kind: UnitKind,
    number: u8,
    unit: &Unit,
    text: &mut Vec<u8>,
) -> Result<(), Memory>
    ensures { OnOk result (text.new.items ≡ text.old.items ++ kept_part kind number unit.now) }
{
    let header = header_text(alloc, number, unit.delay())?;
    text.extend_from_slice(header.as_bytes())?;
    add_blocks(alloc, kind, unit, text)
}

fn is_kept(kind: UnitKind, unit: &Unit) -> bool
    ensures { result ≡ is_kept kind unit.now }
{
    unit.delay() != 0 || first_kept(kind, unit) < unit.blocks()
}

// The first block that is kept.
fn first_kept(kind: UnitKind, unit: &Unit) -> u16
    ensures { result ≡ first_kept kind unit.now }
{
    match kind {
        UnitKind::CardReader | UnitKind::Typewriter => unit.place(),
        UnitKind::Tape | UnitKind::Disk | UnitKind::CardPunch => 0,
        UnitKind::Printer | UnitKind::PaperTape => 0,
    }
}

#[tactic(auto, using(std::proofs::Common::append_assoc), unfolding(crate::specs::Keep::header_text))]
fn header_text(alloc: Global, number: u8, delay: u64) -> Result<String, AllocError>
    ensures { IfOk result (λ s. string_bytes s ≡ header_text number delay) }
{
    let text = if delay == 0 {
        format!(in alloc; "%UNIT {number}\n")?
    } else {
        format!(in alloc; "%UNIT {number} delay {delay}\n")?
    };
    Ok(text)
}

// The blocks of a unit that are kept.
fn add_blocks(alloc: Global, kind: UnitKind, unit: &Unit, text: &mut Vec<u8>) -> Result<(), Memory>
    ensures { OnOk result (text.new.items ≡ text.old.items ++ flat_map (kept_block kind) (drop (first_kept kind unit.now) unit.now.blocks)) }
{
    let mut at = first_kept(kind, unit);
    while at < unit.blocks() {
        add_block(alloc, kind, block_at(unit, at), text)?;
        at += 1;
    }
    Ok(())
}

fn block_at(unit: &Unit, number: u16) -> &[Word]
    requires { number < length unit.now.blocks }
    ensures { result.now ≡ slice_index_or unit.now.blocks number [] }
{
    unit.block(number).unwrap()
}

fn add_block(
    alloc: Global,
    kind: UnitKind,
    words: &[Word],
    text: &mut Vec<u8>,
) -> Result<(), Memory>
    ensures { OnOk result (text.new.items ≡ text.old.items ++ kept_block kind words.now) }
{
    match kind {
        UnitKind::Tape | UnitKind::Disk => add_words(words, text),
        UnitKind::CardReader | UnitKind::CardPunch | UnitKind::Printer => {
            add_line(alloc, words, text)
        }
        UnitKind::Typewriter | UnitKind::PaperTape => add_line(alloc, words, text),
    }
}

// Words of a tape or a disk, five in a line.
fn add_words(words: &[Word], text: &mut Vec<u8>) -> Result<(), Memory>
    ensures { OnOk result (text.new.items ≡ text.old.items ++ block_text words.now) }
{
    let mut at = 0;
    while at < words.len() {
        add_word(words, at, text)?;
        at += 1;
    }
    Ok(())
}

// One of some words, and what is after it.
fn add_word(words: &[Word], at: usize, text: &mut Vec<u8>) -> Result<(), Memory>
    requires { at < length words.now }
    ensures { OnOk result (text.new.items ≡ text.old.items ++ block_word_text words.now at) }
{
    add_deck_word(words[at], text)?;
    text.push(after(at))?;
    Ok(())
}

fn after(at: usize) -> u8
    ensures { result ∷ [] ≡ text_after at }
{
    if at % 5 == 4 { b'\n' } else { b' ' }
}

#[tactic(auto, unfolding(mix_session::specs::ShowUnit::deck_word_text))]
fn add_deck_word(word: Word, text: &mut Vec<u8>) -> Result<(), Memory>
    ensures { OnOk result (text.new.items ≡ text.old.items ++ deck_word_text word) }
{
    text.push(sign_of(word))?;
    add_pair(word.byte(1), text)?;
    add_pair(word.byte(2), text)?;
    add_pair(word.byte(3), text)?;
    add_pair(word.byte(4), text)?;
    add_pair(word.byte(5), text)?;
    Ok(())
}

fn sign_of(word: Word) -> u8
    ensures { result ∷ [] ≡ sign_text word.sign }
{
    match word.sign() {
        Sign::Plus => b'+',
        Sign::Minus => b'-',
    }
}

// A byte in two digits.
fn add_pair(byte: u8, text: &mut Vec<u8>) -> Result<(), Memory>
    ensures { OnOk result (text.new.items ≡ text.old.items ++ pair_text byte) }
{
    text.push(b'0' + byte / 10)?;
    text.push(b'0' + byte % 10)?;
    Ok(())
}

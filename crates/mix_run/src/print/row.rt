//! A row that a unit has written, as it is printed.
ghost use Rattle.std.specs.Prelude.{◌≡◌, ◌++◌, IfOk, OnOk, reverse};
ghost use Rattle.mix_session.specs.ShowUnit.{letters_text, characters_text};
ghost use Rattle.mix_run.specs.Print.{after_blanks, without_last_blanks, printed_line, printed_row};

use mix_machine::{Row, Word};
use mix_refused::Memory;
use mix_word::char_of;
use std::alloc::Global;

/// The mark of a new page.
const FORM_FEED: u8 = 12;

/// Appends a row: its characters without the blanks at its end, and a line feed; a page mark is a
/// form feed.
pub(super) fn add_row(alloc: Global, row: &Row, text: &mut Vec<u8>) -> Result<(), Memory>
    ensures { OnOk result (text.new.items ≡ text.old.items ++ printed_row row.now) }
{
    match row.words() {
        None => {
            text.push(FORM_FEED)?;
            Ok(())
        }
        Some(words) => add_line(alloc, words, text),
    }
}

/// Appends words in characters, without the blanks at their end, and a line feed.
pub(crate) fn add_line(alloc: Global, words: &[Word], text: &mut Vec<u8>) -> Result<(), Memory>
    ensures { OnOk result (text.new.items ≡ text.old.items ++ printed_line words.now) }
{
    let characters = characters_of(alloc, words)?;
    text.extend_from_slice(without_last_blanks(&characters))?;
    text.push(b'\n')?;
    Ok(())
}

// A text without the blanks at its end.
fn without_last_blanks(mut text: &[u8]) -> &[u8]
    ensures { result.now ≡ without_last_blanks text.now }
{
    while let [rest @ .., last] = text
        && *last == b' '
    {
        text = rest;
    }
    text
}

// The characters of some words, five each.
fn characters_of(alloc: Global, words: &[Word]) -> Result<Vec<u8>, Memory>
    ensures { IfOk result (λ text. text.items ≡ characters_text words.now) }
{
    let mut text = Vec::new(alloc);
    for word in words {
        push_letters(&mut text, *word)?;
    }
    Ok(text)
}

// The five characters of a word.
#[tactic(auto, unfolding(mix_session::specs::ShowUnit::letters_text))]
fn push_letters(text: &mut Vec<u8>, word: Word) -> Result<(), Memory>
    ensures { OnOk result (text.new.items ≡ text.old.items ++ letters_text word) }
{
    text.push(char_of(word.byte(1)))?;
    text.push(char_of(word.byte(2)))?;
    text.push(char_of(word.byte(3)))?;
    text.push(char_of(word.byte(4)))?;
    text.push(char_of(word.byte(5)))?;
    Ok(())
}

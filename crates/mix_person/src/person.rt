//! What a person types at a prompt, read as the line of a script that it stands for.

ghost use Rattle.std.specs.Prelude.{◌≡◌, IfOk, option_map};
ghost use Rattle.mix_lines.specs.Lines.{words};
ghost use Rattle.mix_person.specs.Person.{kind_of, kind_of_word, line_begun, line_of_words, name_in, person_line};

use crate::follows::put_after;
use crate::word::{PersonWord, word_begun};
use mix_lines::Words;
use mix_refused::Memory;
use mixal_text::Names;
use std::alloc::Global;

/// What a person's line is: a command, a question for help, a listing of the source, what is watched, displayed, saved, sourced or reloaded, or the
/// end of the talk.
#[derive(Clone, Copy)]
pub enum Line {
    Command,
    Help,
    Listing,
    Watch,
    Delete,
    Display,
    Undisplay,
    Save,
    /// The same, whatever the file holds.
    SaveOver,
    Source,
    Reload,
    Quit,
}

/// The line of a script that a person's line stands for, which is `again` for a blank line; with what is watched. Names are those of the program.
#[tactic(auto, unfolding(crate::specs::Person::person_line))]
pub fn person_line<N: Names>(
    alloc: Global,
    names: &N,
    again: &[u8],
    watch: &[u8],
    line: &[u8],
) -> Result<Vec<u8>, Memory>
    ensures { IfOk result (λ text. text.items ≡ person_line (N.names names.now) again.now watch.now line.now) }
{
    let mut text = Vec::new(alloc);
    let mut words = Words::of(line);
    match words.next() {
        None => text.extend_from_slice(again)?,
        Some(word) => match word_begun(word) {
            None => text.extend_from_slice(line)?,
            Some(known) => {
                text.extend_from_slice(known.command().as_bytes())?;
                put_after(&mut text, names, watch, known, &mut words)?;
            }
        },
    }
    Ok(text)
}

fn kind_of_word(word: Option<PersonWord>, words: &Words) -> Line
    ensures { result ≡ kind_of_word word words.now }
{
    match word {
        Some(PersonWord::Help | PersonWord::Question) => Line::Help,
        Some(PersonWord::Listing) => Line::Listing,
        Some(PersonWord::Watch) => Line::Watch,
        Some(PersonWord::Delete) if words.is_end() => Line::Delete,
        Some(PersonWord::Display) => Line::Display,
        Some(PersonWord::Undisplay) if words.is_end() => Line::Undisplay,
        Some(PersonWord::Save) => Line::Save,
        Some(PersonWord::SaveOver) => Line::SaveOver,
        Some(PersonWord::Source) => Line::Source,
        Some(PersonWord::Reload) if words.is_end() => Line::Reload,
        Some(PersonWord::Quit | PersonWord::Exit) if words.is_end() => Line::Quit,
        _ => Line::Command,
    }
}

/// What a person's line is.
pub fn kind_of(line: &[u8]) -> Line
    ensures { result ≡ kind_of (words line.now) }
{
    let mut words = Words::of(line);
    match words.next() {
        None => Line::Command,
        Some(word) => kind_of_word(word_begun(word), &words),
    }
}

/// The name of the file in a line that saves or sources it, if it has one and no word more.
pub fn name_in(line: &[u8]) -> Option<&[u8]>
    ensures { option_map (λ n. n.now) result ≡ name_in (words line.now) }
{
    let mut words = Words::of(line);
    match words.next() {
        None => None,
        Some(_) => match words.next() {
            None => None,
            Some(name) => { if words.is_end() { Some(name) } else { None } }
        },
    }
}

//! How a line that is not finished may go on.

ghost use Rattle.std.specs.Prelude.{◌≡◌, ◌++◌, ◌∷◌, [], ◌<◌, ◌≤◌, IfOk, IfSome, MatchOption, OnOk, length, map, position, take};
ghost use Rattle.std.specs.List.{filter};
ghost use Rattle.mix_lines.specs.Lines.{is_blank};
ghost use Rattle.mix_session.specs.Completion.{unfinished, symbol_names, next_words, begins_so, completions};

mod after;
mod until;

use crate::keyword::{BackWord, CommandWord, ForthWord, Keyword, SetWord, UntilWord};
use crate::request::ShowWord;
use crate::session::Session;
use after::{Next, next_after};
use mix_lines::{Words, is_blank};
use mix_machine::Cmp;
use mixal_asm::Program;
use mixal_text::Symbol;
use std::alloc::{AllocError, Global};
use undo_core::Memory;

/// How a line that is not finished may go on: how many bytes of its last word are there, and the words that it may become.
#[derive(Drop)]
pub struct Completion<'p> {
    pub typed: usize,
    pub words: Vec<&'p str>,
}

impl Session {
    /// How a line of a script may go on that has come so far. Its last word, empty after a blank, may become what begins so, in capitals or small
    /// letters: a command, a keyword, or a symbol of the program where an expression or a W-value may begin. Only out of memory refuses it.
    #[tactic(auto, unfolding(crate::specs::Completion::completions))]
    pub fn completion(&self, alloc: Global, line: &[u8]) -> Result<Completion<'_>, Memory>
        ensures typed { IfOk result (λ c. c.typed ≡ length (unfinished line.now)) }
        ensures within { IfOk result (λ c. c.typed ≤ length line.now) }
        ensures words { IfOk result (λ c. map (λ w. w.now) c.words.items ≡ completions self.now.program line.now) }
    {
        let word = unfinished(line);
        let before = &line[..line.len() - word.len()];
        let next = next_after(&mut Words::of(before));
        let mut words = Vec::new(alloc);
        add_next(&mut words, word, next, self.program())?;
        Ok(Completion {
            typed: word.len(),
            words,
        })
    }
}

// What follows the last blank.
fn unfinished(line: &[u8]) -> &[u8]
    ensures is { result.now ≡ unfinished line.now }
    ensures within { length result.now ≤ length line.now }
{
    let mut word = line;
    while let Some(after) = after_blank(word) {
        word = after;
    }
    word
}

// What follows the first blank, if there is one.
fn after_blank(text: &[u8]) -> Option<&[u8]>
    ensures word { MatchOption result (unfinished text.now ≡ text.now) (λ after. unfinished text.now ≡ unfinished after.now) }
    ensures shorter { IfSome result (λ after. length after.now < length text.now) }
{
    match blank_in(text) {
        Some(at) => Some(&text[at + 1..]),
        None => None,
    }
}

fn blank_in(text: &[u8]) -> Option<usize>
    ensures { result ≡ position is_blank text.now }
{
    text.iter().position(|byte| is_blank(*byte))
}

// Appends the words that may come next and begin so.
fn add_next<'p>(
    list: &mut Vec<&'p str>,
    front: &[u8],
    next: Next,
    program: &'p Program,
) -> Result<(), AllocError>
    ensures { OnOk result (map (λ w. w.now) list.new.items ≡ map (λ w. w.now) list.old.items ++ filter (begins_so front.now) (next_words program.now next)) }
{
    match next {
        Next::Nothing => Ok(()),
        Next::Command => add_keywords(list, front, CommandWord::all()),
        Next::Until => add(list, front, "until"),
        Next::Back => add_keywords(list, front, BackWord::all()),
        Next::Forth => add_keywords(list, front, ForthWord::all()),
        Next::Set => add_keywords(list, front, SetWord::all()),
        Next::Condition => add_keywords(list, front, UntilWord::all()),
        Next::Or => add(list, front, "or"),
        Next::Topic => add_keywords(list, front, ShowWord::all()),
        Next::Place => {
            add(list, front, "line")?;
            add_symbols(list, front, program)
        }
        Next::Value => add_symbols(list, front, program),
        Next::Toggle => add_keywords(list, front, <bool as Keyword>::all()),
        Next::Indicator => add_keywords(list, front, <Cmp as Keyword>::all()),
    }
}

// Appends the names of keywords that begin so.
fn add_keywords<K: Keyword>(
    list: &mut Vec<&str>,
    front: &[u8],
    keywords: &[K],
) -> Result<(), AllocError>
    ensures { OnOk result (map (λ w. w.now) list.new.items ≡ map (λ w. w.now) list.old.items ++ filter (begins_so front.now) (map K.name_of keywords.now)) }
{
    for keyword in keywords {
        add(list, front, keyword.name())?;
    }
    Ok(())
}

// Appends the symbols of a program that begin so.
fn add_symbols<'p>(
    list: &mut Vec<&'p str>,
    front: &[u8],
    program: &'p Program,
) -> Result<(), AllocError>
    ensures { OnOk result (map (λ w. w.now) list.new.items ≡ map (λ w. w.now) list.old.items ++ filter (begins_so front.now) (symbol_names program.now)) }
{
    for (symbol, _) in program.symbols() {
        add(list, front, name_of(symbol))?;
    }
    Ok(())
}

// Appends a word if it begins so.
fn add<'p>(list: &mut Vec<&'p str>, front: &[u8], word: &'p str) -> Result<(), AllocError>
    ensures { OnOk result (map (λ w. w.now) list.new.items ≡ map (λ w. w.now) list.old.items ++ filter (begins_so front.now) (word.now ∷ [])) }
{
    if begins_so(front, word.as_bytes()) {
        list.push(word)?;
    }
    Ok(())
}

fn begins_so(front: &[u8], word: &[u8]) -> bool
    ensures { result ≡ begins_so front.now word.now }
{
    front.eq_ignore_ascii_case(first_bytes(word, front.len()))
}

// The first bytes of a word, at most so many.
fn first_bytes(word: &[u8], count: usize) -> &[u8]
    ensures { result.now ≡ take count word.now }
{
    if count < word.len() {
        &word[..count]
    } else {
        word
    }
}

// The name of a symbol as a text.
#[tactic(auto, using(crate::proofs::SymbolLemmas::ordinary_is_utf8))]
fn name_of(symbol: &Symbol) -> &str
    ensures { result.now ≡ symbol.now }
{
    str::from_utf8(symbol.name()).unwrap()
}

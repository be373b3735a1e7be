//! The words of a line.

ghost use Rattle.std.specs.Prelude.{◌≡◌, ◌<◌, ◌∷◌, ◌==◌, [], ℕ, List, IfSome, MatchOption, length, not, position};
ghost use Rattle.mix_lines.specs.Lines.{is_blank, words};

use crate::lines::is_blank;
use std::marker::Model;

/// The first word of a line and what follows it, or `None` where the line is blank.
pub fn next_word(line: &[u8]) -> Option<(&[u8], &[u8])>
    ensures words { MatchOption result (words line.now ≡ []) (λ r. words line.now ≡ r.0.now ∷ words r.1.now) }
    ensures shorter { IfSome result (λ r. length r.1.now < length line.now) }
{
    let start = nonblank_in(line)?;
    let text = &line[start..];
    match blank_in(text) {
        Some(end) => Some((&text[..end], &text[end + 1..])),
        None => Some((text, &text[text.len()..])),
    }
}

/// The words of a line that have not been read yet, as a list.
#[derive(Drop)]
pub struct Words<'a> {
    rest: &'a [u8],
}

impl<'a> Model for Words<'a> {
    ghost Value = { List (List ℕ) };

    ghost view = { λ w. words w.rest.now };
}

impl<'a> Words<'a> {
    /// All words of a line.
    pub fn of(line: &'a [u8]) -> Words<'a>
        ensures { result ≡ words line.now }
    {
        Words { rest: line }
    }

    /// Returns the next word, or `None` if no word is left.
    pub fn next(&mut self) -> Option<&'a [u8]>
        ensures { MatchOption result ((self.old ≡ []) × (self.new ≡ [])) (λ word. self.old ≡ word.now ∷ self.new) }
    {
        let (word, rest) = next_word(self.rest)?;
        self.rest = rest;
        Some(word)
    }

    /// Whether no word is left.
    pub fn is_end(&self) -> bool
        ensures { result ≡ (length self.now == 0) }
    {
        next_word(self.rest).is_none()
    }
}

fn blank_in(text: &[u8]) -> Option<usize>
    ensures { result ≡ position is_blank text.now }
{
    text.iter().position(|byte| is_blank(*byte))
}

fn nonblank_in(text: &[u8]) -> Option<usize>
    ensures { result ≡ position (λ byte. not (is_blank byte)) text.now }
{
    text.iter().position(|byte| !is_blank(*byte))
}

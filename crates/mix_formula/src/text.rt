//! The parts of a text: its blanks, its words, what is in square brackets.
ghost use Rattle.std.specs.Prelude.{◌≡◌, ◌≤◌, MatchOption, None, Some, length, position};
ghost use Rattle.std.specs.List.{position_or_len};
ghost use Rattle.mix_formula.specs.Text.{after_opening, after_word, bracket_of, is_closing, is_name, is_opening, is_other, unblanked, word_in};

use mix_lines::{is_blank, is_comment};

/// What is in a line between its first `[` and the next `]`, as `N-1` in ` CMPA LAST,2 [N-1]`: how
/// often the book says that it is done. None if one of the two is not there, or the line is a
/// comment.
#[tactic(auto, using(crate::proofs::TextLemmas::cuts), unfolding(crate::specs::Text::bracket_of))]
pub fn bracket_of(line: &[u8]) -> Option<&[u8]>
    ensures { MatchOption result (bracket_of line.now ≡ None) (λ formula. bracket_of line.now ≡ Some formula.now) }
{
    if is_comment(line) {
        return None;
    }
    let text = after_opening(line);
    match closing_in(text) {
        Some(end) => Some(&text[..end]),
        None => None,
    }
}

/// What follows the first `[` of a line; nothing if there is none.
#[tactic(auto, using(crate::proofs::TextLemmas::cuts))]
pub(crate) fn after_opening(line: &[u8]) -> &[u8]
    ensures { result.now ≡ after_opening line.now }
{
    match opening_in(line) {
        Some(start) => &line[start + 1..],
        None => &[],
    }
}

/// The word that begins a text, which may be empty, and what follows it.
#[tactic(auto, using(crate::proofs::TextLemmas::cuts), unfolding(crate::specs::Text::word_in, crate::specs::Text::after_word))]
pub(crate) fn split_word(text: &[u8]) -> (&[u8], &[u8])
    ensures word { result.0.now ≡ word_in text.now }
    ensures rest { result.1.now ≡ after_word text.now }
{
    text.split_at(word_length(text))
}

/// Whether a word is a name: it begins with a letter.
#[tactic(auto, unfolding(crate::specs::Text::is_name))]
pub(crate) fn is_name(word: &[u8]) -> bool
    ensures { result ≡ is_name word.now }
{
    match word {
        [first, ..] => first.is_ascii_alphabetic(),
        [] => false,
    }
}

/// A text without the blanks that it begins with.
pub(crate) fn unblanked(text: &[u8]) -> &[u8]
    ensures { result.now ≡ unblanked text.now }
{
    let mut rest = text;
    while let [byte, after @ ..] = rest {
        if !is_blank(*byte) {
            return rest;
        }
        rest = after;
    }
    rest
}

#[tactic(auto, using(crate::proofs::TextLemmas::cuts))]
fn word_length(text: &[u8]) -> usize
    ensures is { result ≡ position_or_len is_other text.now }
    ensures within { result ≤ length text.now }
{
    match other_in(text) {
        Some(end) => end,
        None => text.len(),
    }
}

fn other_in(text: &[u8]) -> Option<usize>
    ensures { result ≡ position is_other text.now }
{
    text.iter().position(|byte| !byte.is_ascii_alphanumeric())
}

fn opening_in(text: &[u8]) -> Option<usize>
    ensures { result ≡ position is_opening text.now }
{
    text.iter().position(|byte| *byte == b'[')
}

fn closing_in(text: &[u8]) -> Option<usize>
    ensures { result ≡ position is_closing text.now }
{
    text.iter().position(|byte| *byte == b']')
}

//! What a line of a deck holds: words, or the characters of a card or of a line of text.
ghost use Rattle.std.specs.Prelude.{◌≡◌, ◌<◌, ◌≤◌, ◌+◌, ◌*◌, ◌==◌, nat_lt, length, IfSome};
ghost use Rattle.std.specs.List.{list_all};
ghost use Rattle.mix_lines.specs.Lines.{words, is_blank};
ghost use Rattle.mix_machine.specs.units.deck.Block.{sign_of, byte_of_digits, deck_word, code_in_deck, has_code, is_too_long, has_codes, code_at, word_at};

use mix_lines::{Words, is_blank};
use mix_word::{Sign, Word, code_of};

/// Whether a line has more than so many words.
pub(crate) fn has_more_words(text: &[u8], most: usize) -> bool
    ensures { result ≡ nat_lt most (length (words text.now)) }
{
    let mut words = Words::of(text);
    let mut room = most;
    while words.next().is_some() {
        if room == 0 {
            return true;
        }
        room -= 1;
    }
    false
}

/// A word of a tape or a disk: a sign and five bytes of two digits each, 00 to 63.
pub(crate) fn deck_word(text: &[u8]) -> Option<Word>
    ensures { result ≡ deck_word text.now }
{
    if text.len() != 11 {
        return None;
    }
    let sign = sign_of(text[0])?;
    let a = byte_of_digits(text[1], text[2])?;
    let b = byte_of_digits(text[3], text[4])?;
    let c = byte_of_digits(text[5], text[6])?;
    let d = byte_of_digits(text[7], text[8])?;
    let e = byte_of_digits(text[9], text[10])?;
    Some(Word::from_bytes(sign, [a, b, c, d, e]))
}

fn sign_of(byte: u8) -> Option<Sign>
    ensures { result ≡ sign_of byte }
{
    match byte {
        b'+' => Some(Sign::Plus),
        b'-' => Some(Sign::Minus),
        _ => None,
    }
}

fn byte_of_digits(tens: u8, ones: u8) -> Option<u8>
    ensures is { result ≡ byte_of_digits tens ones }
    ensures bound { IfSome result (λ byte. byte < 64) }
{
    if !tens.is_ascii_digit() || !ones.is_ascii_digit() {
        return None;
    }
    let byte = (tens - b'0') * 10 + (ones - b'0');
    if byte < 64 { Some(byte) } else { None }
}

/// Whether a character past so many columns is no blank.
pub(crate) fn is_too_long(text: &[u8], columns: usize) -> bool
    ensures { result ≡ is_too_long columns text.now }
{
    text.len() > columns && !are_blanks(&text[columns..])
}

fn are_blanks(text: &[u8]) -> bool
    ensures { result ≡ list_all is_blank text.now }
{
    text.iter().all(|byte| is_blank(*byte))
}

/// Whether each character of so many columns has a code.
pub(crate) fn has_codes(text: &[u8], columns: usize) -> bool
    ensures { result ≡ has_codes columns text.now }
{
    if text.len() > columns {
        are_coded(&text[..columns])
    } else {
        are_coded(text)
    }
}

fn are_coded(text: &[u8]) -> bool
    ensures { result ≡ list_all has_code text.now }
{
    text.iter().all(|byte| code_in_deck(*byte).is_some())
}

fn code_in_deck(byte: u8) -> Option<u8>
    ensures is { result ≡ code_in_deck byte }
    ensures bound { IfSome result (λ code. code < 64) }
{
    if is_blank(byte) {
        Some(0)
    } else {
        code_of(byte)
    }
}

fn code_at(text: &[u8], column: usize) -> u8
    ensures is { result ≡ code_at text.now column }
    ensures bound { result < 64 }
{
    if column < text.len() {
        code_in_deck(text[column]).unwrap_or(0)
    } else {
        0
    }
}

/// The word of the five characters from a column on, of which those past the line's end are blank.
pub(crate) fn word_at(text: &[u8], column: usize) -> Word
    requires { column ≤ 500 }
    ensures { result ≡ word_at text.now column }
{
    Word::from_bytes(
        Sign::Plus,
        [
            code_at(text, column),
            code_at(text, column + 1),
            code_at(text, column + 2),
            code_at(text, column + 3),
            code_at(text, column + 4),
        ],
    )
}

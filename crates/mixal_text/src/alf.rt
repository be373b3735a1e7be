//! ALF (1.3.2): a word of five characters.
ghost use Rattle.std.specs.Prelude.{◌≡◌, ◌<◌, ◌≤◌, IfOk, length, position};
ghost use Rattle.mixal_text.specs.Alf.{is_quote, code_or_fault, five_of, word_of_five, short_word, quoted_word, alf_start, alf_word};

use crate::fault::TextFault;
use crate::words::skip_blanks;
use mix_lines::is_blank;
use mix_word::{Sign, Word, code_of};

/// The word of ALF, by what stands after the blank that ends OP: the characters between quotation marks, or the five
/// characters after one blank or two. A quotation that does not end or has over five characters is A12, and a byte among
/// the five that is no MIX character A1.
#[tactic(auto, unfolding(crate::specs::Alf::alf_word))]
pub(crate) fn alf_word(rest: &[u8]) -> Result<Word, TextFault>
    ensures { result ≡ alf_word rest.now }
{
    match skip_blanks(rest) {
        [b'"', text @ ..] => quoted_word(text),
        _ => word_of_five(five_characters(alf_start(rest))),
    }
}

pub(crate) fn alf_start(rest: &[u8]) -> &[u8]
    ensures is { result.now ≡ alf_start rest.now }
    ensures within { length result.now ≤ length rest.now }
{
    match rest {
        [first, text @ ..] if is_blank(*first) => text,
        _ => rest,
    }
}

#[tactic(auto, using(crate::proofs::PartLemmas::cuts), unfolding(crate::specs::Alf::quoted_word))]
fn quoted_word(text: &[u8]) -> Result<Word, TextFault>
    ensures { result ≡ quoted_word text.now }
{
    match quote_in(text) {
        Some(end) => short_word(&text[..end]),
        None => Err(TextFault::BadAlf),
    }
}

fn short_word(text: &[u8]) -> Result<Word, TextFault>
    ensures { result ≡ short_word text.now }
{
    if text.len() <= 5 {
        word_of_five(five_characters(text))
    } else {
        Err(TextFault::BadAlf)
    }
}

pub(crate) fn quote_in(text: &[u8]) -> Option<usize>
    ensures { result ≡ position is_quote text.now }
{
    text.iter().position(|byte| *byte == b'"')
}

// The first five characters of a text; what is missing is blank.
#[tactic(auto, using(crate::proofs::AlfLemmas::characters))]
fn five_characters(text: &[u8]) -> [u8; 5]
    ensures { result ≡ five_of text.now }
{
    let mut five = [b' '; 5];
    let count = text.len().min(5);
    five[..count].copy_from_slice(&text[..count]);
    five
}

#[tactic(auto, unfolding(crate::specs::Alf::word_of_five))]
fn word_of_five(five: [u8; 5]) -> Result<Word, TextFault>
    ensures { result ≡ word_of_five five }
{
    let [a, b, c, d, e] = five;
    let first = code_or_fault(a)?;
    let second = code_or_fault(b)?;
    let third = code_or_fault(c)?;
    let fourth = code_or_fault(d)?;
    let fifth = code_or_fault(e)?;
    Ok(Word::of(
        Sign::Plus,
        (((first * 64 + second) * 64 + third) * 64 + fourth) * 64 + fifth,
    ))
}

fn code_or_fault(byte: u8) -> Result<u32, TextFault>
    ensures code { result ≡ code_or_fault byte }
    ensures bound { IfOk result (λ code. code < 64) }
{
    if is_blank(byte) {
        return Ok(0);
    }
    match code_of(byte) {
        Some(code) => Ok(u32::from(code)),
        None => Err(TextFault::BadByte),
    }
}

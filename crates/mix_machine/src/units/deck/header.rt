//! The header of a unit in a deck: `%UNIT 19`, or `%UNIT 19 delay 10`.
ghost use Rattle.std.specs.Prelude.{◌≡◌, ◌<◌, ◌^◌, ◌==◌, IfSome, codes};
ghost use Rattle.std.specs.Str.{str_eq_ignore_ascii_case};
ghost use Rattle.mix_lines.specs.Lines.{words};
ghost use Rattle.mix_machine.specs.units.deck.Header.{is_header, unit_number, with_delay, after_number, after_keyword, header_of};

use crate::units::number::UnitNo;
use mix_lines::{Words, long_number, number};

/// What a header says: the unit, and its delay where one is given.
#[derive(Clone, Copy)]
pub(crate) struct Header {
    pub(crate) unit: UnitNo,
    pub(crate) delay: Option<u64>,
}

/// Whether a line is a header, good or bad.
pub(crate) fn is_header(text: &[u8]) -> bool
    ensures { result ≡ is_header text.now }
{
    text.starts_with(b"%")
}

/// What a header says, or none where it is bad.
pub(crate) fn header_of(text: &[u8]) -> Option<Header>
    ensures is { result ≡ header_of (words text.now) }
    ensures bound { IfSome result (λ h. IfSome h.delay (λ t. t < 10 ^ 18)) }
{
    let mut words = Words::of(text);
    let word = words.next()?;
    if word.eq_ignore_ascii_case(b"%UNIT") {
        after_keyword(words)
    } else {
        None
    }
}

fn after_keyword(words: Words<'_>) -> Option<Header>
    ensures is { result ≡ after_keyword words.entry }
    ensures bound { IfSome result (λ h. IfSome h.delay (λ t. t < 10 ^ 18)) }
{
    let mut words = words;
    let word = words.next()?;
    let unit = unit_number(word)?;
    after_number(unit, words)
}

fn after_number(unit: UnitNo, words: Words<'_>) -> Option<Header>
    ensures is { result ≡ after_number unit words.entry }
    ensures bound { IfSome result (λ h. IfSome h.delay (λ t. t < 10 ^ 18)) }
{
    let mut words = words;
    match words.next() {
        None => Some(Header { unit, delay: None }),
        Some(word) => {
            if word.eq_ignore_ascii_case(b"DELAY") {
                with_delay(unit, words)
            } else {
                None
            }
        }
    }
}

fn with_delay(unit: UnitNo, words: Words<'_>) -> Option<Header>
    ensures is { result ≡ with_delay unit words.entry }
    ensures bound { IfSome result (λ h. IfSome h.delay (λ t. t < 10 ^ 18)) }
{
    let mut words = words;
    let word = words.next()?;
    if !words.is_end() {
        return None;
    }
    let delay = long_number(word)?;
    Some(Header {
        unit,
        delay: Some(delay),
    })
}

fn unit_number(text: &[u8]) -> Option<UnitNo>
    ensures { result ≡ unit_number text.now }
{
    if text.len() > 2 {
        return None;
    }
    let n = number(text)?;
    u8::try_from(n).ok().and_then(UnitNo::of)
}

//! The numbers that stand beside an expression (1.3.2): an index, an F, a field.
ghost use Rattle.std.specs.Prelude.{◌≡◌, ◌≤◌, ◌<◌, ◌+◌, ◌^◌, IfErr, IfOk, MatchResult, Err, [], length};
ghost use Rattle.std.specs.List.{after_first, before_first};
ghost use Rattle.mix_word.specs.Field.{field_of};
ghost use Rattle.mixal_text.specs.Misread.{IsWithin};
ghost use Rattle.mixal_text.specs.Part.{closed_at, is_close, left_at, left_over, up_to, part_or_fault};

use crate::cut::split_at_close;
use crate::expressions::whole_at;
use crate::fault::TextFault;
use crate::misread::{Misread, Span};
use crate::names::Names;
use mix_word::{Field, Word};

/// The value of an expression that a closing bracket ends. No bracket is A5 at the end.
#[tactic(auto, unfolding(crate::specs::Part::closed_at))]
pub(crate) fn closed_at<N: Names>(
    place: usize,
    text: &[u8],
    names: &N,
    here: Word,
) -> Result<Word, Misread>
    requires { place + length text.now < 2 ^ 64 }
    ensures is { result ≡ closed_at (N.names names.now) here place text.now }
    ensures within { IfErr result (λ misread. IsWithin place (place + length text.now) misread.at) }
    ensures closed { IfOk result (λ _. length (before_first is_close text.now) + 1 + length (after_first is_close text.now) ≤ length text.now) }
{
    let (inside, after) = split_at_close(text);
    let value = whole_at(place, inside, names, here)?;
    let end = place + inside.len();
    match after {
        [] => Err(Misread {
            fault: TextFault::BadExpression,
            at: Span { from: end, to: end },
        }),
        [_, ..] => Ok(value),
    }
}

/// The field whose code a value is, or A10.
pub(crate) fn field_of_value(value: Word) -> Result<Field, TextFault>
    ensures { result ≡ part_or_fault field_of value }
{
    match value.natural() {
        Some(code) if code <= 63 => Field::of(code as u8).ok_or(TextFault::PartOutOfRange),
        _ => Err(TextFault::PartOutOfRange),
    }
}

/// A value as a number from 0 to a limit, where -0 counts as 0, or A10.
pub(crate) fn number_up_to(limit: u8, value: Word) -> Result<u8, TextFault>
    ensures value { result ≡ part_or_fault (up_to limit) value }
    ensures bound { IfOk result (λ n. n ≤ limit) }
{
    match value.natural() {
        Some(n) if n <= u32::from(limit) => Ok(n as u8),
        _ => Err(TextFault::PartOutOfRange),
    }
}

/// That a text is empty; what is left over is A5.
pub(crate) fn left_at(place: usize, text: &[u8]) -> Result<(), Misread>
    requires { place + length text.now < 2 ^ 64 }
    ensures is { MatchResult result
        (λ _. text.now ≡ [])
        (λ misread. left_at place text.now text.now ≡ Err misread) }
    ensures within { IfErr result (λ misread. IsWithin place (place + length text.now) misread.at) }
{
    match text {
        [] => Ok(()),
        [_, ..] => Err(left_over(place, text)),
    }
}

/// What is left over.
pub(crate) fn left_over(place: usize, text: &[u8]) -> Misread
    requires { place + length text.now < 2 ^ 64 }
    ensures { result ≡ left_over place text.now }
{
    Misread {
        fault: TextFault::BadExpression,
        at: Span {
            from: place,
            to: place + text.len(),
        },
    }
}

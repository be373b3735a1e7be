//! The bytes of a part that are no MIX character (1.3.2).
ghost use Rattle.std.specs.Prelude.{◌≡◌, ◌≤◌, length, position};
ghost use Rattle.mixal_text.specs.Parts.{bad_span, is_bad, is_new};

use crate::cut::place_or_end;
use crate::misread::Span;
use mix_lines::is_blank;
use mix_word::code_of;

/// The first bad byte of a span, with the bytes that continue its character.
pub(crate) fn bad_span(line: &[u8], span: Span) -> Span
    requires order { span.from ≤ span.to }
    requires within { span.to ≤ length line.now }
    ensures is { result ≡ bad_span line.now span }
    ensures order { result.from ≤ result.to }
    ensures within { result.to ≤ length line.now }
{
    let part = &line[span.from..span.to];
    let from = span.from + place_or_end(part, bad_in(part));
    match &line[from..] {
        [] => Span { from, to: from },
        [_, rest @ ..] => Span {
            from,
            to: from + 1 + place_or_end(rest, new_in(rest)),
        },
    }
}

fn bad_in(text: &[u8]) -> Option<usize>
    ensures { result ≡ position is_bad text.now }
{
    text.iter()
        .position(|byte| !(is_blank(*byte) || code_of(*byte).is_some()))
}

fn new_in(text: &[u8]) -> Option<usize>
    ensures { result ≡ position is_new text.now }
{
    text.iter().position(|byte| *byte < 128 || 192 <= *byte)
}

//! What follows a blank and reads as if it belonged to the ADDRESS before it (1.3.2).
ghost use Rattle.std.specs.Prelude.{◌≡◌};
ghost use Rattle.std.specs.Char.{is_ascii_digit};
ghost use Rattle.mix_lines.specs.Lines.{begins_with};
ghost use Rattle.mixal_text.specs.Slips.{address_is_cut};

use crate::words::{skip_blanks, split_word};

/// Whether a blank cuts an ADDRESS, by what stands after OP.
pub(crate) fn address_is_cut(address: &[u8], rest: &[u8]) -> bool
    ensures { result ≡ address_is_cut address.now rest.now }
{
    match split_word(skip_blanks(rest)).1 {
        _ if address.is_empty() => false,
        [b',', ..] => true,
        [b'(', rest @ ..] => begins_with_digit(rest),
        [b'+' | b'-' | b'*' | b'/', rest @ ..] => begins_with_digit(skip_blanks(rest)),
        _ => false,
    }
}

fn begins_with_digit(text: &[u8]) -> bool
    ensures { result ≡ begins_with is_ascii_digit text.now }
{
    match text {
        [] => false,
        [byte, ..] => byte.is_ascii_digit(),
    }
}

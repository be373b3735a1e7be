//! An ALF that is hardly meant as it is written (1.3.2).
ghost use Rattle.std.specs.Prelude.{◌≡◌};
ghost use Rattle.mixal_text.specs.Words.{after_blanks};
ghost use Rattle.mixal_text.specs.Slips.{alf_is_cut, alf_is_short};

use crate::alf::alf_start;
use crate::parts::before_quote;
use crate::words::{are_blanks, skip_blanks};
use mix_lines::is_blank;

/// Whether a quotation has fewer than five characters.
pub(crate) fn alf_is_short(text: &[u8]) -> bool
    ensures { result ≡ alf_is_short text.now }
{
    match text {
        [b'"', text @ ..] => before_quote(text).len() < 5,
        _ => false,
    }
}

/// Whether the text of an ALF without quotation marks goes on after its five characters, or begins after them.
pub(crate) fn alf_is_cut(rest: &[u8]) -> bool
    ensures { result ≡ alf_is_cut (after_blanks rest.now) rest.now }
{
    match skip_blanks(rest) {
        [] | [b'"', ..] => false,
        _ => match alf_start(rest) {
            [_, _, _, _, _, byte, ..] if !is_blank(*byte) => true,
            text @ [_, _, _, _, _, ..] => are_blanks(&text[..5]) && !are_blanks(text),
            _ => false,
        },
    }
}

//! How a line is cut at its blanks.
ghost use Rattle.std.specs.Prelude.{◌≡◌, ◌+◌, ◌≤◌, length, position};
ghost use Rattle.std.specs.List.{after_first, before_first, list_all};
ghost use Rattle.mix_lines.specs.Lines.{is_blank};
ghost use Rattle.mixal_text.specs.Words.{is_nonblank, after_blanks};

use mix_lines::is_blank;

/// A text cut at its first blank, which neither part has.
#[tactic(auto, using(crate::proofs::PartLemmas::cuts))]
pub(crate) fn split_word(text: &[u8]) -> (&[u8], &[u8])
    ensures word { result.0.now ≡ before_first is_blank text.now }
    ensures rest { result.1.now ≡ after_first is_blank text.now }
    ensures within { length result.0.now + length result.1.now ≤ length text.now }
{
    match blank_in(text) {
        Some(end) => (&text[..end], &text[end + 1..]),
        None => (text, &[]),
    }
}

/// A text from its first nonblank byte on.
#[tactic(auto, using(crate::proofs::PartLemmas::cuts), unfolding(crate::specs::Words::after_blanks))]
pub(crate) fn skip_blanks(text: &[u8]) -> &[u8]
    ensures is { result.now ≡ after_blanks text.now }
    ensures within { length result.now ≤ length text.now }
{
    match nonblank_in(text) {
        Some(start) => &text[start..],
        None => &[],
    }
}

/// Whether a line has nothing but blanks.
pub(crate) fn are_blanks(text: &[u8]) -> bool
    ensures { result ≡ list_all is_blank text.now }
{
    text.iter().all(|byte| is_blank(*byte))
}

fn blank_in(text: &[u8]) -> Option<usize>
    ensures { result ≡ position is_blank text.now }
{
    text.iter().position(|byte| is_blank(*byte))
}

fn nonblank_in(text: &[u8]) -> Option<usize>
    ensures { result ≡ position is_nonblank text.now }
{
    text.iter().position(|byte| !is_blank(*byte))
}

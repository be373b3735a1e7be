//! How a text is cut at its first bracket, delimiter or equals sign.
ghost use Rattle.std.specs.Prelude.{◌≡◌, ◌≤◌, ◌+◌, ℕ, Bool, IfSome, length, position};
ghost use Rattle.std.specs.List.{after_first, before_first, position_or_len};
ghost use Rattle.mixal_text.specs.Part.{from_first, is_close, is_open};
ghost use Rattle.mixal_text.specs.Address.{is_delimiter, is_equals};

/// A text cut before its first comma or opening bracket.
pub(crate) fn split_at_delimiter(text: &[u8]) -> (&[u8], &[u8])
    ensures before { result.0.now ≡ before_first is_delimiter text.now }
    ensures from { result.1.now ≡ from_first is_delimiter text.now }
    ensures whole { length result.0.now + length result.1.now ≡ length text.now }
{
    cut_at(text, delimiter_in(text))
}

/// A text cut before its first closing bracket.
pub(crate) fn split_at_close(text: &[u8]) -> (&[u8], &[u8])
    ensures before { result.0.now ≡ before_first is_close text.now }
    ensures from { result.1.now ≡ from_first is_close text.now }
    ensures whole { length result.0.now + length result.1.now ≡ length text.now }
{
    cut_at(text, close_in(text))
}

/// A text cut before its first opening bracket.
pub(crate) fn split_at_bracket(text: &[u8]) -> (&[u8], &[u8])
    ensures before { result.0.now ≡ before_first is_open text.now }
    ensures from { result.1.now ≡ from_first is_open text.now }
    ensures whole { length result.0.now + length result.1.now ≡ length text.now }
{
    cut_at(text, open_in(text))
}

// A text cut before the place that a search found, or behind all of it.
#[tactic(auto, using(crate::proofs::PartLemmas::cuts))]
fn cut_at(text: &[u8], at: Option<usize>) -> (&[u8], &[u8])
    requires { IfSome at (λ at. at ≤ length text.now) }
    ensures before { (test : ℕ → Bool) → at ≡ position test text.now → result.0.now ≡ before_first test text.now }
    ensures from { (test : ℕ → Bool) → at ≡ position test text.now → result.1.now ≡ from_first test text.now }
    ensures whole { length result.0.now + length result.1.now ≡ length text.now }
{
    match at {
        Some(start) => text.split_at(start),
        None => (text, &[]),
    }
}

/// The place that a search found, or the end of the text.
#[tactic(auto, using(crate::proofs::Positions::first_place))]
pub(crate) fn place_or_end(text: &[u8], at: Option<usize>) -> usize
    requires { IfSome at (λ at. at ≤ length text.now) }
    ensures is { (test : ℕ → Bool) → at ≡ position test text.now → result ≡ position_or_len test text.now }
    ensures within { result ≤ length text.now }
{
    match at {
        Some(place) => place,
        None => text.len(),
    }
}

/// What follows the first closing bracket.
#[tactic(auto, using(crate::proofs::PartLemmas::cuts))]
pub(crate) fn after_close(text: &[u8]) -> &[u8]
    ensures { result.now ≡ after_first is_close text.now }
{
    match close_in(text) {
        Some(end) => &text[end + 1..],
        None => &[],
    }
}

pub(crate) fn equals_in(text: &[u8]) -> Option<usize>
    ensures { result ≡ position is_equals text.now }
{
    text.iter().position(|byte| *byte == b'=')
}

pub(crate) fn close_in(text: &[u8]) -> Option<usize>
    ensures { result ≡ position is_close text.now }
{
    text.iter().position(|byte| *byte == b')')
}

pub(crate) fn open_in(text: &[u8]) -> Option<usize>
    ensures { result ≡ position is_open text.now }
{
    text.iter().position(|byte| *byte == b'(')
}

fn delimiter_in(text: &[u8]) -> Option<usize>
    ensures { result ≡ position is_delimiter text.now }
{
    text.iter().position(|byte| *byte == b',' || *byte == b'(')
}

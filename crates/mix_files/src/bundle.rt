//! The parts of a bundle.

ghost use Rattle.std.specs.Prelude.{◌≡◌, length};
ghost use Rattle.mix_lines.specs.Lines.{whole_lines};
ghost use Rattle.mix_files.specs.Bundle.{after_marker, before_marker, before_script, cut_of, parts_of};

use mix_lines::{line_text, split_whole_line};

/// The most bytes that a bundle may have.
pub const MAX_BUNDLE_BYTES: usize = 41_943_040;

/// The line before a deck.
pub const DEVICES: &[u8] = b"%DEVICES";

/// The line before a script.
pub const SCRIPT: &[u8] = b"%SCRIPT";

/// The source, the deck and the script of a bundle, each with all its bytes; a part that is missing is empty.
#[derive(Clone, Copy)]
pub struct BundleParts<'a> {
    pub source: &'a [u8],
    pub deck: &'a [u8],
    pub script: &'a [u8],
}

/// Cuts a bundle at its first line `%SCRIPT`, and what stands before it at its first line `%DEVICES`.
pub fn cut(bundle: &[u8]) -> BundleParts<'_>
    ensures source { result.source.now ≡ (cut_of bundle.now).source }
    ensures deck { result.deck.now ≡ (cut_of bundle.now).deck }
    ensures script { result.script.now ≡ (cut_of bundle.now).script }
{
    let (front, script) = split_at_marker(bundle, SCRIPT);
    let (source, deck) = split_at_marker(front, DEVICES);
    BundleParts {
        source,
        deck,
        script,
    }
}

/// Cuts a text as a bundle; one that is longer than a bundle may be is a source alone.
#[tactic(auto, unfolding(crate::specs::Bundle::parts_of))]
pub fn parts_of(text: &[u8]) -> BundleParts<'_>
    ensures source { result.source.now ≡ (parts_of text.now).source }
    ensures deck { result.deck.now ≡ (parts_of text.now).deck }
    ensures script { result.script.now ≡ (parts_of text.now).script }
{
    if text.len() > MAX_BUNDLE_BYTES {
        return BundleParts {
            source: text,
            deck: b"",
            script: b"",
        };
    }
    cut(text)
}

/// What stands before the script of a bundle.
pub fn before_script(bundle: &[u8]) -> &[u8]
    ensures { result.now ≡ before_script bundle.now }
{
    split_at_marker(bundle, SCRIPT).0
}

/// How many lines a text has.
pub fn count_lines(text: &[u8]) -> usize
    ensures { result ≡ length (whole_lines text.now) }
{
    let mut count = 0;
    let mut rest = text;
    while !rest.is_empty() {
        rest = split_whole_line(rest).1;
        count += 1;
    }
    count
}

#[tactic(auto, using(crate::proofs::CutLemmas::cutting))]
fn split_at_marker<'a>(text: &'a [u8], marker: &[u8]) -> (&'a [u8], &'a [u8])
    ensures before { result.0.now ≡ before_marker marker.now text.now }
    ensures after { result.1.now ≡ after_marker marker.now text.now }
{
    let mut rest = text;
    while !rest.is_empty() {
        let (line, after) = split_whole_line(rest);
        if line_text(line) == marker {
            return (&text[..text.len() - rest.len()], after);
        }
        rest = after;
    }
    (text, rest)
}

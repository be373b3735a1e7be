//! A writer to a terminal.

ghost use Rattle.std.specs.Prelude.{◌≡◌, ◌<◌, ◌≤◌, ◌∷◌, [], List, ℕ, None, IfOk, OnErr, if◌then◌else◌, length, take};
ghost use Rattle.std.specs.Io.KnownBytes.{WriteAppends};
ghost use Rattle.mix_shown.specs.declared.character.Among.TheVariants.{Text};
ghost use Rattle.mix_shown.specs.Character.{left_past, plain_front, shown_from};

use crate::character::{Among, left_at};
use std::io::{Result, Write};

/// A writer that hands on what it is given as a terminal may read it, or as it is. A character that two calls share is shown only if the first of them had
/// it whole and could not write all of it.
#[derive(Drop)]
pub struct Shown<W> {
    inner: W,
    /// How many bytes are left of a character whose first are written.
    left: usize,
    is_terminal: bool,
}

impl<W: Write> Shown<W> {
    /// A writer over another one, at the beginning of a text; what is given to it is handed on as it is where that is no terminal.
    pub fn of(inner: W, is_terminal: bool) -> Shown<W>
        ensures inner { result.inner ≡ inner }
        ensures left { result.left ≡ 0 }
        ensures terminal { result.is_terminal ≡ is_terminal }
    {
        Shown {
            inner,
            left: 0,
            is_terminal,
        }
    }

    #[tactic(auto, using(crate::proofs::ShownLemmas::written))]
    // Writes a beginning of some bytes as they are shown: those up to the first that is not shown as it is, or a question mark for that one.
    fn write_shown(&mut self, buf: &[u8]) -> Result<usize>
        ensures bound { IfOk result (λ n. n ≤ length buf.now) }
        ensures bytes { WriteAppends (W.contents self.old.inner) (W.contents self.new.inner) result (shown_from Text self.old.left buf.now) }
        ensures left { IfOk result (λ n. self.new.left ≡ left_past self.old.left n buf.now) }
        ensures err { OnErr result (self.new.left ≡ self.old.left) }
        ensures terminal { self.new.is_terminal ≡ self.old.is_terminal }
    {
        match self.inner.write(given(self.left, buf)) {
            Ok(count) => {
                self.left = left_past(self.left, count, buf);
                Ok(count)
            }
            Err(error) => Err(error),
        }
    }
}

impl<W: Write> Write for Shown<W> {
    // What a terminal is given is told by the law of the write alone.
    ghost contents = { λ s. if s.is_terminal then None else W.contents s.inner };

    fn write(&mut self, buf: &[u8]) -> Result<usize> {
        if self.is_terminal {
            self.write_shown(buf)
        } else {
            self.inner.write(buf)
        }
    }

    fn flush(&mut self) -> Result<()> {
        self.inner.flush()
    }
}

// A beginning of some bytes as they are shown, at least one byte of them.
#[tactic(auto, using(crate::proofs::ShownLemmas::fronts))]
fn given(left: usize, bytes: &[u8]) -> &[u8]
    ensures same { (n : ℕ) → n ≤ length result.now → take n result.now ≡ take n (shown_from Text left bytes.now) }
    ensures within { length result.now ≤ length bytes.now }
    ensures some { 0 < length bytes.now → 0 < length result.now }
{
    let plain = plain_front(left, bytes);
    if plain > 0 {
        &bytes[..plain]
    } else if bytes.is_empty() {
        bytes
    } else {
        b"?"
    }
}

// How many bytes from the first on are shown as they are.
fn plain_front(left: usize, bytes: &[u8]) -> usize
    ensures is { result ≡ plain_front left bytes.now }
    ensures within { result ≤ length bytes.now }
{
    let mut at_hand = left;
    let mut rest = bytes;
    let mut count = 0;
    while let [_, after @ ..] = rest {
        let of_character = left_at(Among::Text, at_hand, rest);
        if of_character == 0 {
            return count;
        }
        at_hand = of_character - 1;
        rest = after;
        count += 1;
    }
    count
}

// How many bytes are left of a character after the first `count` of some bytes.
fn left_past(left: usize, count: usize, bytes: &[u8]) -> usize
    ensures { result ≡ left_past left count bytes.now }
{
    let mut at_hand = left;
    let mut rest = bytes;
    let mut ahead = count;
    while let [_, after @ ..] = rest {
        if ahead == 0 {
            return at_hand;
        }
        at_hand = left_at(Among::Text, at_hand, rest).saturating_sub(1);
        rest = after;
        ahead -= 1;
    }
    at_hand
}

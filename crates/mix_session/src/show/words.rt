//! Words as a deck has them, and in characters.

ghost use Rattle.std.specs.Prelude.{◌≡◌, ◌∷◌, [], ◌<◌, ◌≤◌, Some, length, slice_index_or};
ghost use Rattle.mix_word.specs.Prelude.{character_of, byte_of, zero_word};
ghost use Rattle.mix_session.specs.ShowUnit.{pair_text, deck_word_text, text_after, block_text, letters_text, characters_text};
ghost use Rattle.mix_session.specs.ShowValue.{short_letters};

use mix_machine::Word;
use mix_word::char_of;
use std::fmt;

/// A byte, in two digits.
#[derive(Clone, Copy)]
struct Pair {
    value: u8,
    ghost two_digits: { value < 100 },
}

#[tactic(auto, using(std::proofs::lemmas::Fmt::decimal_digit))]
impl fmt::Display for Pair {
    ghost output = { λ p. Some (pair_text p.value) };

    fn fmt<W: fmt::Write>(&self, f: &mut fmt::Formatter<W>) -> fmt::Result {
        let (tens, units) = (self.value / 10, self.value % 10);
        write!(f, "{tens}{units}")
    }
}

fn pair_of(word: Word, i: u8) -> Pair
    requires low { 1 ≤ i }
    requires high { i ≤ 5 }
    ensures { result.value ≡ byte_of word i }
{
    Pair {
        value: word.byte(i),
    }
}

/// A word as a deck has it.
#[derive(Clone, Copy)]
struct DeckWord(Word);

impl fmt::Display for DeckWord {
    ghost output = { λ w. Some (deck_word_text w.0) };

    #[tactic(auto, using(std::proofs::Common::append_assoc), unfolding(crate::specs::ShowUnit::deck_word_text))]
    fn fmt<W: fmt::Write>(&self, f: &mut fmt::Formatter<W>) -> fmt::Result {
        let word = self.0;
        let (a, b, c, d, e) = (
            pair_of(word, 1),
            pair_of(word, 2),
            pair_of(word, 3),
            pair_of(word, 4),
            pair_of(word, 5),
        );
        write!(f, "{}{a}{b}{c}{d}{e}", word.sign())
    }
}

// What follows word j of a block, so that five make a line.
fn text_after(j: usize) -> &'static str
    ensures { result.now ≡ text_after j }
{
    if j % 5 == 4 { "\n" } else { " " }
}

fn word_at(words: &[Word], j: usize) -> Word
    requires { j < length words.now }
    ensures { result ≡ slice_index_or words.now j zero_word }
{
    words[j]
}

/// The lines of a block, five words each.
#[derive(Clone, Copy)]
pub(super) struct BlockLines<'a>(pub &'a [Word]);

impl fmt::Display for BlockLines<'_> {
    ghost output = { λ b. Some (block_text b.0.now) };

    fn fmt<W: fmt::Write>(&self, f: &mut fmt::Formatter<W>) -> fmt::Result {
        let words = self.0;
        for j in 0..words.len() {
            let (word, after) = (DeckWord(word_at(words, j)), text_after(j));
            write!(f, "{word}{after}")?;
        }
        Ok(())
    }
}

/// The character of a byte.
#[derive(Clone, Copy)]
struct Letter(u8);

impl fmt::Display for Letter {
    ghost output = { λ l. Some (character_of l.0 ∷ []) };

    #[tactic(auto, using(crate::proofs::UnitLemmas::letters))]
    fn fmt<W: fmt::Write>(&self, f: &mut fmt::Formatter<W>) -> fmt::Result {
        let letter = char::from(char_of(self.0));
        write!(f, "{letter}")
    }
}

fn letter_of(word: Word, i: u8) -> Letter
    requires low { 1 ≤ i }
    requires high { i ≤ 5 }
    ensures { result.0 ≡ byte_of word i }
{
    Letter(word.byte(i))
}

/// The five characters of a word.
#[derive(Clone, Copy)]
pub struct Letters(pub Word);

impl fmt::Display for Letters {
    ghost output = { λ w. Some (letters_text w.0) };

    #[tactic(auto, using(std::proofs::Common::append_assoc), unfolding(crate::specs::ShowUnit::letters_text))]
    fn fmt<W: fmt::Write>(&self, f: &mut fmt::Formatter<W>) -> fmt::Result {
        let word = self.0;
        let (a, b, c, d, e) = (
            letter_of(word, 1),
            letter_of(word, 2),
            letter_of(word, 3),
            letter_of(word, 4),
            letter_of(word, 5),
        );
        write!(f, "{a}{b}{c}{d}{e}")
    }
}

/// The two characters of an index register.
#[derive(Clone, Copy)]
pub struct ShortLetters(pub Word);

impl fmt::Display for ShortLetters {
    ghost output = { λ w. Some (short_letters w.0) };

    fn fmt<W: fmt::Write>(&self, f: &mut fmt::Formatter<W>) -> fmt::Result {
        let (d, e) = (letter_of(self.0, 4), letter_of(self.0, 5));
        write!(f, "{d}{e}")
    }
}

/// The characters of some words.
#[derive(Clone, Copy)]
pub struct Characters<'a>(pub &'a [Word]);

impl fmt::Display for Characters<'_> {
    ghost output = { λ c. Some (characters_text c.0.now) };

    fn fmt<W: fmt::Write>(&self, f: &mut fmt::Formatter<W>) -> fmt::Result {
        for word in self.0 {
            let letters = Letters(*word);
            write!(f, "{letters}")?;
        }
        Ok(())
    }
}

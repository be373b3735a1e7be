//! The words of a shape: keywords, cells and numbers.
ghost use Rattle.std.specs.Prelude.{◌≡◌, ◌∷◌, [], Some, None, MatchOption, IfSome, ◌<◌, ◌≤◌};
ghost use Rattle.mix_word.specs.Word.{number_of};
ghost use Rattle.mix_nodes.specs.Read.{after_keyword, cell_of_number, expression_in, first_cell, first_size, is_keyword, size_of_number, without_comma, without_commas};

use mix_lines::{Words, number};
use mix_word::{CELLS, Word};
use mixal_text::{Names, whole_expression};

/// The next word, without the comma at its end.
pub(crate) fn next_word<'a>(words: &mut Words<'a>) -> Option<&'a [u8]>
    ensures { MatchOption result (without_commas words.old ≡ []) (λ word. without_commas words.old ≡ word.now ∷ without_commas words.new) }
{
    let word = words.next()?;
    match word {
        [text @ .., b','] => Some(text),
        _ => Some(word),
    }
}

/// Whether a word is a keyword, in capitals or small letters.
pub(crate) fn is_keyword(name: &[u8], word: &[u8]) -> bool
    ensures { result ≡ is_keyword name.now word.now }
{
    word.eq_ignore_ascii_case(name)
}

/// Reads a keyword; none where there is another word, or no word.
pub(crate) fn keyword(name: &[u8], words: &mut Words) -> Option<()>
    ensures { MatchOption result (after_keyword name.now (without_commas words.old) ≡ None) (λ _. after_keyword name.now (without_commas words.old) ≡ Some (without_commas words.new)) }
{
    let word = next_word(words)?;
    if is_keyword(name, word) {
        Some(())
    } else {
        None
    }
}

/// The value of an expression.
pub(crate) fn expression_in<N: Names>(text: &[u8], names: &N, here: Word) -> Option<Word>
    ensures { result ≡ expression_in (N.names names.now) here text.now }
{
    match whole_expression(text, names, here) {
        Ok(value) => Some(value),
        Err(_) => None,
    }
}

/// Reads a cell.
pub(crate) fn first_cell<N: Names>(words: &mut Words, names: &N, here: Word) -> Option<u16>
    ensures is { MatchOption result (first_cell (N.names names.now) here (without_commas words.old) ≡ None) (λ cell. first_cell (N.names names.now) here (without_commas words.old) ≡ Some (cell, without_commas words.new)) }
    ensures there { IfSome result (λ cell. cell < 4000) }
{
    let word = next_word(words)?;
    let value = expression_in(word, names, here)?;
    match u16::try_from(value.number()) {
        Ok(cell) if cell < CELLS => Some(cell),
        _ => None,
    }
}

/// Reads how many words a node has.
pub(crate) fn first_size(words: &mut Words) -> Option<u16>
    ensures is { MatchOption result (first_size (without_commas words.old) ≡ None) (λ size. first_size (without_commas words.old) ≡ Some (size, without_commas words.new)) }
    ensures some { IfSome result (λ size. 0 < size) }
    ensures within { IfSome result (λ size. size ≤ 4000) }
{
    let word = next_word(words)?;
    match number(word) {
        Some(size) if 0 < size && size <= 4000 => Some(size as u16),
        _ => None,
    }
}

//! Whether two units are the same (1.3.1).
ghost use Rattle.std.specs.Prelude.{◌≡◌};
ghost use Rattle.std.specs.Cmp.Lexicographic.{pointwise};
ghost use Rattle.mix_word.specs.Word.{is_same_word};
ghost use Rattle.mix_machine.specs.Part.{is_same_row, is_same_unit};
ghost use Rattle.mix_machine.specs.units.Alike.{is_alike};

use crate::units::row::Row;
use crate::units::unit::Unit;
use mix_word::Word;

impl Unit {
    /// Whether two units are the same in all that they hold: kind, place, blocks, rows and times (1.3.1).
    pub fn is_same(&self, other: &Unit) -> bool
        ensures { result ≡ is_same_unit self.now other.now }
    {
        if !self.is_alike(other) {
            return false;
        }
        are_same_words(&self.words, &other.words) && are_same_rows(&self.rows, &other.rows)
    }

    // Whether two units are the same but for what stands in their blocks and rows, of which they have as many.
    #[tactic(auto, using(crate::proofs::BlockLemmas::blocks))]
    fn is_alike(&self, other: &Unit) -> bool
        ensures { result ≡ is_alike self.now other.now }
    {
        self.until == other.until
            && self.place == other.place
            && self.count == other.count
            && self.rows.len() == other.rows.len()
            && self.delay == other.delay
            && self.kind.is_same(other.kind)
    }
}

/// Whether two lists of words are the same, as two blocks of a unit (1.3.1) may be. It takes no memory.
pub fn are_same_words(words: &[Word], others: &[Word]) -> bool
    ensures { result ≡ pointwise is_same_word words.now others.now }
{
    let mut rest = others;
    for word in words {
        match rest.split_first() {
            None => return false,
            Some((other, after)) => {
                if !word.is_same(*other) {
                    return false;
                }
                rest = after;
            }
        }
    }
    rest.is_empty()
}

/// Whether two lists of rows are the same.
pub(crate) fn are_same_rows(rows: &[Row], others: &[Row]) -> bool
    ensures { result ≡ pointwise is_same_row rows.now others.now }
{
    let mut rest = others;
    for row in rows {
        match rest.split_first() {
            None => return false,
            Some((other, after)) => {
                if !row.is_same(other) {
                    return false;
                }
                rest = after;
            }
        }
    }
    rest.is_empty()
}

//! What `set` sets.

ghost use Rattle.std.specs.Prelude.{◌≡◌, Ok, Err};
ghost use Rattle.mix_session.specs.Setting.{change_in, one_value, setting_of};

use crate::fault::Refusal;
use crate::keyword::SetWord;
use crate::request::operand::{
    expression_in, first_keyword, keyword, one_place, one_word, place_of, two_words, word_in,
};
use mix_lines::Words;
use mix_machine::{Change, Part, Word};
use mixal_text::Names;

// The change that `set` asks for.
#[tactic(auto, unfolding(crate::specs::Setting::change_in))]
pub(crate) fn read_change<N: Names>(
    words: &mut Words,
    names: &N,
    here: Word,
) -> Result<Change, Refusal>
    ensures { result ≡ change_in (N.names names.now) here words.old }
{
    let target: SetWord = first_keyword(words)?;
    match target {
        SetWord::Register(register) => read_setting(Part::Register(register), words, names, here),
        SetWord::Cell => {
            let (at, value) = two_words(words)?;
            let at = expression_in(at, names, here)?;
            let value = word_in(value, names, here)?;
            Ok(Change::SetCell(place_of(at)?, value))
        }
        SetWord::Location => read_setting(Part::Loc, words, names, here),
        SetWord::Toggle => read_setting(Part::Over, words, names, here),
        SetWord::Indicator => read_setting(Part::Cmp, words, names, here),
    }
}

/// The change that sets a part to what the only word left says: a W-value for a register or a
/// cell, an expression for the location, a keyword for the toggle or the indicator.
pub(crate) fn read_setting<N: Names>(
    part: Part,
    words: &mut Words,
    names: &N,
    here: Word,
) -> Result<Change, Refusal>
    ensures { result ≡ setting_of (N.names names.now) here part words.old }
{
    match part {
        Part::Register(register) => Ok(Change::SetReg(register, one_value(words, names, here)?)),
        Part::Cell(place) => Ok(Change::SetCell(place, one_value(words, names, here)?)),
        Part::Loc => Ok(Change::SetLoc(one_place(words, names, here)?)),
        Part::Over => Ok(Change::SetOver(keyword(one_word(words)?)?)),
        Part::Cmp => Ok(Change::SetCmp(keyword(one_word(words)?)?)),
        Part::Unit(_) | Part::Clock => Err(Refusal::BadArgument),
    }
}

// The W-value that the only word left is.
fn one_value<N: Names>(words: &mut Words, names: &N, here: Word) -> Result<Word, Refusal>
    ensures { result ≡ one_value (N.names names.now) here words.old }
{
    word_in(one_word(words)?, names, here)
}

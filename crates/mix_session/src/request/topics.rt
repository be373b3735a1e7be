//! What `show` is to show: its keywords, and the words that each takes after it.

ghost use Rattle.std.specs.Prelude.{◌≡◌, Ok, Err, refl};
ghost use Rattle.mix_session.specs.ShowRequest.{show_name, all_shows, alone, range_of, topic_in};
ghost use Rattle.mix_session.specs.declared.request.topics.ShowWord.TheVariants as show;

use crate::condition::Condition;
use crate::fault::Refusal;
use crate::keyword::Keyword;
use crate::request::operand::{
    expression_in, first_keyword, from_one, no_word, number_in, one_unit, one_word, place_of,
    two_words, word_in,
};
use crate::request::until::read_condition;
use mix_lines::Words;
use mix_machine::{Place, UnitNo, Word};
use mixal_text::Names;

/// What `show` shows. `Cells`, `Code` and `CellValues` have the first and the last cell, `Last` the
/// number of changes, `Writes` the condition that they meet, `Diff` the number of changes after which the other state is taken.
#[derive(Clone, Copy)]
pub enum Topic {
    Registers,
    Cells(Place, Place),
    Clock,
    Breaks,
    Changes,
    Unit(UnitNo),
    All,
    Code(Place, Place),
    Value(Word),
    Values,
    CellValues(Place, Place),
    Symbols,
    Last(u64),
    Writes(Condition),
    Diff(u64),
    Counts,
    Conflicts,
}

/// What `show` may show.
#[derive(Clone, Copy)]
pub(crate) enum ShowWord {
    Registers,
    Cells,
    Clock,
    Breaks,
    Changes,
    Unit,
    All,
    Code,
    Value,
    Values,
    Symbols,
    Last,
    Writes,
    Diff,
    Counts,
    Conflicts,
}

impl Keyword for ShowWord {
    ghost name_of = { show_name };

    ghost all_of = { all_shows };

    fn name(self) -> &'static str {
        match self {
            ShowWord::Registers => "regs",
            ShowWord::Cells => "cells",
            ShowWord::Clock => "clock",
            ShowWord::Breaks => "breaks",
            ShowWord::Changes => "changes",
            ShowWord::Unit => "unit",
            ShowWord::All => "all",
            ShowWord::Code => "code",
            ShowWord::Value => "value",
            ShowWord::Values => "values",
            ShowWord::Symbols => "symbols",
            ShowWord::Last => "last",
            ShowWord::Writes => "writes",
            ShowWord::Diff => "diff",
            ShowWord::Counts => "counts",
            ShowWord::Conflicts => "conflicts",
        }
    }

    #[rattlefmt::skip]
    fn all() -> &'static [ShowWord] {
        &[
            ShowWord::Registers, ShowWord::Cells, ShowWord::Clock, ShowWord::Breaks,
            ShowWord::Changes, ShowWord::Unit, ShowWord::All, ShowWord::Code,
            ShowWord::Value, ShowWord::Values, ShowWord::Symbols,
            ShowWord::Last, ShowWord::Writes, ShowWord::Diff, ShowWord::Counts,
            ShowWord::Conflicts,
        ]
    }

    ghost named = { elim [ show.Registers ↦ refl | show.Cells ↦ refl | show.Clock ↦ refl | show.Breaks ↦ refl | show.Changes ↦ refl | show.Unit ↦ refl | show.All ↦ refl | show.Code ↦ refl | show.Value ↦ refl | show.Values ↦ refl | show.Symbols ↦ refl | show.Last ↦ refl | show.Writes ↦ refl | show.Diff ↦ refl | show.Counts ↦ refl | show.Conflicts ↦ refl ] };
}

#[tactic(auto, unfolding(crate::specs::ShowRequest::topic_in))]
pub(crate) fn read_topic<N: Names>(
    words: &mut Words,
    names: &N,
    here: Word,
) -> Result<Topic, Refusal>
    ensures { result ≡ topic_in (N.names names.now) here words.old }
{
    let topic: ShowWord = first_keyword(words)?;
    match topic {
        ShowWord::Registers => alone(Topic::Registers, words),
        ShowWord::Cells => {
            let (first, last) = read_range(words, names, here)?;
            Ok(Topic::Cells(first, last))
        }
        ShowWord::Clock => alone(Topic::Clock, words),
        ShowWord::Breaks => alone(Topic::Breaks, words),
        ShowWord::Changes => alone(Topic::Changes, words),
        ShowWord::Unit => Ok(Topic::Unit(one_unit(words)?)),
        ShowWord::All => alone(Topic::All, words),
        ShowWord::Code if words.is_end() => {
            let place = place_of(here)?;
            Ok(Topic::Code(place, place))
        }
        ShowWord::Code => {
            let (first, last) = read_range(words, names, here)?;
            Ok(Topic::Code(first, last))
        }
        ShowWord::Value => Ok(Topic::Value(word_in(one_word(words)?, names, here)?)),
        ShowWord::Values if words.is_end() => Ok(Topic::Values),
        ShowWord::Values => {
            let (first, last) = read_range(words, names, here)?;
            Ok(Topic::CellValues(first, last))
        }
        ShowWord::Symbols => alone(Topic::Symbols, words),
        ShowWord::Last => Ok(Topic::Last(from_one(number_in(one_word(words)?)?)?)),
        ShowWord::Writes => Ok(Topic::Writes(read_condition(words, names, here)?)),
        ShowWord::Diff => Ok(Topic::Diff(number_in(one_word(words)?)?)),
        ShowWord::Counts => alone(Topic::Counts, words),
        ShowWord::Conflicts => alone(Topic::Conflicts, words),
    }
}

// A topic after which no word is left.
fn alone(topic: Topic, words: &mut Words) -> Result<Topic, Refusal>
    ensures { result ≡ alone topic words.old }
{
    no_word(words)?;
    Ok(topic)
}

// The cells from one to another.
fn read_range<N: Names>(words: &mut Words, names: &N, here: Word) -> Result<(Place, Place), Refusal>
    ensures { result ≡ range_of (N.names names.now) here words.old }
{
    let (from, to) = two_words(words)?;
    let from = expression_in(from, names, here)?;
    let to = expression_in(to, names, here)?;
    let (from, to) = (place_of(from)?, place_of(to)?);
    if to.number() < from.number() {
        Err(Refusal::OutOfRange)
    } else {
        Ok((from, to))
    }
}

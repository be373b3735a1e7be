//! What may come next in a line, after the words so far.

ghost use Rattle.std.specs.Prelude.{◌≡◌};
ghost use Rattle.mix_session.specs.Completion.{if_first, one_value, two_values, after_until, after_run, after_back, after_forth, after_set, after_show, after_command, next_after};

use crate::completion::until::after_conditions;
use crate::conditions::Conditions;
use crate::keyword::{BackWord, CommandWord, ForthWord, SetWord, named};
use crate::request::ShowWord;
use mix_lines::Words;

/// What may come next in a line.
#[derive(Clone, Copy)]
pub(super) enum Next {
    /// No word that has a name: a number, or the line is at its end.
    Nothing,
    Command,
    Until,
    Back,
    Forth,
    Set,
    Condition,
    Or,
    Topic,
    /// The word `line`, or an expression.
    Place,
    /// An expression or a W-value.
    Value,
    Toggle,
    Indicator,
}

/// What may come after the words of a line.
#[tactic(auto, unfolding(crate::specs::Completion::next_after))]
pub(super) fn next_after(words: &mut Words) -> Next
    ensures { result ≡ next_after words.old }
{
    let Some(word) = words.next() else {
        return Next::Command;
    };
    match named(word) {
        None => Next::Nothing,
        Some(command) => after_command(command, words),
    }
}

#[tactic(auto, unfolding(crate::specs::Completion::after_run, crate::specs::Completion::after_back, crate::specs::Completion::after_forth, crate::specs::Completion::after_set, crate::specs::Completion::after_show))]
fn after_command(command: CommandWord, words: &mut Words) -> Next
    ensures { result ≡ after_command command words.old }
{
    match command {
        CommandWord::Step | CommandWord::Trace | CommandWord::Goto => Next::Nothing,
        CommandWord::Run => match words.next() {
            None => Next::Nothing,
            Some(_) => match words.next() {
                None => Next::Until,
                Some(word) if word.eq_ignore_ascii_case(b"until") => after_until(words),
                Some(_) => Next::Nothing,
            },
        },
        CommandWord::Back => match words.next() {
            None => Next::Back,
            Some(word) => match named(word) {
                Some(BackWord::Until) => after_until(words),
                Some(BackWord::All) | Some(BackWord::Break) | None => Next::Nothing,
            },
        },
        CommandWord::Forth => match words.next() {
            None => Next::Forth,
            Some(word) => match named(word) {
                Some(ForthWord::Until) => after_until(words),
                Some(ForthWord::All) | None => Next::Nothing,
            },
        },
        CommandWord::Set => match words.next() {
            None => Next::Set,
            Some(word) => match named(word) {
                Some(SetWord::Register(_)) | Some(SetWord::Location) => one_value(words),
                Some(SetWord::Cell) => two_values(words),
                Some(SetWord::Toggle) => if_first(Next::Toggle, words),
                Some(SetWord::Indicator) => if_first(Next::Indicator, words),
                None => Next::Nothing,
            },
        },
        CommandWord::Break | CommandWord::Clear => if_first(Next::Place, words),
        CommandWord::Show => match words.next() {
            None => Next::Topic,
            Some(word) => match named(word) {
                Some(ShowWord::Cells) | Some(ShowWord::Code) | Some(ShowWord::Values) => {
                    two_values(words)
                }
                Some(ShowWord::Value) => one_value(words),
                Some(ShowWord::Writes) => after_conditions(1, words),
                Some(_) | None => Next::Nothing,
            },
        },
    }
}

// This, where no word is there yet.
fn if_first(next: Next, words: &mut Words) -> Next
    ensures { result ≡ if_first next words.old }
{
    if words.is_end() { next } else { Next::Nothing }
}

fn one_value(words: &mut Words) -> Next
    ensures { result ≡ one_value words.old }
{
    if_first(Next::Value, words)
}

fn two_values(words: &mut Words) -> Next
    ensures { result ≡ two_values words.old }
{
    match words.next() {
        None => Next::Value,
        Some(_) => one_value(words),
    }
}

#[tactic(auto, unfolding(crate::specs::Completion::after_until))]
fn after_until(words: &mut Words) -> Next
    ensures { result ≡ after_until words.old }
{
    after_conditions(Conditions::MOST, words)
}

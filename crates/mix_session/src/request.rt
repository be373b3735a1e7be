//! A line of the script, read into what it asks for.

mod operand;
mod set;
mod topics;
mod until;

ghost use Rattle.std.specs.Prelude.{◌≡◌, Ok, Err};
ghost use Rattle.mix_lines.specs.Lines.{words};
ghost use Rattle.mix_session.specs.Request.{steps_of, steps_in, count_request, run_request, request_alone, amount_in, back_request, forth_request, goto_request, break_place, request_after, request_of_words, request_of};

use crate::conditions::Conditions;
use crate::fault::Refusal;
use crate::keyword::{BackWord, CommandWord, ForthWord, named};
use mix_lines::{Words, is_comment};
use mix_machine::{Change, Place, Word};
use mixal_asm::Program;
use mixal_text::Names;
use operand::{first_word, from_one, no_word, number_in, one_word, place_named, up_to};
use set::read_change;
pub(crate) use set::read_setting;
pub(crate) use topics::ShowWord;
pub use topics::Topic;
use topics::read_topic;
pub(crate) use until::read_condition;
use until::read_conditions;

/// A request to a session: what one line of a script asks for.
#[derive(Clone, Copy)]
pub enum Request {
    Nothing,
    Step(u32),
    Trace(u32),
    Run(u32),
    RunUntil(u32, Conditions),
    Back(u64),
    BackAll,
    BackBreak,
    BackUntil(Conditions),
    Forth(u64),
    ForthAll,
    ForthUntil(Conditions),
    Goto(u64),
    Change(Change),
    Show(Topic),
}

/// The most steps that one command may ask for.
const MAX_STEPS: u64 = 1_000_000;

/// Reads a line: its request, or what is wrong with its words. The asterisk is `here`, the
/// location.
#[tactic(auto, unfolding(crate::specs::Request::request_of, crate::specs::Request::request_of_words))]
pub(crate) fn read_request(line: &[u8], program: &Program, here: Word) -> Result<Request, Refusal>
    ensures { result ≡ request_of program.now here line.now }
{
    if is_comment(line) {
        return Ok(Request::Nothing);
    }
    let mut words = Words::of(line);
    let Some(word) = words.next() else {
        return Ok(Request::Nothing);
    };
    match named(word) {
        None => Err(Refusal::NoSuchCommand),
        Some(command) => read_arguments(command, &mut words, program, here),
    }
}

#[tactic(auto, unfolding(crate::specs::Request::run_request, crate::specs::Request::back_request, crate::specs::Request::forth_request, crate::specs::Request::goto_request))]
fn read_arguments(
    command: CommandWord,
    words: &mut Words,
    program: &Program,
    here: Word,
) -> Result<Request, Refusal>
    ensures { result ≡ request_after program.now here command words.old }
{
    match command {
        CommandWord::Step => Ok(Request::Step(read_count(words)?)),
        CommandWord::Trace => Ok(Request::Trace(read_count(words)?)),
        CommandWord::Run => {
            let word = first_word(words)?;
            match words.next() {
                None => Ok(Request::Run(steps_in(word)?)),
                Some(next) if next.eq_ignore_ascii_case(b"until") => {
                    let count = number_in(word)?;
                    let conditions = read_conditions(words, program, here)?;
                    Ok(Request::RunUntil(steps_of(count)?, conditions))
                }
                Some(_) => Err(Refusal::BadArgument),
            }
        }
        CommandWord::Back => {
            let word = first_word(words)?;
            match named(word) {
                Some(BackWord::All) => request_alone(Request::BackAll, words),
                Some(BackWord::Break) => request_alone(Request::BackBreak, words),
                Some(BackWord::Until) => {
                    Ok(Request::BackUntil(read_conditions(words, program, here)?))
                }
                None => Ok(Request::Back(amount_in(word, words)?)),
            }
        }
        CommandWord::Forth => {
            let word = first_word(words)?;
            match named(word) {
                Some(ForthWord::All) => request_alone(Request::ForthAll, words),
                Some(ForthWord::Until) => {
                    Ok(Request::ForthUntil(read_conditions(words, program, here)?))
                }
                None => Ok(Request::Forth(amount_in(word, words)?)),
            }
        }
        CommandWord::Goto => Ok(Request::Goto(number_in(one_word(words)?)?)),
        CommandWord::Set => Ok(Request::Change(read_change(words, program, here)?)),
        CommandWord::Break => Ok(Request::Change(Change::Break(read_break(words, program, here)?))),
        CommandWord::Clear => Ok(Request::Change(Change::Clear(read_break(words, program, here)?))),
        CommandWord::Show => Ok(Request::Show(read_topic(words, program, here)?)),
    }
}

// How many steps, where none said is one.
#[tactic(auto, unfolding(crate::specs::Request::count_request))]
fn read_count(words: &mut Words) -> Result<u32, Refusal>
    ensures { result ≡ count_request words.old }
{
    let Some(word) = words.next() else {
        return Ok(1);
    };
    no_word(words)?;
    steps_in(word)
}

// How many steps a word asks for.
fn steps_in(word: &[u8]) -> Result<u32, Refusal>
    ensures { result ≡ steps_in word.now }
{
    steps_of(number_in(word)?)
}

fn steps_of(count: u64) -> Result<u32, Refusal>
    ensures { result ≡ steps_of count }
{
    let steps = up_to(MAX_STEPS, from_one(count)?)?;
    Ok(steps as u32)
}

// A request after which no word is left.
fn request_alone(request: Request, words: &mut Words) -> Result<Request, Refusal>
    ensures { result ≡ request_alone request words.old }
{
    no_word(words)?;
    Ok(request)
}

// How many changes a word asks for, after which no word is left.
fn amount_in(word: &[u8], words: &mut Words) -> Result<u64, Refusal>
    ensures { result ≡ amount_in word.now words.old }
{
    no_word(words)?;
    from_one(number_in(word)?)
}

// The cell of a breakpoint, by an expression or by a line of the source.
#[tactic(auto, unfolding(crate::specs::Request::break_place))]
fn read_break(words: &mut Words, program: &Program, here: Word) -> Result<Place, Refusal>
    ensures { result ≡ break_place program.now here words.old }
{
    let word = first_word(words)?;
    if words.is_end() {
        place_named(word, program, here)
    } else if word.eq_ignore_ascii_case(b"line") {
        let number = from_one(number_in(one_word(words)?)?)?;
        program.cell_from(number).ok_or(Refusal::OutOfRange)
    } else {
        Err(Refusal::BadArgument)
    }
}

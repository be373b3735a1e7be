//! What a request of the client asks of the machine, read into values.

ghost use Rattle.std.specs.Prelude.{◌≡◌};
ghost use Rattle.dap_asked.specs.Deed.{goto_deed, is_settable, scope_asked, settable_part, change_deed, set_deed, hovered, line_deed, register_written, unless_unit, part_meant, worth_in, worth_of, holder_of, set_expression_deed, looked_at, evaluate_deed, deed_of};

use crate::fault::Fault;
use crate::kind::Act;
use crate::scope::{Scope, flag_named, part_of, scope_of};
use crate::watch::part_named;
use mix_machine::{Change, Part, Place, Reg, Sign, Word};
use mix_session::{Refusal, Session};
use mix_word::{Operation, named};
use mixal_text::w_value;
use rpc_message::Request;

/// What is asked of the machine.
#[derive(Clone, Copy)]
pub enum Deed {
    /// Nothing: a run is only begun, or something is looked at.
    Nothing,
    /// One step, which nothing stops.
    Step,
    /// A request of the session.
    Do(mix_session::Request),
}

/// What an expression is worth.
#[derive(Clone, Copy)]
pub enum Worth {
    /// The word of a W-value.
    Word(Word),
    /// What a part of the machine holds.
    Held(Part),
}

/// What a request asks of the machine that moves or changes it, and is no line of the console, or why it is refused.
pub fn deed_of(act: Act, request: &Request, session: &Session) -> Result<Deed, Fault>
    ensures { result ≡ deed_of act request.now session.now }
{
    match act {
        Act::Step => Ok(Deed::Step),
        Act::StepBack => Ok(Deed::Do(mix_session::Request::Back(1))),
        Act::Continue | Act::StepOut | Act::ReverseContinue | Act::Begin => Ok(Deed::Nothing),
        Act::Goto => goto_deed(request.number("targetId")),
        Act::SetVariable => set_deed(request, session),
        Act::SetExpression => set_expression_deed(request, session),
        Act::Evaluate => evaluate_deed(request, session),
    }
}

// The location is set to the cell of a target.
fn goto_deed(target: Option<u64>) -> Result<Deed, Fault>
    ensures { result ≡ goto_deed target }
{
    match target {
        Some(cell) => match u16::try_from(cell).ok().and_then(Place::of) {
            Some(place) => Ok(Deed::Do(mix_session::Request::Change(Change::SetLoc(place)))),
            None => Err(Fault::NoSuchThing),
        },
        None => Err(Fault::NoSuchThing),
    }
}

// A variable is set to what a text says.
#[tactic(auto, unfolding(crate::specs::Deed::set_deed))]
fn set_deed(request: &Request, session: &Session) -> Result<Deed, Fault>
    ensures { result ≡ set_deed session.now request.now }
{
    let scope = scope_asked(request.number("variablesReference"))?;
    let name = request.text("name").ok_or(Fault::BadArgument)?;
    let value = request.text("value").ok_or(Fault::BadArgument)?;
    let part = settable_part(scope, name)?;
    change_deed(session, part, value)
}

fn change_deed(session: &Session, part: Part, value: &str) -> Result<Deed, Fault>
    ensures { result ≡ change_deed session.now part value.now }
{
    match session.setting(part, value.as_bytes()) {
        Ok(change) => Ok(Deed::Do(mix_session::Request::Change(change))),
        Err(refusal) => Err(Fault::Session(refusal)),
    }
}

fn scope_asked(reference: Option<u64>) -> Result<Scope, Fault>
    ensures { result ≡ scope_asked reference }
{
    match reference {
        Some(reference) => scope_of(reference).ok_or(Fault::BadArgument),
        None => Err(Fault::BadArgument),
    }
}

// Whether the variables of a scope can be set.
fn is_settable(scope: &Scope) -> bool
    ensures { result ≡ is_settable scope.now }
{
    match scope {
        Scope::Registers | Scope::Flags | Scope::Page(_) => true,
        Scope::Units | Scope::Memory | Scope::Unit(_) => false,
    }
}

// The part that a variable is, where it can be set.
fn settable_part(scope: Scope, name: &str) -> Result<Part, Fault>
    ensures { result ≡ settable_part scope name.now }
{
    if is_settable(&scope) {
        part_of(scope, name).ok_or(Fault::NoSuchThing)
    } else {
        Err(Fault::NoSuchThing)
    }
}

// What an expression names is set to what a text says.
#[tactic(auto, unfolding(crate::specs::Deed::set_expression_deed))]
fn set_expression_deed(request: &Request, session: &Session) -> Result<Deed, Fault>
    ensures { result ≡ set_expression_deed session.now request.now }
{
    let text = request.text("expression").ok_or(Fault::BadArgument)?;
    let value = request.text("value").ok_or(Fault::BadArgument)?;
    let holder = holder_of(worth_of(session, text)).ok_or(Fault::NoSuchThing)?;
    change_deed(session, holder, value)
}

// The part that holds what an expression is worth; the word of a W-value is in none.
fn holder_of(worth: Option<Worth>) -> Option<Part>
    ensures { result ≡ holder_of worth }
{
    match worth {
        Some(Worth::Held(part)) => Some(part),
        Some(Worth::Word(_)) | None => None,
    }
}

// An expression that is no line of the console.
#[tactic(auto, unfolding(crate::specs::Deed::evaluate_deed))]
fn evaluate_deed(request: &Request, session: &Session) -> Result<Deed, Fault>
    ensures { result ≡ evaluate_deed session.now request.now }
{
    let text = request.text("expression").ok_or(Fault::BadArgument)?;
    looked_at(worth_of(session, text), hovered(request))
}

/// A line of the script, as the session reads it.
pub fn line_deed(session: &Session, line: &[u8]) -> Result<Deed, Fault>
    ensures { result ≡ line_deed session.now line.now }
{
    match session.read(line) {
        Ok(request) => Ok(Deed::Do(request)),
        Err(refusal) => Err(Fault::Session(refusal)),
    }
}

fn looked_at(worth: Option<Worth>, operation: Option<Operation>) -> Result<Deed, Fault>
    ensures { result ≡ looked_at worth operation }
{
    match (worth, operation) {
        (None, None) => Err(Fault::Session(Refusal::BadArgument)),
        (Some(_), _) | (None, Some(_)) => Ok(Deed::Nothing),
    }
}

/// The operation that the expression of a hover names.
pub(crate) fn hovered(request: &Request) -> Option<Operation>
    ensures { result ≡ hovered request.now }
{
    match request.text("context") {
        Some("hover") => named(request.text("expression")?.trim().as_bytes()),
        _ => None,
    }
}

/// What an expression is worth, in which the asterisk stands for the location, if it is worth anything. Blanks around it are no part of it.
pub fn worth_of(session: &Session, text: &str) -> Option<Worth>
    ensures { result ≡ worth_of session.now text.now }
{
    worth_in(session, text.trim())
}

// The same of a text without blanks around it.
fn worth_in(session: &Session, text: &str) -> Option<Worth>
    ensures { result ≡ worth_in session.now text.now }
{
    let here = Word::of(Sign::Plus, u32::from(session.world().loc()));
    match w_value(text.as_bytes(), session.program(), here) {
        Ok(word) => Some(Worth::Word(word)),
        Err(_) => Some(Worth::Held(part_meant(session, text)?)),
    }
}

// The part of the machine that a text names: a register, as `rA`; `over`, `cmp`, `loc`, `clock`; or what it names after `until` in a command.
fn part_meant(session: &Session, text: &str) -> Option<Part>
    ensures { result ≡ part_meant session.now text.now }
{
    match register_written(text.as_bytes()) {
        Some(register) => Some(Part::Register(register)),
        None => flag_named(text).or(part_named(session, text).and_then(unless_unit)),
    }
}

// A register as the book writes it, with an r before its name.
fn register_written(name: &[u8]) -> Option<Reg>
    ensures { result ≡ register_written name.now }
{
    match name {
        [b'r', rest @ ..] => Reg::named(rest),
        _ => None,
    }
}

// A part whose content is one value; a unit holds more.
fn unless_unit(part: Part) -> Option<Part>
    ensures { result ≡ unless_unit part }
{
    match part {
        Part::Unit(_) => None,
        Part::Register(_) | Part::Over | Part::Cmp | Part::Loc | Part::Clock | Part::Cell(_) => {
            Some(part)
        }
    }
}

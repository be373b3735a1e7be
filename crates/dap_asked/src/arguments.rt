//! The arguments of requests: whether each is what it has to be.

use crate::arguments::Form::{Flag, Integer, List, Natural, Object, Text};
use crate::kind::{Act, Given, Kind, Look, Target};
use rpc_message::{Request, integer, member_of, natural};
use serde_json::Value;

/// What a value has to be.
#[derive(Clone, Copy)]
enum Form {
    Text,
    /// `true` or `false`.
    Flag,
    /// A whole number, from zero to this one.
    Natural(u64),
    /// A whole number of 64 bits with a sign.
    Integer,
    List,
    Object,
}

// A whole number, zero or more.
const ANY: Form = Natural(u64::MAX);

// The code of a field is one byte of MIX.
const FIELD: Form = Natural(63);

/// An object whose members are looked at.
#[derive(Clone, Copy)]
enum Of<'r> {
    Arguments(&'r Request),
    Value(&'r Value),
}

/// The members of an object, and the name of the first one that is missing or is not what it has to be.
#[derive(Clone, Copy)]
struct Members<'r> {
    of: Of<'r>,
    flaw: Option<&'static str>,
}

impl<'r> Members<'r> {
    fn of(of: Of<'r>) -> Members<'r> {
        Members { of, flaw: None }
    }

    fn member(self, name: &str) -> Option<&'r Value> {
        match self.of {
            Of::Arguments(request) => request.argument(name),
            Of::Value(value) => member_of(value, name),
        }
    }

    fn wrong(self, name: &'static str) -> Members<'r> {
        Members {
            of: self.of,
            flaw: self.flaw.or(Some(name)),
        }
    }

    // One that may be missing.
    fn may(self, name: &'static str, form: Form) -> Members<'r> {
        match self.member(name) {
            Some(value) if !is_form(form, value) => self.wrong(name),
            _ => self,
        }
    }

    fn needs(self, name: &'static str, form: Form) -> Members<'r> {
        match self.member(name) {
            Some(value) if is_form(form, value) => self,
            _ => self.wrong(name),
        }
    }

    // The source that a request is about, which may be missing: an object, whose path is a text.
    fn source(self) -> Members<'r> {
        let asked = self.may("source", Object);
        let Some(source) = asked.member("source") else {
            return asked;
        };
        match Members::of(Of::Value(source)).may("path", Text).flaw {
            Some(name) => asked.wrong(name),
            None => asked,
        }
    }

    // A list of what breakpoints are set on.
    fn list(self, name: &'static str, target: Target) -> Members<'r> {
        let asked = self.needs(name, List);
        let Some(list) = asked.member(name).and_then(Value::as_array) else {
            return asked;
        };
        for entry in list {
            match entry_flaw(name, target, entry) {
                Some(name) => return asked.wrong(name),
                None => {}
            }
        }
        asked
    }
}

fn is_form(form: Form, value: &Value) -> bool {
    match form {
        Text => value.is_string(),
        Flag => value.is_boolean(),
        Natural(most) => match natural(value) {
            Some(number) => number <= most,
            None => false,
        },
        Integer => integer(value).is_some(),
        List => value.is_array(),
        Object => value.is_object(),
    }
}

// The flaw of an entry of a list.
fn entry_flaw(name: &'static str, target: Target, entry: &Value) -> Option<&'static str> {
    let asked = Members::of(Of::Value(entry));
    let asked = match target {
        Target::Lines => asked
            .needs("line", ANY)
            .may("condition", Text)
            .may("hitCondition", Text),
        Target::Instructions => asked
            .needs("instructionReference", Text)
            .may("offset", Integer)
            .may("condition", Text)
            .may("hitCondition", Text),
        Target::Data => asked.needs("dataId", Text),
        Target::Nothing => asked.needs("name", Text),
        Target::Exceptions if entry.is_string() => asked,
        Target::Exceptions => asked.wrong(name),
    };
    asked.flaw
}

/// The name of the first argument of a request that is missing or is not what it has to be, if there is one.
#[rattlefmt::skip]
pub(crate) fn flaw_of(kind: Kind, request: &Request) -> Option<&'static str> {
    if !request.has_arguments() {
        return Some("arguments");
    }
    let asked = Members::of(Of::Arguments(request));
    let asked = match kind {
        Kind::Initialize => asked.may("linesStartAt1", Flag).may("columnsStartAt1", Flag).may("supportsInvalidatedEvent", Flag),
        Kind::Launch => asked
            .may("program", Text).may("sourceText", Text).may("devices", Text).may("devicesText", Text).may("cards", Text).may("cardsText", Text)
            .may("typewriter", Text).may("typewriterText", Text).may("stopOnEntry", Flag).may("noDebug", Flag),
        Kind::Given(Given::Check) => asked.needs("source", Text),
        Kind::Given(Given::Bundle) => asked.needs("text", Text),
        Kind::Points(Target::Lines) => asked.source().list("breakpoints", Target::Lines),
        Kind::Points(Target::Exceptions) => asked.list("filters", Target::Exceptions),
        Kind::Points(target) => asked.list("breakpoints", target),
        Kind::Write => asked.needs("memoryReference", Text).may("offset", Integer).needs("data", Text),
        Kind::Look(look) => looked_at(asked, look),
        Kind::Act(Act::Goto) => asked.needs("targetId", ANY),
        Kind::Act(Act::SetVariable) => asked.needs("variablesReference", ANY).needs("name", Text).needs("value", Text),
        Kind::Act(Act::SetExpression) => asked.needs("expression", Text).needs("value", Text),
        Kind::Act(Act::Evaluate) => asked.needs("expression", Text).may("context", Text),
        Kind::Act(Act::Step | Act::StepBack | Act::Continue | Act::StepOut | Act::ReverseContinue | Act::Begin) => asked,
        Kind::Pause | Kind::Terminate | Kind::Restart | Kind::Cancel | Kind::Disconnect | Kind::StepOver => asked,
    };
    asked.flaw
}

// The arguments of one that only looks.
#[rattlefmt::skip]
fn looked_at(asked: Members<'_>, look: Look) -> Members<'_> {
    match look {
        Look::Frames => asked.may("startFrame", ANY),
        Look::Variables => asked.needs("variablesReference", ANY).may("start", ANY).may("count", ANY),
        Look::Memory => asked.needs("memoryReference", Text).may("offset", Integer).needs("count", ANY),
        Look::Instructions => asked
            .needs("memoryReference", Text).may("offset", Integer).may("instructionOffset", Integer).needs("instructionCount", ANY),
        Look::Targets => asked.needs("line", ANY),
        Look::Watch => asked.needs("name", Text).may("variablesReference", ANY),
        Look::Locations => asked.source().needs("line", ANY).may("endLine", ANY),
        Look::Completions => asked.needs("text", Text).needs("column", ANY),
        Look::Counts => asked.may("conflicts", Flag),
        Look::Path => asked.needs("columns", Natural(500)).may("from", ANY).may("until", ANY),
        Look::State => asked.may("cells", List).may("nonzero", Flag).may("field", FIELD).may("instructions", Flag),
        Look::Units => asked.may("unit", ANY).may("block", ANY),
        Look::Change => asked.needs("number", ANY).may("field", FIELD).may("conflict", Flag),
        Look::Next => asked.may("field", FIELD),
        Look::Writes => asked.needs("part", Text).may("count", Natural(1_000)).may("until", ANY).may("total", Flag),
        Look::Nodes | Look::Passages => asked.needs("of", Text),
        Look::Analysis => asked.may("of", Text),
        Look::Threads | Look::Scopes | Look::Fault | Look::Program => asked,
    }
}
